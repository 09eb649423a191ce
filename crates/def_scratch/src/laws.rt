//! Laws of scratch documents: the document of a frame's text is that of the frame that is read from
//! it.
ghost use Rattle.def_scratch.specs.FrameRows.{WorkedFrame};
ghost use Rattle.def_scratch.specs.Laws.{FrameErrorsDecide, FrameGivesDocumentOfItsMeaning, FrameGivesDocumentOfItsText, OutcomesGiveTheDocument, SameViewsSameDocument};

/// An error of the frame is the outcome over every dataset.
pub fn frame_errors_decide()
    ensures { FrameErrorsDecide }
{}

/// Nothing of a dataset counts but its terms and the views of its nodes.
pub fn same_views_same_document()
    ensures { SameViewsSameDocument }
{}

/// A value of the type `Frame` has the document of what it means.
pub fn frame_gives_document_of_its_meaning()
    ensures { FrameGivesDocumentOfItsMeaning }
{}

/// A value of the type `Frame` that stands for a text has the document of the text.
pub fn frame_gives_document_of_its_text()
    ensures { FrameGivesDocumentOfItsText }
{}

/// Outcomes that a program gives for the terms of a dataset, in order, make the document of the
/// frame and the dataset.
pub fn outcomes_give_the_document()
    ensures { OutcomesGiveTheDocument }
{}

/// A worked value of the type `Frame`: the text that it stands for, and its document.
pub fn worked_frame()
    ensures { WorkedFrame }
{}
