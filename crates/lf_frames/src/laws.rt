//! What reading frames' texts decides of every text.
ghost use Rattle.lf_frames.specs.Laws.{AcceptsFrames, DocumentsAreScratch, ReadFramesGiveDocuments};

/// A text is accepted exactly where it states a JSON value that means a frame.
pub fn accepts_frames()
    ensures { AcceptsFrames }
{}

/// The document of an accepted text is the one computed from scratch.
pub fn documents_are_scratch()
    ensures { DocumentsAreScratch }
{}

/// A frame that was read from a text has the text's document.
pub fn read_frames_give_documents()
    ensures { ReadFramesGiveDocuments }
{}
