//! What answers of desks decide.
ghost use Rattle.lf_desk.specs.AnswerLaws.{AcceptsAllowedPatches, AcceptsAllowedFrames, SameTextAgain};

/// A commit is accepted exactly where the history allows it.
#[tactic(auto, using(crate::proofs::PatchAnswers::accepts_allowed_patches))]
pub fn accepts_allowed_patches()
    ensures { AcceptsAllowedPatches }
{}

/// A registration is accepted as new exactly where the history allows it.
pub fn accepts_allowed_frames()
    ensures { AcceptsAllowedFrames }
{}

/// A registration is answered false exactly where the text is live under the name.
#[tactic(auto, using(crate::proofs::FrameAnswers::same_text_again))]
pub fn same_text_again()
    ensures { SameTextAgain }
{}
