//! Laws of questions: a quad that doesn't touch one leaves its answer.
ghost use Rattle.def_datasets.specs.QuestionLaws.{UntouchedAnswers, UntouchedByPatch, TouchingQuadsDecide, AnswersReply, TermsInOrder, MembersInOrder, TermsStandInQuads};

/// Where no quad that is in exactly one of two datasets touches a question, both answer it alike.
#[tactic(auto, using(crate::proofs::QuestionProofs::untouched_answers))]
pub fn untouched_answers()
    ensures { UntouchedAnswers }
{}

/// A patch none of whose lines touches a question leaves its answer.
#[tactic(auto, using(crate::proofs::QuestionProofs::untouched_by_patch))]
pub fn untouched_by_patch()
    ensures { UntouchedByPatch }
{}

/// Only the quads that touch a question count for its answer.
#[tactic(auto, using(crate::proofs::QuestionProofs::touching_quads_decide))]
pub fn touching_quads_decide()
    ensures { TouchingQuadsDecide }
{}

/// The answers of a dataset, as functions, give its answer to each question.
#[tactic(auto, using(crate::proofs::QuestionProofs::answers_reply))]
pub fn answers_reply()
    ensures { AnswersReply }
{}

/// The terms of a dataset stand each once, in order of their ids.
#[tactic(auto, using(crate::proofs::QuestionProofs::terms_in_order))]
pub fn terms_in_order()
    ensures { TermsInOrder }
{}

/// The nodes of a graph stand each once, in order of their ids.
#[tactic(auto, using(crate::proofs::QuestionProofs::members_in_order))]
pub fn members_in_order()
    ensures { MembersInOrder }
{}

/// The terms of a dataset are the IRIs and blank nodes that stand in one of its quads.
#[tactic(auto, using(crate::proofs::QuestionProofs::terms_stand_in_quads))]
pub fn terms_stand_in_quads()
    ensures { TermsStandInQuads }
{}
