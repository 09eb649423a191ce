//! What was learnt by asking is exact, and stays where no quad of a patch touches a question.
ghost use Rattle.lf_oracle.specs.Laws.{LearntIsExact, LearntStays};

/// What was learnt by asking is what the dataset itself gives.
pub fn learnt_is_exact<A>()
    ensures { LearntIsExact A }
{}

/// A patch none of whose lines touches a question that was asked leaves what was learnt.
pub fn learnt_stays<A>()
    ensures { LearntStays A }
{}
