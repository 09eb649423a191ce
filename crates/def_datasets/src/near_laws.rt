//! Nearness is the least set of terms that its rules give.
ghost use Rattle.def_datasets.specs.NearLaws.{NearIsLeast, NearOfNear};

/// The near terms are in each set that holds the term itself and that the steps of nearness don't
/// leave.
#[tactic(auto, using(crate::proofs::NearProofs::near_is_least))]
pub fn near_is_least()
    ensures { NearIsLeast }
{}

/// What is near a near term is near.
#[tactic(auto, using(crate::proofs::NearProofs::near_of_near))]
pub fn near_of_near()
    ensures { NearOfNear }
{}
