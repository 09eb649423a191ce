//! Laws of turns.
ghost use Rattle.def_turns.specs.TurnLaws.{GivenBackIsAllowed, NextIsFirst, NobodyWaits};

/// The frame that is next waits, and none that waits comes before it.
pub fn next_is_first()
    ensures { NextIsFirst }
{}

/// No frame is next exactly where none waits.
#[tactic(auto, using(crate::proofs::FirstProofs::nobody_waits))]
pub fn nobody_waits()
    ensures { NobodyWaits }
{}

/// What a board that is given back adds to a legal history keeps it legal.
#[tactic(auto, using(crate::proofs::GivenProofs::given_back_is_allowed))]
pub fn given_back_is_allowed()
    ensures { GivenBackIsAllowed }
{}
