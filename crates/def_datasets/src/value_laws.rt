//! Laws of values: literals, references and the items of lists.
ghost use Rattle.def_datasets.specs.ValueLaws.{LiteralValues, NilValue, ReferenceValues, CellValues, ItemsInOrder, StepsSuffice};

/// The value of a literal is the literal.
#[tactic(auto, using(crate::proofs::ValueProofs::literal_values))]
pub fn literal_values()
    ensures { LiteralValues }
{}

/// The value of `rdf:nil` is the empty list.
#[tactic(auto, using(crate::proofs::ValueProofs::nil_value))]
pub fn nil_value()
    ensures { NilValue }
{}

/// The value of any other node that isn't a cell is the reference to it.
#[tactic(auto, using(crate::proofs::ValueProofs::reference_values))]
pub fn reference_values()
    ensures { ReferenceValues }
{}

/// The value of a cell is the list of the value of its item and then the items of its rest.
#[tactic(auto, using(crate::proofs::ValueProofs::cell_values))]
pub fn cell_values()
    ensures { CellValues }
{}

/// The items of a list come back in order.
#[tactic(auto, using(crate::proofs::ValueProofs::items_in_order))]
pub fn items_in_order()
    ensures { ItemsInOrder }
{}

/// The value is found within one step more than there are quads, and no further step changes it.
#[tactic(auto, using(crate::proofs::ValueProofs::steps_suffice))]
pub fn steps_suffice()
    ensures { StepsSuffice }
{}
