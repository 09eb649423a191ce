//! Laws of list cells: the least such nodes, each used once.
ghost use Rattle.def_datasets.specs.CellLaws.{ProperNodes, ProperNodesAreLeast, CellNodes, CellsAreLeast, RoundsSuffice, CellsAreProper, CellsAreUsedOnce};

/// A proper node is one that is shaped and whose rest is `rdf:nil` or proper.
#[tactic(auto, using(crate::proofs::CellProofs::proper_nodes))]
pub fn proper_nodes()
    ensures { ProperNodes }
{}

/// The proper nodes lie in every set of which this holds in one direction: following the rests from
/// them ends.
pub fn proper_nodes_are_least()
    ensures { ProperNodesAreLeast }
{}

/// A cell is a proper node whose user isn't proper or is a cell.
#[tactic(auto, using(crate::proofs::CellProofs::cell_nodes))]
pub fn cell_nodes()
    ensures { CellNodes }
{}

/// The cells lie in every set of which this holds in one direction: going back from them ends.
pub fn cells_are_least()
    ensures { CellsAreLeast }
{}

/// After as many rounds as there are quads, no further round adds a proper node or a cell.
#[tactic(auto, using(crate::proofs::CellProofs::rounds_suffice))]
pub fn rounds_suffice()
    ensures { RoundsSuffice }
{}

/// Each cell is proper.
#[tactic(auto, using(crate::proofs::CellProofs::cells_are_proper))]
pub fn cells_are_proper()
    ensures { CellsAreProper }
{}

/// Each cell is used once in all graphs, by a quad of its own.
#[tactic(auto, using(crate::proofs::CellProofs::cells_are_used_once))]
pub fn cells_are_used_once()
    ensures { CellsAreUsedOnce }
{}
