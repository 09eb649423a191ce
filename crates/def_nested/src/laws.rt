//! A numbered frame unfolds to one nested frame.
ghost use Rattle.def_nested.specs.Laws.{IsBuiltFromItsRow, IsMatchNonePastTheTable};

/// What a number of a table stands for is built from its map and from what larger numbers stand
/// for.
pub fn nested_is_built()
    ensures { IsBuiltFromItsRow }
{}

/// A number past the table stands for match-none.
pub fn nested_ends()
    ensures { IsMatchNonePastTheTable }
{}
