//! Laws of compaction, pruning and documents (JSON-LD 1.1 API, section 6; JSON-LD 1.1 Framing,
//! section 4.5).
ghost use Rattle.def_documents.specs.Ordered.{CompactedIsOrdered};
ghost use Rattle.def_documents.specs.Laws.{CountsAddUp, FirstExcessDecides, FirstLimitDecides, ItemsWithinLimit, KeysAreOfEntries, KeysAscend, PruningKeepsItems, PruningKeepsOthers, PruningMayBeIdle, PruningRemovesOnce, RefusedAsConfused, TextWithinLimit};

/// The count of a label is the sum over the trees.
pub fn counts_add_up()
    ensures { CountsAddUp }
{}

/// Pruning removes only labels that are counted once: every other stands as often as before.
pub fn pruning_keeps_others()
    ensures { PruningKeepsOthers }
{}

/// Pruning removes each id whose label is counted once.
pub fn pruning_removes_once()
    ensures { PruningRemovesOnce }
{}

/// Where no label is counted once, pruning changes nothing.
pub fn pruning_may_be_idle()
    ensures { PruningMayBeIdle }
{}

/// Pruning keeps the number of items.
pub fn pruning_keeps_items()
    ensures { PruningKeepsItems }
{}

/// A document's only error is IRI confused with prefix, and it comes only where an id, type,
/// datatype or property of its trees is confused.
pub fn refused_as_confused()
    ensures { RefusedAsConfused }
{}

/// A document's text has at most 33,554,432 bytes.
pub fn text_within_limit()
    ensures { TextWithinLimit }
{}

/// The trees of a document have at most 262,144 items.
pub fn items_within_limit()
    ensures { ItemsWithinLimit }
{}

/// The first outcome that is a limit decides.
pub fn first_limit_decides()
    ensures { FirstLimitDecides }
{}

/// The first tree that takes the sum of items above the limit decides.
pub fn first_excess_decides()
    ensures { FirstExcessDecides }
{}

/// The keys of a map stand in byte order, each once.
pub fn keys_ascend()
    ensures { KeysAscend }
{}

/// The keys of a map are those of its entries.
pub fn keys_are_of_entries()
    ensures { KeysAreOfEntries }
{}

/// Each object of a compacted tree has its members in byte order of the keys, each key once.
pub fn compacted_is_ordered()
    ensures { CompactedIsOrdered }
{}
