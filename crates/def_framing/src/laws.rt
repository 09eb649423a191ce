//! Laws of matching and embedding (JSON-LD 1.1 Framing, sections 4.2.2 and 4.2.3).
ghost use Rattle.def_framing.specs.Laws.{WildAcceptsAll, NodeFrameAcceptsMatches, EmptyMatchesKeys, MatchedIsKey, PathIsLeftAlone, OnceIsOnce, NeverIsNever, EnteredGraphIsNew, CountsItsItems, TreeIsWithinLimit, RoomIsEnough, PresentIsRefused, TreeIsWithinDepth, SameViewsSameTree};

/// A wildcard accepts every value.
pub fn wild_accepts_all()
    ensures { WildAcceptsAll }
{}

/// A node frame accepts a reference where the node matches it, and a literal or a list never.
pub fn node_frame_accepts_matches()
    ensures { NodeFrameAcceptsMatches }
{}

/// A frame without entries matches every key of a graph, and nothing else.
pub fn empty_matches_keys()
    ensures { EmptyMatchesKeys }
{}

/// What a frame matches is a key of the graph.
pub fn matched_is_key()
    ensures { MatchedIsKey }
{}

/// A node on the path is output as a reference, unless it is embedded free.
pub fn path_is_left_alone()
    ensures { PathIsLeftAlone }
{}

/// With `@once` a node that the tree has embedded is output as a reference, unless it is embedded
/// free.
pub fn once_is_once()
    ensures { OnceIsOnce }
{}

/// With `@never` every node is output as a reference, unless it is embedded free.
pub fn never_is_never()
    ensures { NeverIsNever }
{}

/// No node of a graph that is entered is on the path, so that none is embedded again free.
pub fn entered_graph_is_new()
    ensures { EnteredGraphIsNew }
{}

/// The count rises by the items of the output, and never past the limit.
pub fn counts_its_items()
    ensures { CountsItsItems }
{}

/// A tree has at most 65,536 items.
pub fn tree_is_within_limit()
    ensures { TreeIsWithinLimit }
{}

/// Where the depth is no limit, more room on the path changes nothing.
pub fn room_is_enough()
    ensures { RoomIsEnough }
{}

/// A node that has a property with match-none is refused, whatever else the frame says.
pub fn present_is_refused()
    ensures { PresentIsRefused }
{}

/// A tree nests at most 256 nodes and a reference.
pub fn tree_is_within_depth()
    ensures { TreeIsWithinDepth }
{}

/// Nothing of a dataset counts but the views of its nodes.
pub fn same_views_same_tree()
    ensures { SameViewsSameTree }
{}
