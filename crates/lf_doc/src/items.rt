//! How many items a tree has, counted within a room.
ghost use Rattle.std.specs.Prelude.{◌≡◌};
ghost use Rattle.lf_model.specs.TreeBridge.{entries_data, entry_data, nodes_data, properties_data, reverses_data, tree_data};
ghost use Rattle.def_framing.specs.Items.{entries_items, entry_items, node_items, nodes_items, properties_items, reverses_items};
ghost use Rattle.lf_doc.specs.Room.{room_after};

use lf_model::{Tree, TreeList, TreePropList, TreeReverseList, TreeValue, TreeValueList};

// The room behind one item; none where there was no room.
fn one_item(room: u64) -> Option<u64>
    ensures { result ≡ room_after 1 room }
{
    if room == 0 { None } else { Some(room - 1) }
}

/// The room that is left when the items of a tree are taken off, or none where there are more items
/// than room. It looks at no more items than there is room.
#[cycle(counting)]
#[tactic(auto, unfolding(def_framing::specs::Items::node_items))]
pub fn tree_room(tree: &Tree, room: u64) -> Option<u64>
    ensures { result ≡ room_after (node_items (tree_data tree.now)) room }
{
    let room = one_item(room)?;
    let room = nodes_room(&tree.graph, room)?;
    let room = props_room(&tree.props, room)?;
    reverses_room(&tree.reverse, room)
}

// The room behind the items of nodes.
#[cycle(counting)]
#[tactic(auto, unfolding(def_framing::specs::Items::node_items))]
fn nodes_room(nodes: &TreeList, room: u64) -> Option<u64>
    ensures { result ≡ room_after (nodes_items (nodes_data nodes.now)) room }
{
    let mut room = room;
    for node in nodes.as_slice() {
        room = tree_room(node, room)?;
    }
    Some(room)
}

// The room behind the items of properties.
#[cycle(counting)]
#[tactic(auto, unfolding(def_framing::specs::Items::node_items))]
fn props_room(props: &TreePropList, room: u64) -> Option<u64>
    ensures { result ≡ room_after (properties_items (properties_data props.now)) room }
{
    let mut room = room;
    for prop in props.as_slice() {
        room = values_room(&prop.values, room)?;
    }
    Some(room)
}

// The room behind the items of reverse properties.
#[cycle(counting)]
#[tactic(auto, unfolding(def_framing::specs::Items::node_items))]
fn reverses_room(reverses: &TreeReverseList, room: u64) -> Option<u64>
    ensures { result ≡ room_after (reverses_items (reverses_data reverses.now)) room }
{
    let mut room = room;
    for reverse in reverses.as_slice() {
        room = nodes_room(&reverse.nodes, room)?;
    }
    Some(room)
}

// The room behind the items of a value.
#[cycle(counting)]
#[tactic(auto, unfolding(def_framing::specs::Items::node_items))]
fn value_room(value: &TreeValue, room: u64) -> Option<u64>
    ensures { result ≡ room_after (entry_items (entry_data value.now)) room }
{
    match value {
        TreeValue::Node(tree) => tree_room(tree, room),
        TreeValue::Literal(_) => one_item(room),
        TreeValue::List(values) => values_room(values, one_item(room)?),
        TreeValue::Fallback(_) => one_item(room),
        TreeValue::EmptyFallback => Some(room),
    }
}

// The room behind the items of values.
#[cycle(counting)]
#[tactic(auto, unfolding(def_framing::specs::Items::node_items))]
fn values_room(values: &TreeValueList, room: u64) -> Option<u64>
    ensures { result ≡ room_after (entries_items (entries_data values.now)) room }
{
    let mut room = room;
    for value in values.as_slice() {
        room = value_room(value, room)?;
    }
    Some(room)
}
