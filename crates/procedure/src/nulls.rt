// Whether a part has the empty word.
ghost use Rattle.std.specs.Prelude.{◌<◌};
ghost use Rattle.meaning.specs.Node.{InOrder};
ghost use Rattle.procedure.specs.Entry.{held};
ghost use Rattle.procedure.specs.Listing.{NullAt, TellsNulls};

use crate::MOST_NODES;
use crate::node::Node;

// Whether the part of node i has the empty word, from what is known of the parts below.
pub fn null_at(nodes: &[Node; MOST_NODES], nulls: &[bool; MOST_NODES], i: usize) -> bool
    requires i_bound { i < 512 }
    requires in_order { InOrder (held nodes.now) i }
    requires tells_nulls { TellsNulls (held nodes.now) nulls.now i }
    ensures { NullAt (held nodes.now) i result }
{
    match nodes[i] {
        Node::Empty => true,
        Node::Event(_) => false,
        Node::Choice { left, .. } => nulls[usize::from(left)] || nulls[i - 1],
        Node::Sequence { left, .. } => nulls[usize::from(left)] && nulls[i - 1],
        Node::Repeat { lower, .. } => lower == 0 || nulls[i - 1],
    }
}
