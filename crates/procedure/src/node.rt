// A node: what a record that keeps to the table says.
ghost use Rattle.std.specs.Prelude.{◌≡◌};
ghost use Rattle.meaning.specs.Node.{node};
ghost use Rattle.procedure.specs.Records.{NodeOf};
ghost use Rattle.procedure.specs.Entry.{BoundsWritten};
ghost use Rattle.procedure.specs.Tests.{Decides};

use codes::MOST_CODE;

const MOST_BOUND: u16 = 4096;

// The upper bound that is none, as it is written: an `Option` would make a node 10 bytes long and not 8, and the stack of Judge has no
// room for that. `Bounds` has the `Option`.
pub const NO_BOUND: u16 = 65535;

#[derive(Clone, Copy, PartialEq, Eq)]
pub enum Node {
    // No event.
    Empty,
    // The event with this code.
    Event(u8),
    // One of two parts, whose own nodes these are.
    Choice { left: u16, right: u16 },
    // Two parts, one after the other.
    Sequence { left: u16, right: u16 },
    // Blocks of the body, as many as the bounds allow; `upper` is NO_BOUND for no upper bound.
    Repeat { body: u16, lower: u16, upper: u16 },
}

// Whether a repeat may have these bounds.
fn bounds_written(lower: u16, upper: u16) -> bool
    ensures { Decides (BoundsWritten lower upper) result }
{
    lower <= MOST_BOUND
        && 1 <= upper
        && lower <= upper
        && (upper <= MOST_BOUND || upper == NO_BOUND)
}

// The node of a record: its kind, its code and its three fields; none where the record breaks the table.
pub fn node_of(kind: u8, code: u8, first: u16, second: u16, third: u16) -> Option<Node>
    ensures { NodeOf (node kind code first second third) result }
{
    match (kind, code, first, second, third) {
        (0, 0, 0, 0, 0) => Some(Node::Empty),
        (1, code, 0, 0, 0) if code <= MOST_CODE => Some(Node::Event(code)),
        (2, 0, left, right, 0) => Some(Node::Choice { left, right }),
        (3, 0, left, right, 0) => Some(Node::Sequence { left, right }),
        (4, 0, body, lower, upper) if bounds_written(lower, upper) => {
            Some(Node::Repeat { body, lower, upper })
        }
        _ => None,
    }
}
