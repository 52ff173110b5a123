// The test 5: the postfix order of the nodes, and where the part of each begins.
ghost use Rattle.std.specs.Prelude.{◌≡◌, ◌≤◌, ◌<◌};
ghost use Rattle.procedure.specs.Entry.{held};
ghost use Rattle.procedure.specs.Order.{FindsStarts, StartsAt};
ghost use Rattle.procedure.specs.Listing.{TellsStarts};

use crate::MOST_NODES;
use crate::node::Node;
use meaning::Refusal;

// Where the part of node i begins, from the starts of the parts below; none where the node is out of order.
fn start_of(nodes: &[Node; MOST_NODES], starts: &[u16; MOST_NODES], i: usize) -> Option<usize>
    requires i_bound { i < 512 }
    requires tells_starts { TellsStarts (held nodes.now) starts.now i }
    ensures { StartsAt (held nodes.now) i result }
{
    match nodes[i] {
        Node::Empty | Node::Event(_) => Some(i),
        Node::Repeat { body, .. } => {
            if i < 1 || usize::from(body) != i - 1 {
                return None;
            }
            Some(usize::from(starts[i - 1]))
        }
        Node::Choice { left, right } | Node::Sequence { left, right } => {
            if i < 1 || usize::from(right) != i - 1 {
                return None;
            }
            let before = starts[i - 1];
            if before < 1 || left != before - 1 {
                return None;
            }
            Some(usize::from(starts[usize::from(before - 1)]))
        }
    }
}

// Where the part of each of the first n nodes begins goes into the table. Refused is the lowest node that is out of order; or the last,
// where its part does not begin at node 0.
pub fn find_starts(
    nodes: &[Node; MOST_NODES],
    starts: &mut [u16; MOST_NODES],
    n: usize,
) -> Result<(), Refusal>
    requires { (1 ≤ n) × (n ≤ 512) }
    ensures { FindsStarts (held nodes.now) starts.new n result }
{
    for i in 0..n {
        let Some(start) = start_of(nodes, starts, i) else {
            return Err(Refusal::Order(i));
        };
        starts[i] = start as u16;
    }
    if 0 < starts[n - 1] {
        return Err(Refusal::Order(n - 1));
    }
    Ok(())
}
