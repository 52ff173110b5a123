// The test 6, on the number of repeats: one pass upward that lists them, and says which parts have the empty word.
ghost use Rattle.std.specs.Prelude.{◌≤◌};
ghost use Rattle.procedure.specs.Entry.{held};
ghost use Rattle.procedure.specs.Order.{OrderedBelow};
ghost use Rattle.procedure.specs.Repeats.{ListsRepeats};

use crate::node::Node;
use crate::{MOST_NODES, MOST_REPEATS, nulls};

// The repeats among the first n nodes go into the list, in rising order, and into the table which parts have the empty word. It gives
// how many repeats there are, or else the first past the most that there may be: the node alone, and in the caller's
// frame, since this is where the stack of Judge is deepest.
#[inline(always)]
pub fn list_repeats(
    nodes: &[Node; MOST_NODES],
    nulls: &mut [bool; MOST_NODES],
    repeats: &mut [u16; MOST_REPEATS],
    n: usize,
) -> Result<usize, usize>
    requires n_bound { n ≤ 512 }
    requires ordered_below { OrderedBelow (held nodes.now) n }
    ensures { ListsRepeats (held nodes.now) nulls.new repeats.new n result }
{
    let mut count = 0;
    for i in 0..n {
        nulls[i] = nulls::null_at(nodes, nulls, i);
        if let Node::Repeat { .. } = nodes[i] {
            if MOST_REPEATS <= count {
                return Err(i);
            }
            repeats[count] = i as u16;
            count += 1;
        }
    }
    Ok(count)
}
