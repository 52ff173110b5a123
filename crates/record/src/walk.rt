// What a part takes of the items of a record. Items name nodes, so the walk never guesses.
ghost use Rattle.std.specs.Prelude.{◌≤◌, length};
ghost use Rattle.procedure.specs.Entry.{held};
ghost use Rattle.procedure.specs.Opening.{BoundsAt};
ghost use Rattle.record.specs.Walk.{EatsAt, Onward, PartAt, items_in};

use crate::items;
use procedure::Procedure;
use procedure::bounds::Bounds;
use procedure::node::Node;

// The place up to which the part of the nodes `start` to `node` takes the items from `place` on; none where no reading of the part stands
// there. The loop narrows the part; only the left of a sequence and the body of a repeat are walks of their own.
#[cycle(take_take_blocks)]
pub fn take(
    procedure: &Procedure,
    bytes: &[u8],
    start: usize,
    node: usize,
    place: usize,
) -> Option<usize>
    requires part { PartAt procedure.now start node }
    requires place_in_bounds { place ≤ length (items_in bytes.now) }
    ensures onward { Onward (items_in bytes.now) place result }
    ensures eats_at { EatsAt (held procedure.now.nodes) (items_in bytes.now) start node place result }
{
    let mut s = start;
    let mut i = node;
    let mut at = place;
    loop {
        let item = items::read_item(bytes, at);
        if !items::inside(item, s, i) {
            return procedure.nulls[i].then_some(at);
        }
        match procedure.nodes[i] {
            Node::Empty => return None,
            Node::Event(_) => return (item == Some(i)).then_some(at + 1),
            Node::Repeat { lower, upper, .. } => {
                let bounds = Bounds::normal(lower, upper, procedure.nulls[i - 1]);
                return take_blocks(procedure, bytes, s, i, bounds, at);
            }
            Node::Choice { left, .. } => {
                let left = usize::from(left);
                if items::inside(item, s, left) {
                    i = left;
                } else {
                    s = left + 1;
                    i -= 1;
                }
            }
            Node::Sequence { left, .. } => {
                let left = usize::from(left);
                at = take(procedure, bytes, s, left, at)?;
                s = left + 1;
                i -= 1;
            }
        }
    }
}

// The same of the repeat at node i with these bounds, whose part begins at node s: block after block.
#[cycle(take_take_blocks)]
fn take_blocks(
    procedure: &Procedure,
    bytes: &[u8],
    s: usize,
    i: usize,
    bounds: Bounds,
    place: usize,
) -> Option<usize>
    requires part { PartAt procedure.now s i }
    requires bounds_at { BoundsAt procedure.now i bounds }
    requires place_in_bounds { place ≤ length (items_in bytes.now) }
    ensures onward { Onward (items_in bytes.now) place result }
    ensures eats_at { EatsAt (held procedure.now.nodes) (items_in bytes.now) s i place result }
{
    let mut at = place;
    // Blocks, counted as they come: the record says how many, and no range does.
    let mut k: usize = 0;
    while items::read_item(bytes, at) == Some(i + items::OPENING) {
        let next = take(procedure, bytes, s, i - 1, at + 1)?;
        // A block holds at least one event.
        if next == at + 1 || items::read_item(bytes, next) != Some(i + items::CLOSING) {
            return None;
        }
        at = next + 1;
        k += 1;
    }
    bounds.may_have(k).then_some(at)
}
