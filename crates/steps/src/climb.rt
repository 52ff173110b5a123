// The way up from an event node: at each node that matters it turns towards another event node, goes on, or is stuck.
ghost use Rattle.std.specs.Prelude.{◌≡◌, ◌≤◌, ◌<◌};
ghost use Rattle.procedure.specs.Entry.{record_of};
ghost use Rattle.plan.specs.Plan.{above_at};
ghost use Rattle.steps.specs.Climb.{ClimbsBy, choose, look_by};

use plan::Plan;
use procedure::MOST_REPEATS;
use procedure::bounds::Bounds;
use procedure::node::Node;

// What the way does at a node.
#[derive(Clone, Copy, PartialEq, Eq)]
pub enum Look {
    // It turns here, towards the event node.
    Turns,
    // The part may end here, and the way goes on upward.
    On,
    // It does neither.
    Stops,
}

// Where the way leads.
#[derive(Clone, Copy, PartialEq, Eq)]
pub enum Turn {
    // It turns at this node.
    At(usize),
    // Nothing of the procedure need follow.
    Ends,
    // Something must follow, and the event node cannot.
    Stuck,
}

// What the way does where it may turn, and where the part may end.
fn choose(turns: bool, ends: bool) -> Look
    ensures { result ≡ choose turns ends }
{
    if turns {
        Look::Turns
    } else if ends {
        Look::On
    } else {
        Look::Stops
    }
}

// At node x.
fn look_at(plan: &Plan, counts: &[u16; MOST_REPEATS], x: usize, q: usize) -> Look
    requires le_x { 1 ≤ x }
    requires lt_n { x < plan.now.procedure.now.count }
    ensures { result ≡ look_by plan.now counts.now x q }
{
    // The node of the right part, or of the body.
    let y = x - 1;
    let null = plan.procedure.nulls[y];
    let begins = plan.begins(y, q);
    match plan.procedure.nodes[x] {
        Node::Repeat { lower, upper, .. } => {
            let bounds = Bounds::normal(lower, upper, null);
            let begun = usize::from(counts[plan.rank(x)]);
            choose(begins && bounds.allows(begun + 1), bounds.enough(begun))
        }
        _ => choose(begins, null),
    }
}

// From event node p towards event node q; with a q past the last node, towards no node.
pub fn climb(plan: &Plan, counts: &[u16; MOST_REPEATS], p: usize, q: usize) -> Turn
    requires { p < plan.now.procedure.now.count }
    ensures { ClimbsBy plan.now counts.now q (above_at plan.now.links.now p) result }
{
    // From link to link, which is no range.
    let mut x = plan.above(p);
    while x < plan.procedure.count {
        match look_at(plan, counts, x, q) {
            Look::Turns => return Turn::At(x),
            Look::Stops => return Turn::Stuck,
            Look::On => x = plan.above(x),
        }
    }
    Turn::Ends
}
