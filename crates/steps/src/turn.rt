// The counters after a turn: those of the part where it turns are left, and those of the part entered begun.
ghost use Rattle.std.specs.Prelude.{◌≡◌, ◌≤◌, ◌<◌};
ghost use Rattle.plan.specs.Plan.{rank_at, start_at};
ghost use Rattle.steps.specs.Counts.{Cleared, MarksBy, TurnedBy, marked, raised};

use plan::Plan;
use procedure::MOST_REPEATS;
use procedure::bounds::Bounds;
use procedure::node::Node;

// The counters of the repeats inside the part of node x become 0.
fn clear_part(plan: &Plan, counts: &mut [u16; MOST_REPEATS], x: usize)
    requires { x < plan.now.procedure.now.count }
    ensures { Cleared (rank_at plan.now.links.now (start_at plan.now.procedure.now.starts x)) (rank_at plan.now.links.now x) counts.old counts.new }
{
    let start = usize::from(plan.procedure.starts[x]);
    // No `fill` of a slice: the plan does not say that the one rank is no higher than the other.
    for rank in plan.rank(start)..plan.rank(x) {
        counts[rank] = 0;
    }
}

// Where node x is a repeat, its counter goes up by one more block, up to the largest number that it holds.
fn raise(plan: &Plan, counts: &mut [u16; MOST_REPEATS], x: usize)
    requires le_x { 1 ≤ x }
    requires lt_n { x < plan.now.procedure.now.count }
    ensures { counts.new ≡ raised plan.now.procedure.now.nodes plan.now.procedure.now.nulls plan.now.links.now x counts.old }
{
    if let Node::Repeat { lower, upper, .. } = plan.procedure.nodes[x] {
        let bounds = Bounds::normal(lower, upper, plan.procedure.nulls[x - 1]);
        let rank = plan.rank(x);
        counts[rank] = counts[rank].saturating_add(1).min(bounds.cap());
    }
}

// Where node y is a repeat, its counter becomes 1.
fn mark_at(plan: &Plan, counts: &mut [u16; MOST_REPEATS], y: usize)
    requires { y < plan.now.procedure.now.count }
    ensures { counts.new ≡ marked plan.now.procedure.now.nodes plan.now.links.now y counts.old }
{
    if let Node::Repeat { .. } = plan.procedure.nodes[y] {
        counts[plan.rank(y)] = 1;
    }
}

// The counter of each repeat around event node q and below node x becomes 1.
pub fn mark(plan: &Plan, counts: &mut [u16; MOST_REPEATS], x: usize, q: usize)
    requires le_n { x ≤ plan.now.procedure.now.count }
    requires q_bound { q < 512 }
    ensures { MarksBy plan.now x q counts.old counts.new }
{
    // From link to link, which is no range.
    let mut y = plan.above(q);
    while y < x {
        mark_at(plan, counts, y);
        y = plan.above(y);
    }
}

// The counters after the turn at node x towards event node q.
pub fn turn(plan: &Plan, counts: &mut [u16; MOST_REPEATS], x: usize, q: usize)
    requires le_x { 1 ≤ x }
    requires lt_n { x < plan.now.procedure.now.count }
    requires q_bound { q < 512 }
    ensures { TurnedBy plan.now x q counts.old counts.new }
{
    clear_part(plan, counts, x);
    raise(plan, counts, x);
    mark(plan, counts, x, q);
}
