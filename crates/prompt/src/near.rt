// Which event nodes can directly follow one another in the loosened procedure: the way up from an event node, without counters.
ghost use Rattle.std.specs.Prelude.{◌≡◌, ◌≤◌, ◌<◌};
ghost use Rattle.procedure.specs.Entry.{held, kind_of, record_of};
ghost use Rattle.prompt.specs.Near.{may_turn, turns_at, passes_at, TellsNear};

use plan::Plan;
use procedure::Procedure;
use procedure::bounds::Bounds;
use procedure::node::Node;

// Whether the way may turn at the node: at a repeat only where it may have one more block.
fn may_turn(node: Node) -> bool
    ensures { result ≡ may_turn (record_of node) }
{
    match node {
        Node::Repeat { lower, upper, .. } => Bounds::normal(lower, upper, false).again(),
        _ => true,
    }
}

// Whether the way turns at node x towards event node q: into one more block of a repeat, or into the right part of a sequence.
fn turns_at(plan: &Plan, x: usize, q: usize) -> bool
    requires le_x { 1 ≤ x }
    requires x_bound { x < 512 }
    ensures { result ≡ turns_at plan.now x q }
{
    plan.begins(x - 1, q) && may_turn(plan.procedure.nodes[x])
}

// Whether the way goes on above node x: past a repeat, or past a sequence whose right part may be empty.
fn passes_at(procedure: &Procedure, x: usize) -> bool
    requires le_x { 1 ≤ x }
    requires x_bound { x < 512 }
    ensures { result ≡ passes_at procedure.now x }
{
    matches!(procedure.nodes[x], Node::Repeat { .. }) || procedure.nulls[x - 1]
}

// Whether event node q can directly follow event node p in some reading of the loosened procedure.
pub fn near(plan: &Plan, p: usize, q: usize) -> bool
    requires p_lt_n { p < plan.now.procedure.now.count }
    requires q_value { kind_of (held plan.now.procedure.now.nodes q) ≡ 1 }
    ensures { TellsNear plan.now p q result }
{
    // From link to link, which is no range; without counters, of which the way of `steps` speaks at every node.
    let mut x = plan.above(p);
    while x < plan.procedure.count {
        if turns_at(plan, x, q) {
            return true;
        }
        if !passes_at(plan.procedure, x) {
            return false;
        }
        x = plan.above(x);
    }
    false
}
