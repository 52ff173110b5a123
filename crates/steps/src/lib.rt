// The step from where a run stands to an event node.
#![tactic(auto)]

ghost use Rattle.std.specs.Prelude.{◌≡◌, Bool, List, ◌<◌};
ghost use Rattle.meaning.specs.Expr.{Expr};
ghost use Rattle.meaning.specs.Theory.Places.{Place, node_of};
ghost use Rattle.procedure.specs.Entry.{held, kind_of};
ghost use Rattle.plan.specs.Plan.{PlanOf, Plans};
ghost use Rattle.meaning.specs.Theory.Counts.{Marked, Unmarked};
ghost use Rattle.steps.specs.Step.{Stepped, Started, Ended};

use climb::Turn;
use plan::Plan;
use procedure::MOST_REPEATS;

pub mod climb; // climb.rt: the way up from an event node
mod turn; // turn.rt: the counters after a turn

// From event node `at` to event node q. The counters change only where the answer is yes.
pub fn step(plan: &Plan, counts: &mut [u16; MOST_REPEATS], at: usize, q: usize) -> bool
    requires at_lt_n { at < plan.now.procedure.now.count }
    requires q_lt_n { q < plan.now.procedure.now.count }
    ensures { (e : Expr) (p : Place e) → PlanOf plan.now e → kind_of (held plan.now.procedure.now.nodes q) ≡ 1 → node_of 0 e p ≡ at → Marked counts.old e p → Stepped e p q result counts.old counts.new }
{
    match climb::climb(plan, counts, at, q) {
        Turn::At(x) => {
            turn::turn(plan, counts, x, q);
            true
        }
        Turn::Ends | Turn::Stuck => false,
    }
}

// From the start to event node q. The counters change only where the answer is yes.
pub fn start(plan: &Plan, counts: &mut [u16; MOST_REPEATS], q: usize) -> bool
    requires { q < plan.now.procedure.now.count }
    ensures { (nulls : List Bool) (e : Expr) → Plans plan.now.procedure.now.nodes plan.now.procedure.now.starts nulls plan.now.links.now plan.now.procedure.now.count e → kind_of (held plan.now.procedure.now.nodes q) ≡ 1 → Unmarked counts.old → Started e q result counts.old counts.new }
{
    let n = plan.procedure.count;
    let begins = plan.begins(n - 1, q);
    if begins {
        turn::mark(plan, counts, n, q);
    }
    begins
}

// Whether the run that stands at event node `at` may end there.
pub fn can_end(plan: &Plan, counts: &[u16; MOST_REPEATS], at: usize) -> bool
    requires { at < plan.now.procedure.now.count }
    ensures { (e : Expr) (p : Place e) → PlanOf plan.now e → node_of 0 e p ≡ at → Marked counts.now e p → Ended plan.now.procedure.now.count e p result }
{
    climb::climb(plan, counts, at, plan.procedure.count) == Turn::Ends
}
