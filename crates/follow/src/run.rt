// A run of events from where a run stands.
ghost use Rattle.std.specs.Prelude.{◌≡◌, ◌≤◌, ◌<◌, length};
ghost use Rattle.meaning.specs.Expr.{Expr};
ghost use Rattle.meaning.specs.Theory.Spots.{Spot, CanStop};
ghost use Rattle.meaning.specs.Theory.Runs.{VerdictAt};
ghost use Rattle.procedure.specs.Entry.{held, kind_of};
ghost use Rattle.procedure.specs.Tests.{Decides};
ghost use Rattle.plan.specs.Plan.{PlanOf};
ghost use Rattle.states.specs.StateBytes.{place_of};
ghost use Rattle.states.specs.Standing.{AtSpot, StandsAt};
ghost use Rattle.follow.specs.Run.{Tried, Nexted, RanTo, TellsCodes, told_code};

use codes::MOST_CODE;
use meaning::Verdict;
use plan::Plan;
use procedure::node::Node;
use procedure::{MOST_NODES, MOST_REPEATS};
use states::standing::Standing;

// In the table of the codes, for a node that is no event: past the largest code.
const NO_CODE: u8 = 255;

// From where the run stands to event node q. The counters change only where the answer is yes.
fn go_to(plan: &Plan, reached: Option<usize>, counts: &mut [u16; MOST_REPEATS], q: usize) -> bool
    requires place_bound { place_of reached ≤ plan.now.procedure.now.count }
    requires q_lt_n { q < plan.now.procedure.now.count }
    ensures { (e : Expr) (k : Spot e) → PlanOf plan.now e → kind_of (held plan.now.procedure.now.nodes q) ≡ 1 → AtSpot e k (place_of reached) counts.old → Tried e k q result counts.old counts.new }
{
    match reached {
        None => steps::start(plan, counts, q),
        Some(p) => steps::step(plan, counts, p, q),
    }
}

// What the table of the codes has for a node.
fn told_code(node: Node) -> u8
    ensures { result ≡ told_code node }
{
    match node {
        Node::Event(code) => code,
        _ => NO_CODE,
    }
}

// The table comes to have the code of each event node.
fn tell_codes(plan: &Plan, codes: &mut [u8; MOST_NODES])
    ensures { TellsCodes plan.now.procedure.now.nodes codes.new plan.now.procedure.now.count }
{
    for q in 0..plan.procedure.count {
        codes[q] = told_code(plan.procedure.nodes[q]);
    }
}

// By an event with the code, and whether the code continues. Where it does not, the run stands as it did. By the table of the codes one
// comparison passes over a node, where its kind and its code would take two.
fn next_by(plan: &Plan, codes: &[u8; MOST_NODES], standing: &mut Standing, code: u8) -> bool
    requires place_bound { place_of standing.old.reached ≤ plan.now.procedure.now.count }
    requires tells_codes { TellsCodes plan.now.procedure.now.nodes codes.now plan.now.procedure.now.count }
    ensures upper_bound { place_of standing.new.reached ≤ plan.now.procedure.now.count }
    ensures nexted { (e : Expr) (k : Spot e) → PlanOf plan.now e → StandsAt e k standing.old → Nexted e k code result standing.old standing.new }
{
    // No event node has such a code.
    if MOST_CODE < code {
        return false;
    }
    for q in 0..plan.procedure.count {
        if codes[q] == code && go_to(plan, standing.reached, &mut standing.counts, q) {
            standing.reached = Some(q);
            return true;
        }
    }
    false
}

// The same of one event alone.
pub fn next(plan: &Plan, standing: &mut Standing, code: u8) -> bool
    requires { place_of standing.old.reached ≤ plan.now.procedure.now.count }
    ensures upper_bound { place_of standing.new.reached ≤ plan.now.procedure.now.count }
    ensures nexted { (e : Expr) (k : Spot e) → PlanOf plan.now e → StandsAt e k standing.old → Nexted e k code result standing.old standing.new }
{
    let mut codes = [0; MOST_NODES];
    tell_codes(plan, &mut codes);
    next_by(plan, &codes, standing, code)
}

// With the events, up to the first that does not continue, and how many it takes.
pub fn run(plan: &Plan, standing: &mut Standing, events: &[u8]) -> usize
    requires { place_of standing.old.reached ≤ plan.now.procedure.now.count }
    ensures upper_bound { place_of standing.new.reached ≤ plan.now.procedure.now.count }
    ensures taken_in_bounds { result ≤ length events.now }
    ensures ran_to { (e : Expr) (k : Spot e) → PlanOf plan.now e → StandsAt e k standing.old → RanTo e k events.now result standing.new }
{
    let mut codes = [0; MOST_NODES];
    tell_codes(plan, &mut codes);
    for (taken, &code) in events.iter().enumerate() {
        if !next_by(plan, &codes, standing, code) {
            return taken;
        }
    }
    events.len()
}

// Whether the run that stands there is complete.
pub fn can_stop(plan: &Plan, standing: &Standing) -> bool
    requires { place_of standing.now.reached ≤ plan.now.procedure.now.count }
    ensures { (e : Expr) (k : Spot e) → PlanOf plan.now e → StandsAt e k standing.now → Decides (CanStop e k) result }
{
    match standing.reached {
        None => plan.procedure.nulls[plan.procedure.count - 1],
        Some(p) => steps::can_end(plan, &standing.counts, p),
    }
}

// How the run stands there that took some of so many events.
pub fn verdict(plan: &Plan, standing: &Standing, taken: usize, given: usize) -> Verdict
    requires place_bound { place_of standing.now.reached ≤ plan.now.procedure.now.count }
    requires taken_le_given { taken ≤ given }
    ensures { (e : Expr) (k : Spot e) → PlanOf plan.now e → StandsAt e k standing.now → VerdictAt e k taken given result }
{
    if taken < given {
        Verdict::Broken
    } else if can_stop(plan, standing) {
        Verdict::Complete
    } else {
        Verdict::Unfinished
    }
}
