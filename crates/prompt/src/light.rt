// The codes to light: at the start first of the root, and otherwise the codes of the event nodes that can directly follow the node
// reached in the loosened procedure.
ghost use Rattle.std.specs.Prelude.{◌≡◌, List, ℕ, ◌+◌, ◌<◌};
ghost use Rattle.meaning.specs.Expr.{Expr};
ghost use Rattle.meaning.specs.File.{Admitted};
ghost use Rattle.meaning.specs.Promises.{Prompts};
ghost use Rattle.procedure.specs.Entry.{held, kind_of};
ghost use Rattle.meaning.specs.Sets.{First};
ghost use Rattle.procedure.specs.Opening.{IsOf};
ghost use Rattle.sets.specs.Tables.{TellsSets};
ghost use Rattle.states.specs.StateBytes.{place_of};
ghost use Rattle.prompt.specs.Near.{CodeNear, Coded, EventReached, LitAt};

use crate::near;
use codes::Codes;
use meaning::{Refusal, Words};
use plan::{Plan, link};
use procedure::node::Node;
use procedure::{MOST_NODES, Procedure};
use states::reached;

// The code of node q, where that is an event that can directly follow event node p; and else no code.
fn code_near(plan: &Plan, p: usize, q: usize) -> Codes
    requires coded { Coded plan.now.procedure.now }
    requires p_lt_n { p < plan.now.procedure.now.count }
    requires q_lt_n { q < plan.now.procedure.now.count }
    ensures { CodeNear plan.now p q result }
{
    let Node::Event(code) = plan.procedure.nodes[q] else {
        return Codes::none();
    };
    let follows = near::near(plan, p, q);
    if follows {
        Codes::one(u32::from(code))
    } else {
        Codes::none()
    }
}

// After event node p.
fn lit_after(plan: &Plan, p: usize) -> Codes
    requires coded { Coded plan.now.procedure.now }
    requires p_lt_n { p < plan.now.procedure.now.count }
    requires p_value { kind_of (held plan.now.procedure.now.nodes p) ≡ 1 }
    ensures { LitAt plan.now (p + 1) result }
{
    let mut lit = Codes::none();
    for q in 0..plan.procedure.count {
        lit = lit | code_near(plan, p, q);
    }
    lit
}

// After the event node reached, or at the start.
fn lit(plan: &Plan, firsts: &[Codes; MOST_NODES], reached: Option<usize>) -> Codes
    requires coded { Coded plan.now.procedure.now }
    requires tells_sets { TellsSets First (held plan.now.procedure.now.nodes) firsts.now plan.now.procedure.now.count }
    requires event { EventReached plan.now.procedure.now reached }
    ensures { LitAt plan.now (place_of reached) result }
{
    match reached {
        None => firsts[plan.procedure.count - 1],
        Some(p) => lit_after(plan, p),
    }
}

// The answer for an admitted procedure.
pub fn light(
    procedure: &Procedure,
    firsts: &[Codes; MOST_NODES],
    bytes: &[u8],
) -> Result<Words, Refusal>
    requires tells_sets { TellsSets First (held procedure.now.nodes) firsts.now procedure.now.count }
    requires tables { (e : Expr) × IsOf procedure.now e }
    ensures { (f : List ℕ) (e : Expr) → Admitted f e → IsOf procedure.now e → Prompts f bytes.now result }
{
    let Some(standing) = reached::read_state(procedure, bytes) else {
        return Err(Refusal::Unreached);
    };
    let mut links = [link::UNTOLD; MOST_NODES];
    let plan = Plan::fill(procedure, &mut links);
    Ok(Words::from(lit(&plan, firsts, standing.reached)))
}
