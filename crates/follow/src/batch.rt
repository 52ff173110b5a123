// A batch of events: from the state given to the state after those taken.
ghost use Rattle.meaning.specs.Expr.{Expr};
ghost use Rattle.procedure.specs.Opening.{IsOf};
ghost use Rattle.follow.specs.Batch.{Went};

use crate::run;
use meaning::{Followed, Refusal};
use plan::{Plan, link};
use procedure::{MOST_NODES, Procedure};
use states::reached;

// The answer for an admitted procedure.
pub fn go_on(procedure: &Procedure, bytes: &mut [u8], events: &[u8]) -> Result<Followed, Refusal>
    requires { (e : Expr) × IsOf procedure.now e }
    ensures { (e : Expr) → IsOf procedure.now e → Went e bytes.old events.now result bytes.new }
{
    let mut standing = reached::read_state(procedure, bytes).ok_or(Refusal::Unreached)?;
    let mut links = [link::UNTOLD; MOST_NODES];
    let plan = Plan::fill(procedure, &mut links);
    let taken = run::run(&plan, &mut standing, events);
    let verdict = run::verdict(&plan, &standing, taken, events.len());
    standing.encode(bytes);
    Ok(Followed {
        taken: taken as u64,
        verdict,
    })
}
