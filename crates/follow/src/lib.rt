// Runs against a procedure: from a state, with the events of a batch, to the state after those taken.
#![tactic(auto)]

ghost use Rattle.meaning.specs.Promises.{Follows};

use codes::Codes;
use meaning::{Followed, Refusal};
use procedure::{MOST_NODES, Procedure};

pub mod run; // run.rt: a run of events
mod batch; // batch.rt: the events of one call

// Follow: the number of events taken, and how the run stands; or refused with 1 to 8. A refusal leaves the state as it came.
pub fn follow(file: &[u8], state: &mut [u8], events: &[u8]) -> Result<Followed, Refusal>
    ensures { Follows file.now state.old events.now result state.new }
{
    let mut procedure = Procedure::blank();
    let mut firsts = [Codes::none(); MOST_NODES];
    judge::admit(file, &mut procedure, &mut firsts)?;
    batch::go_on(&procedure, state, events)
}
