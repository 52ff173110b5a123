// Records written: a run that is complete, as the items of its one reading.
#![tactic(auto)]

ghost use Rattle.std.specs.Prelude.{List, ℕ};
ghost use Rattle.meaning.specs.Expr.{Expr};
ghost use Rattle.meaning.specs.File.{Admitted};
ghost use Rattle.meaning.specs.Promises.{Writes};
ghost use Rattle.write.specs.Lay.{Lists, Ready, run_of};

use codes::Codes;
use lay::{Places, Source};
use meaning::Refusal;
use procedure::{MOST_NODES, Procedure};

mod lay; // lay.rt: what a part lays of a run

// The longest run that is written.
const LONGEST: usize = 65536;

// Where a walk begins.
const START: Places = Places { event: 0, item: 0 };

// The answer for an admitted procedure. The run is laid twice: first into a space where no item fits, which measures the record, and then,
// where there is room, into the space lent.
fn write_run(source: &Source, space: &mut [u8]) -> Result<u64, Refusal>
    requires { Ready source.now }
    ensures { (f : List ℕ) (e : Expr) → Admitted f e → Lists source.now e → Writes f (run_of source.now) space.old result space.new }
{
    let events = source.run.len();
    if LONGEST < events {
        return Err(Refusal::Length);
    }
    let root = source.procedure.count - 1;
    let end = source
        .lay(&mut [0], root, START)
        .ok_or(Refusal::Incomplete)?;
    if end.event != events {
        return Err(Refusal::Incomplete);
    }
    let bytes = 2 * end.item;
    if space.len() < bytes {
        return Err(Refusal::Room);
    }
    source.lay(space, root, START);
    Ok(bytes as u64)
}

// Write: the length of the record in bytes; or refused with 1 to 7 or 9 to 11. A refusal leaves the space as it came.
pub fn write(file: &[u8], run: &[u8], space: &mut [u8]) -> Result<u64, Refusal>
    ensures { Writes file.now run.now space.old result space.new }
{
    let mut procedure = Procedure::blank();
    let mut firsts = [Codes::none(); MOST_NODES];
    judge::admit(file, &mut procedure, &mut firsts)?;
    let source = Source {
        procedure: &procedure,
        firsts: &firsts,
        run,
    };
    write_run(&source, space)
}
