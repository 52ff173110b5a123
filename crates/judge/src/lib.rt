// The judgement of a procedure file: admitted, or refused with 1 to 7.
#![tactic(auto, using(crate::proofs::Admissions::answered))]

ghost use Rattle.meaning.specs.Promises.{Judges};
ghost use Rattle.judge.specs.Admission.{Admits, Bars};

use codes::Codes;
use meaning::{Refusal, Words};
use procedure::{MOST_NODES, Procedure};
use sets::conflict::Conflict;

// The refusal of a procedure with this lowest conflict.
fn refusal_of(conflict: Conflict) -> Refusal
    ensures { Bars conflict result }
{
    Refusal::Conflict {
        node: conflict.node,
        kind: conflict.kind,
        code: conflict.code,
        shared: Words::from(conflict.shared),
        count: conflict.shared.count(),
    }
}

// The procedure becomes that of the file, and the table has first of each of its parts, where the file is admitted. Where it is
// refused, what they then have is not said.
pub fn admit(
    file: &[u8],
    procedure: &mut Procedure,
    firsts: &mut [Codes; MOST_NODES],
) -> Result<(), Refusal>
    ensures { Admits file.now procedure.new firsts.new result }
{
    procedure.read(file)?;
    match sets::lowest_conflict(procedure, firsts) {
        None => Ok(()),
        Some(conflict) => Err(refusal_of(conflict)),
    }
}

// Judge: admitted, or refused with 1 to 7.
pub fn judge(file: &[u8]) -> Result<(), Refusal>
    ensures { Judges file.now result }
{
    let mut procedure = Procedure::blank();
    let mut firsts = [Codes::none(); MOST_NODES];
    admit(file, &mut procedure, &mut firsts)
}
