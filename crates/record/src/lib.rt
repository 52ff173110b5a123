// Records: the items of a reading as bytes, taken one by one.
#![tactic(auto)]

ghost use Rattle.meaning.specs.Expr.{Expr};
ghost use Rattle.meaning.specs.Promises.{Checks};
ghost use Rattle.procedure.specs.Entry.{held};
ghost use Rattle.procedure.specs.Listing.{Listing, TellsNulls};
ghost use Rattle.record.specs.Walk.{RecordOf};

use meaning::Refusal;
use procedure::Procedure;

pub mod items; // items.rt: the items of a record, by their places
pub mod walk; // walk.rt: what a part takes of the items

// Whether the bytes are the record of a reading of the procedure.
fn is_record(procedure: &Procedure, bytes: &[u8]) -> bool
    requires listing { (e : Expr) × Listing procedure.now.nodes procedure.now.count e }
    requires tells_nulls { TellsNulls (held procedure.now.nodes) procedure.now.nulls procedure.now.count }
    ensures { RecordOf procedure.now.nodes procedure.now.count bytes.now result }
{
    bytes.len() % 2 == 0
        && walk::take(procedure, bytes, 0, procedure.count - 1, 0) == Some(bytes.len() / 2)
}

// Check: whether the bytes are the record of a reading; or refused with 1 to 6. A conflict does not matter here.
pub fn check(file: &[u8], bytes: &[u8]) -> Result<bool, Refusal>
    ensures { Checks file.now bytes.now result }
{
    let mut procedure = Procedure::blank();
    procedure.read(file)?;
    Ok(is_record(&procedure, bytes))
}
