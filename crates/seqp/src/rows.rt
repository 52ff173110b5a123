// The rows of the request's tables: a refusal and a verdict as its numbers. Every case is named, so that a new one has to be told.
ghost use Rattle.std.specs.Prelude.{◌≡◌};
ghost use Rattle.meaning.specs.Conflict.{kind_number};
ghost use Rattle.meaning.specs.Numbers.{judged, plain, row, verdict_number};

use meaning::{ConflictKind, Refusal, Verdict};

// A row of the table of refusals: the number, and what Judge reports with it.
#[derive(Clone, Copy, PartialEq, Eq)]
pub struct Row {
    pub answer: u32,
    pub node: usize,
    pub kind: u32,
    pub code: u32,
    pub low: u64,
    pub high: u64,
    pub count: u32,
}

// A row with no conflict.
fn plain(answer: u32, node: usize) -> Row
    ensures { judged result.answer result.node result.kind result.code result.low result.high result.count ≡ plain answer node }
{
    Row {
        answer,
        node,
        kind: 0,
        code: 0,
        low: 0,
        high: 0,
        count: 0,
    }
}

fn kind_number(kind: ConflictKind) -> u32
    ensures { result ≡ kind_number kind }
{
    match kind {
        ConflictKind::Choice => 1,
        ConflictKind::EmptyLeft => 2,
        ConflictKind::AfterLeft => 3,
        ConflictKind::Repeat => 4,
    }
}

// The row of the request's table.
impl From<Refusal> for Row {
    ghost use Rattle.std.specs.Prelude.{◌≡◌};
    ghost use Rattle.meaning.specs.Numbers.{judged, row};

    ghost from_gives = { λ refusal r. judged r.answer r.node r.kind r.code r.low r.high r.count ≡ row refusal };

    fn from(refusal: Refusal) -> Row {
        match refusal {
            Refusal::Size => plain(1, 0),
            Refusal::Letters => plain(2, 0),
            Refusal::Measures => plain(3, 0),
            Refusal::Record(node) => plain(4, node),
            Refusal::Order(node) => plain(5, node),
            Refusal::Repeats(node) => plain(6, node),
            Refusal::Conflict {
                node,
                kind,
                code,
                shared,
                count,
            } => Row {
                answer: 7,
                node,
                kind: kind_number(kind),
                code,
                low: shared.low,
                high: shared.high,
                count,
            },
            Refusal::Unreached => plain(8, 0),
            Refusal::Length => plain(9, 0),
            Refusal::Incomplete => plain(10, 0),
            Refusal::Room => plain(11, 0),
        }
    }
}

// Its number alone.
pub fn number_of(refusal: Refusal) -> u32
    ensures { result ≡ (row refusal).answer }
{
    Row::from(refusal).answer
}

// How a run stands.
pub fn verdict_number(verdict: Verdict) -> u32
    ensures { result ≡ verdict_number verdict }
{
    match verdict {
        Verdict::Complete => 0,
        Verdict::Unfinished => 1,
        Verdict::Broken => 2,
    }
}
