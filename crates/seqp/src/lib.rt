// The five calls, in numbers: `seqp_c` hands them to C. Each gives the request's answer number and always writes its results: a
// result without a meaning is 0.
#![tactic(auto)]

ghost use Rattle.meaning.specs.Numbers.{checked, followed, judged, prompted, wrote};
ghost use Rattle.meaning.specs.Promises.{CheckPromise, FollowPromise, JudgePromise, PromptPromise, WritePromise};

use rows::{Row, number_of};

mod rows; // rows.rt: a refusal and a verdict as the request's numbers

// Judge: 0 to 7; the node that is named; the kind and the lowest code of a conflict, all codes that it shares, 0 to 63 as the bits of
// `low` and the others, less 64, as those of `high`, and how many they are; or 0.
pub fn seq_judge(
    file: &[u8],
    node: &mut u32,
    kind: &mut u32,
    code: &mut u32,
    low: &mut u64,
    high: &mut u64,
    count: &mut u32,
) -> u32
    ensures { JudgePromise file.now (judged result node.new kind.new code.new low.new high.new count.new) }
{
    *node = 0;
    *kind = 0;
    *code = 0;
    *low = 0;
    *high = 0;
    *count = 0;
    match judge::judge(file) {
        Ok(()) => 0,
        Err(refusal) => {
            let row = Row::from(refusal);
            // At most 511: a file has at most 512 nodes.
            *node = row.node as u32;
            *kind = row.kind;
            *code = row.code;
            *low = row.low;
            *high = row.high;
            *count = row.count;
            row.answer
        }
    }
}

// Follow: 0 to 8; the number of events taken, and 0 complete, 1 unfinished, 2 broken.
pub fn seq_follow(
    file: &[u8],
    state: &mut [u8],
    events: &[u8],
    taken: &mut u64,
    verdict: &mut u32,
) -> u32
    ensures { FollowPromise file.now state.old events.now (followed result taken.new verdict.new) state.new }
{
    *taken = 0;
    *verdict = 0;
    match follow::follow(file, state, events) {
        Ok(followed) => {
            *taken = followed.taken;
            *verdict = rows::verdict_number(followed.verdict);
            0
        }
        Err(refusal) => number_of(refusal),
    }
}

// Write a record: 0 to 7 or 9 to 11; the length of the record in bytes, or 0.
pub fn seq_write(file: &[u8], run: &[u8], space: &mut [u8], length: &mut u64) -> u32
    ensures { WritePromise file.now run.now space.old (wrote result length.new) space.new }
{
    *length = 0;
    match write::write(file, run, space) {
        Ok(bytes) => {
            *length = bytes;
            0
        }
        Err(refusal) => number_of(refusal),
    }
}

// Check a record: 0 to 6; 1 for yes, 0 for no.
pub fn seq_check(file: &[u8], bytes: &[u8], yes: &mut u32) -> u32
    ensures { CheckPromise file.now bytes.now (checked result yes.new) }
{
    *yes = 0;
    match record::check(file, bytes) {
        Ok(found) => {
            *yes = u32::from(found);
            0
        }
        Err(refusal) => number_of(refusal),
    }
}

// Prompt: 0 to 8; the codes to light: 0 to 63 as the bits of `low`, and the others, less 64, as those of `high`.
pub fn seq_prompt(file: &[u8], state: &[u8], low: &mut u64, high: &mut u64) -> u32
    ensures { PromptPromise file.now state.now (prompted result low.new high.new) }
{
    *low = 0;
    *high = 0;
    match prompt::prompt(file, state) {
        Ok(lit) => {
            *low = lit.low;
            *high = lit.high;
            0
        }
        Err(refusal) => number_of(refusal),
    }
}
