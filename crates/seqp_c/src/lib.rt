// The archive for C: each of the five calls under its name, with its clauses.
#![tactic(auto)]

ghost use Rattle.meaning.specs.Numbers.{checked, followed, judged, prompted, wrote};
ghost use Rattle.meaning.specs.Promises.{CheckPromise, FollowPromise, JudgePromise, PromptPromise, WritePromise};

// `seqp::seq_judge`.
#[unsafe(no_mangle)]
pub extern "C" fn seq_judge(
    file: &[u8],
    node: &mut u32,
    kind: &mut u32,
    code: &mut u32,
    low: &mut u64,
    high: &mut u64,
    count: &mut u32,
) -> u32
    ensures { JudgePromise file.now (judged result node.new kind.new code.new low.new high.new count.new) }
{
    seqp::seq_judge(file, node, kind, code, low, high, count)
}

// `seqp::seq_follow`.
#[unsafe(no_mangle)]
pub extern "C" fn seq_follow(
    file: &[u8],
    state: &mut [u8],
    events: &[u8],
    taken: &mut u64,
    verdict: &mut u32,
) -> u32
    ensures { FollowPromise file.now state.old events.now (followed result taken.new verdict.new) state.new }
{
    seqp::seq_follow(file, state, events, taken, verdict)
}

// `seqp::seq_write`.
#[unsafe(no_mangle)]
pub extern "C" fn seq_write(file: &[u8], run: &[u8], space: &mut [u8], length: &mut u64) -> u32
    ensures { WritePromise file.now run.now space.old (wrote result length.new) space.new }
{
    seqp::seq_write(file, run, space, length)
}

// `seqp::seq_check`.
#[unsafe(no_mangle)]
pub extern "C" fn seq_check(file: &[u8], bytes: &[u8], yes: &mut u32) -> u32
    ensures { CheckPromise file.now bytes.now (checked result yes.new) }
{
    seqp::seq_check(file, bytes, yes)
}

// `seqp::seq_prompt`.
#[unsafe(no_mangle)]
pub extern "C" fn seq_prompt(file: &[u8], state: &[u8], low: &mut u64, high: &mut u64) -> u32
    ensures { PromptPromise file.now state.now (prompted result low.new high.new) }
{
    seqp::seq_prompt(file, state, low, high)
}
