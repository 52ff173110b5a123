// Refusals, and what the five calls answer: each gives a `Result` with a `Refusal`. `specs/Numbers.antt` has the request's numbers.
#![tactic(auto)]

// A set of codes as two words: codes 0 to 63 as the bits of `low`, and the others, less 64, as those of `high`.
#[derive(Clone, Copy, PartialEq, Eq)]
pub struct Words {
    pub low: u64,
    pub high: u64,
}

// The kinds of conflicts, in the order of their numbers from 1 on.
#[derive(Clone, Copy, PartialEq, Eq, PartialOrd, Ord)]
pub enum ConflictKind {
    // Both parts of a choice can begin with the code.
    Choice,
    // Both parts of a sequence can begin with it, and the left can be empty.
    EmptyLeft,
    // The left part of a sequence can go on with it, and the right can begin with it.
    AfterLeft,
    // A block of a repeat can go on with it, and the next can begin with it.
    Repeat,
}

// Why a call is refused: a case for each number from 1 on, in the order of the table.
#[derive(Clone, Copy, PartialEq, Eq)]
pub enum Refusal {
    // 1: the file is under 20 or over 8,204 bytes.
    Size,
    // 2: the four letters or the edition are wrong.
    Letters,
    // 3: n or the distance is wrong, the nodes are longer than the file allows, or the text is over 4,096 bytes.
    Measures,
    // 4: this node's record breaks the table, and no lower one does.
    Record(usize),
    // 5: this node breaks the postfix order, and no lower one does; or it is the root, and its part does not begin at node 0.
    Order(usize),
    // 6: this node is the 33rd repeat.
    Repeats(usize),
    // 7: the lowest conflict: its node, its kind, the lowest of its shared codes, all of them as a set, and how many they are.
    Conflict {
        node: usize,
        kind: ConflictKind,
        code: u32,
        shared: Words,
        count: u32,
    },
    // 8: the state is not 66 bytes, or no beginning of a word reaches it.
    Unreached,
    // 9: the run to be written is over 65,536 events.
    Length,
    // 10: the run to be written is not complete.
    Incomplete,
    // 11: the record is longer than the space lent.
    Room,
}

// How a run stands.
#[derive(Clone, Copy, PartialEq, Eq)]
pub enum Verdict {
    // All events were taken, and the run is a word.
    Complete,
    // All events were taken, and the run only begins a word.
    Unfinished,
    // An event did not continue the run.
    Broken,
}

// What Follow answers: so many events were taken, and so the run stands.
#[derive(Clone, Copy, PartialEq, Eq)]
pub struct Followed {
    pub taken: u64,
    pub verdict: Verdict,
}
