// First and after of a node's part, and the node's own conflict, from what is known of its children.
ghost use Rattle.std.proofs.Math.Bool.{So};
ghost use Rattle.std.specs.Prelude.{◌↔◌, ℕ, ◌<◌};
ghost use Rattle.codes.specs.Codes.{Contains, limit};
ghost use Rattle.meaning.specs.Expr.{choice, sequence};
ghost use Rattle.meaning.specs.Node.{node};
ghost use Rattle.sets.specs.Sets.{Clashes, ClashesOver, EndsWith, Joins, OfLeaf, OverBody};

use crate::conflict::Conflict;
use codes::Codes;
use meaning::ConflictKind;
use procedure::bounds::Bounds;

// What is known of a part.
#[derive(Clone, Copy)]
pub struct PartSets {
    // Whether it has the empty word.
    pub null: bool,
    // The codes that begin its words.
    pub first: Codes,
    // The codes with which a word of it may go on where it might end.
    pub after: Codes,
}

// What is worked out of a node: first and after of its part. Whether it has the empty word is known from reading, so this is no `PartSets`.
#[derive(Clone, Copy)]
pub struct NodeSets {
    pub first: Codes,
    pub after: Codes,
}

// The set where `when` is true, and else no code.
fn only_if(when: bool, set: Codes) -> Codes
    ensures { (c : ℕ) → Contains result c ↔ (So when × Contains set c) }
{
    if when { set } else { Codes::none() }
}

// First of the right part of a sequence, where it may begin the sequence.
fn begins_right(l: PartSets, r: PartSets) -> Codes
    ensures { (c : ℕ) → Contains result c ↔ (So l.null × Contains r.first c) }
{
    only_if(l.null, r.first)
}

// After of a sequence.
#[tactic(auto, using(crate::proofs::Joining::after_right))]
fn after_sequence(l: PartSets, r: PartSets) -> Codes
    ensures { EndsWith l r result }
{
    if r.null {
        // First of the right part, where it may come after an event of the left.
        let follows = only_if(!l.first.is_empty(), r.first);
        return r.after | (l.after | follows);
    }
    // The right part must come, so it alone tells.
    r.after
}

impl NodeSets {
    // Of an empty node.
    #[tactic(auto, using(crate::proofs::Leaves::leaf_empty))]
    pub fn of_empty() -> NodeSets
        ensures { OfLeaf (node 0 0 0 0 0) result }
    {
        NodeSets {
            first: Codes::none(),
            after: Codes::none(),
        }
    }

    // Of the event with this code.
    #[tactic(auto, using(crate::proofs::Leaves::leaf_event))]
    pub fn of_event(code: u8) -> NodeSets
        requires { code < limit }
        ensures { OfLeaf (node 1 code 0 0 0) result }
    {
        NodeSets {
            first: Codes::one(u32::from(code)),
            after: Codes::none(),
        }
    }

    // Of a choice.
    #[tactic(auto, using(crate::proofs::Joining::joins_choice))]
    pub fn of_choice(l: PartSets, r: PartSets) -> NodeSets
        ensures { Joins choice l r result }
    {
        NodeSets {
            first: l.first | r.first,
            after: l.after | r.after,
        }
    }

    // Of a sequence.
    pub fn of_sequence(l: PartSets, r: PartSets) -> NodeSets
        ensures { Joins sequence l r result }
    {
        NodeSets {
            first: l.first | begins_right(l, r),
            after: after_sequence(l, r),
        }
    }

    // Of a repeat with these bounds as they are written.
    #[tactic(auto, using(crate::proofs::Joining::over_body), unfolding(crate::specs::Sets::OverBody))]
    pub fn of_repeat(lower: u16, upper: u16, b: PartSets) -> NodeSets
        ensures { OverBody lower upper b result }
    {
        // First of the body, where another block may follow or not.
        let may_follow = only_if(Bounds::normal(lower, upper, b.null).flexible(), b.first);
        NodeSets {
            first: b.first,
            after: b.after | may_follow,
        }
    }
}

impl Conflict {
    // Of the choice at node i.
    #[tactic(auto, using(crate::proofs::Clashing::clash_choice))]
    pub fn of_choice(i: usize, l: PartSets, r: PartSets) -> Option<Conflict>
        ensures { Clashes choice i l r result }
    {
        Conflict::between(i, ConflictKind::Choice, l.first, r.first)
    }

    // Of the sequence at node i.
    #[tactic(auto, using(crate::proofs::Clashing::clash_sequence))]
    pub fn of_sequence(i: usize, l: PartSets, r: PartSets) -> Option<Conflict>
        ensures { Clashes sequence i l r result }
    {
        let begins = begins_right(l, r);
        let at_start = Conflict::between(i, ConflictKind::EmptyLeft, l.first, begins);
        at_start.or_else(|| Conflict::between(i, ConflictKind::AfterLeft, l.after, r.first))
    }

    // Of the repeat at node i with this upper bound as it is written.
    #[tactic(auto, using(crate::proofs::Clashing::clash_repeat), unfolding(crate::specs::Sets::ClashesOver))]
    pub fn of_repeat(i: usize, upper: u16, b: PartSets) -> Option<Conflict>
        ensures { ClashesOver i upper b result }
    {
        // First of the body, where another block may follow.
        let follows = only_if(Bounds::normal(0, upper, b.null).again(), b.first);
        Conflict::between(i, ConflictKind::Repeat, b.after, follows)
    }
}
