// First and after of every part, and the lowest conflict: one pass upward, each node from its children.
#![tactic(auto)]

ghost use Rattle.std.specs.Prelude.{◌≤◌, ◌<◌, length};
ghost use Rattle.meaning.specs.Conflict.{ConflictAt};
ghost use Rattle.meaning.specs.Expr.{Expr};
ghost use Rattle.meaning.specs.Sets.{First, After};
ghost use Rattle.procedure.specs.Entry.{held};
ghost use Rattle.procedure.specs.Listing.{Listing, OneOf, TellsNulls};
ghost use Rattle.sets.specs.Lowest.{Lowest};
ghost use Rattle.sets.specs.Sets.{ClashAt, WorkedAt, ReadAt};
ghost use Rattle.sets.specs.Tables.{TellsSets};

use codes::Codes;
use conflict::Conflict;
use joins::{NodeSets, PartSets};
use procedure::node::Node;
use procedure::{MOST_NODES, Procedure};

pub mod conflict; // conflict.rt: a conflict of two sets
pub mod joins; // joins.rt: the sets of a node, from its children's

// A procedure, and first and after of its parts as far as they are known.
#[derive(Clone, Copy)]
struct Known<'a> {
    procedure: &'a Procedure,
    firsts: &'a [Codes],
    afters: &'a [Codes],
}

impl Known<'_> {
    // What is known of the part of node j.
    fn part(&self, j: usize) -> PartSets
        requires j_bound { j < 512 }
        requires j_in_bounds { (j < length self.now.firsts.now) × (j < length self.now.afters.now) }
        ensures { ReadAt self.now.procedure.now.nulls self.now.firsts.now self.now.afters.now j result }
    {
        PartSets {
            null: self.procedure.nulls[j],
            first: self.firsts[j],
            after: self.afters[j],
        }
    }

    // What is worked out of node i, where the nodes below it are known.
    #[tactic(auto, using(crate::proofs::Standing::by_kind))]
    fn node(&self, i: usize) -> NodeSets
        requires i_in_bounds { (i ≤ length self.now.firsts.now) × (i ≤ length self.now.afters.now) }
        requires one_of { OneOf self.now.procedure.now.nodes i }
        requires tells_nulls { TellsNulls (held self.now.procedure.now.nodes) self.now.procedure.now.nulls i }
        requires tells_firsts { TellsSets First (held self.now.procedure.now.nodes) self.now.firsts.now i }
        requires tells_afters { TellsSets After (held self.now.procedure.now.nodes) self.now.afters.now i }
        ensures { WorkedAt (held self.now.procedure.now.nodes) i result }
    {
        match self.procedure.nodes[i] {
            Node::Empty => NodeSets::of_empty(),
            Node::Event(code) => NodeSets::of_event(code),
            Node::Choice { left, .. } => {
                NodeSets::of_choice(self.part(usize::from(left)), self.part(i - 1))
            }
            Node::Sequence { left, .. } => {
                NodeSets::of_sequence(self.part(usize::from(left)), self.part(i - 1))
            }
            Node::Repeat { lower, upper, .. } => {
                NodeSets::of_repeat(lower, upper, self.part(i - 1))
            }
        }
    }

    // The lowest conflict of node i itself, where the nodes below it are known. Apart from `node`, since a conflict moved along with the sets
    // of every node takes more than half as many instructions again.
    #[tactic(auto, using(crate::proofs::Standing::by_kind))]
    fn conflict(&self, i: usize) -> Option<Conflict>
        requires i_in_bounds { (i ≤ length self.now.firsts.now) × (i ≤ length self.now.afters.now) }
        requires one_of { OneOf self.now.procedure.now.nodes i }
        requires tells_nulls { TellsNulls (held self.now.procedure.now.nodes) self.now.procedure.now.nulls i }
        requires tells_firsts { TellsSets First (held self.now.procedure.now.nodes) self.now.firsts.now i }
        requires tells_afters { TellsSets After (held self.now.procedure.now.nodes) self.now.afters.now i }
        ensures { ClashAt (held self.now.procedure.now.nodes) i result }
    {
        match self.procedure.nodes[i] {
            Node::Empty | Node::Event(_) => None,
            Node::Choice { left, .. } => {
                Conflict::of_choice(i, self.part(usize::from(left)), self.part(i - 1))
            }
            Node::Sequence { left, .. } => {
                Conflict::of_sequence(i, self.part(usize::from(left)), self.part(i - 1))
            }
            Node::Repeat { upper, .. } => Conflict::of_repeat(i, upper, self.part(i - 1)),
        }
    }
}

// The tables come to have first and after of the parts of the procedure. What is handed out is the lowest conflict: the first that is
// met, since a node comes after those below it.
fn fill_sets(procedure: &Procedure, firsts: &mut [Codes], afters: &mut [Codes]) -> Option<Conflict>
    requires n_in_bounds { (procedure.now.count ≤ length firsts.old) × (procedure.now.count ≤ length afters.old) }
    requires listing { (e : Expr) × Listing procedure.now.nodes procedure.now.count e }
    requires tells_nulls { TellsNulls (held procedure.now.nodes) procedure.now.nulls procedure.now.count }
    ensures tells_firsts { TellsSets First (held procedure.now.nodes) firsts.new procedure.now.count }
    ensures tells_afters { TellsSets After (held procedure.now.nodes) afters.new procedure.now.count }
    ensures lowest { (e : Expr) → Listing procedure.now.nodes procedure.now.count e → Lowest (ConflictAt 0 e) result }
{
    let mut found = None;
    for i in 0..procedure.count {
        let known = Known {
            procedure,
            firsts,
            afters,
        };
        let own = known.node(i);
        // At a node without a conflict, which most are, nothing is moved.
        if let Some(conflict) = known.conflict(i) {
            found = found.or(Some(conflict));
        }
        firsts[i] = own.first;
        afters[i] = own.after;
    }
    found
}

// The lowest conflict. The table comes to have first of the parts of the procedure; after of the parts is not kept.
pub fn lowest_conflict(procedure: &Procedure, firsts: &mut [Codes]) -> Option<Conflict>
    requires n_in_bounds { procedure.now.count ≤ length firsts.old }
    requires listing { (e : Expr) × Listing procedure.now.nodes procedure.now.count e }
    requires tells_nulls { TellsNulls (held procedure.now.nodes) procedure.now.nulls procedure.now.count }
    ensures tells_sets { TellsSets First (held procedure.now.nodes) firsts.new procedure.now.count }
    ensures lowest { (e : Expr) → Listing procedure.now.nodes procedure.now.count e → Lowest (ConflictAt 0 e) result }
{
    let mut afters = [Codes::none(); MOST_NODES];
    fill_sets(procedure, firsts, &mut afters)
}
