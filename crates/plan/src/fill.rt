// The plan of a procedure, filled once a call: downward from the root, each node tells its children what stands above them.
ghost use Rattle.std.specs.Prelude.{◌≡◌, List, ℕ, ◌≤◌, ◌<◌};
ghost use Rattle.meaning.specs.Expr.{Expr};
ghost use Rattle.meaning.specs.Node.{is_repeat, repeats_below};
ghost use Rattle.procedure.specs.Entry.{held, record_of};
ghost use Rattle.procedure.specs.Listing.{Listing, OneOf};
ghost use Rattle.procedure.specs.Opening.{IsOf};
ghost use Rattle.plan.specs.Plan.{PlanOf};
ghost use Rattle.plan.specs.Filling.{PlansBy, TablesBy, down, link_with, tell};

use crate::Plan;
use crate::link::Link;
use procedure::node::Node;
use procedure::{MOST_NODES, Procedure};

// What stands above the root.
const TOP: u16 = 512;

// 1 for a repeat, else 0.
fn is_repeat(node: Node) -> usize
    ensures value { result ≡ is_repeat (record_of node) }
    ensures upper_bound { result < 2 }
{
    usize::from(matches!(node, Node::Repeat { .. }))
}

// Node c is told what stands above it.
fn tell(links: &mut [Link; MOST_NODES], c: usize, above: u16, begins: u16)
    requires c_bound { c < 512 }
    requires above_bound { above < 1024 }
    requires begins_bound { begins < 1024 }
    ensures { links.new ≡ tell links.old c above begins }
{
    links[c] = Link {
        above,
        begins,
        rank: 0,
    };
}

// Node i tells its children, if it has any.
fn link_at(procedure: &Procedure, links: &mut [Link; MOST_NODES], i: usize)
    requires { OneOf procedure.now.nodes i }
    ensures { links.new ≡ link_with (held procedure.now.nodes i) procedure.now.nulls links.old i }
{
    let Link { above, begins, .. } = links[i];
    match procedure.nodes[i] {
        Node::Empty | Node::Event(_) => {}
        Node::Choice { left, .. } => {
            tell(links, usize::from(left), above, begins);
            tell(links, i - 1, above, begins);
        }
        Node::Sequence { left, .. } => {
            let left = usize::from(left);
            // The right part begins as much as the sequence, where the left part may be empty; else itself.
            let right = if procedure.nulls[left] {
                begins
            } else {
                (i - 1) as u16
            };
            tell(links, left, i as u16, begins);
            tell(links, i - 1, above, right);
        }
        Node::Repeat { .. } => tell(links, i - 1, i as u16, begins),
    }
}

// Downward from the last node: each node gets its rank and tells its children.
fn fill_down(procedure: &Procedure, links: &mut [Link; MOST_NODES])
    requires listing { (e : Expr) × Listing procedure.now.nodes procedure.now.count e }
    requires counted { procedure.now.repeat_count ≡ repeats_below (held procedure.now.nodes) procedure.now.count }
    requires few { procedure.now.repeat_count ≤ 32 }
    ensures { links.new ≡ down procedure.now.nodes procedure.now.nulls links.old procedure.now.count }
{
    let mut rank = procedure.repeat_count;
    for i in (0..procedure.count).rev() {
        rank -= is_repeat(procedure.nodes[i]);
        links[i].rank = rank as u16;
        link_at(procedure, links, i);
    }
}

// The links become those of the procedure's plan, whatever its tables of starts and repeats are.
pub fn fill_links(procedure: &Procedure, links: &mut [Link; MOST_NODES])
    requires { (starts : List ℕ) × (repeats : List ℕ) × (e : Expr) × TablesBy procedure.now starts repeats e }
    ensures { (starts : List ℕ) (repeats : List ℕ) (e : Expr) → TablesBy procedure.now starts repeats e → PlansBy procedure.now starts links.new e }
{
    let root = procedure.count - 1;
    tell(links, root, TOP, root as u16);
    fill_down(procedure, links);
}

impl<'a> Plan<'a> {
    // The plan of the procedure, by the links, which are filled.
    pub fn fill(procedure: &'a Procedure, links: &'a mut [Link; MOST_NODES]) -> Plan<'a>
        requires { (e : Expr) × IsOf procedure.now e }
        ensures same { result.procedure.now ≡ procedure.now }
        ensures plans { (e : Expr) → IsOf procedure.now e → PlanOf result e }
    {
        fill_links(procedure, links);
        Plan { procedure, links }
    }
}
