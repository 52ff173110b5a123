// The plan of a procedure: for each node what the way up from an event node needs.
#![tactic(auto)]

use link::Link;
use procedure::{MOST_NODES, Procedure};

pub mod link; // link.rt: what the plan says of a node
pub mod fill; // fill.rt: the plan, filled once a call

ghost use Rattle.std.specs.Prelude.{◌≡◌, ◌≤◌, ◌<◌, get_or};
ghost use Rattle.plan.specs.Link.{untold};
ghost use Rattle.plan.specs.Rising.{Rises};

// A procedure and the links of its nodes.
#[derive(Clone, Copy)]
pub struct Plan<'a> {
    pub procedure: &'a Procedure,
    pub links: &'a [Link; MOST_NODES],
    ghost some: { 1 ≤ procedure.now.count },
    ghost few: { procedure.now.count ≤ 512 },
    // From each node the links lead upward, to a part that begins no later, and to its counters.
    ghost rises: { Rises procedure.now.nodes procedure.now.starts links.now procedure.now.count },
}

// The link of node x.
fn link_of(links: &[Link; MOST_NODES], x: usize) -> Link
    requires { x < 512 }
    ensures { result ≡ get_or links.now x untold }
{
    links[x]
}

impl Plan<'_> {
    ghost use Rattle.std.specs.Prelude.{◌≡◌, ◌<◌};
    ghost use Rattle.plan.specs.Plan.{above_at, begins_of, rank_at};

    // The next node above x that matters on the way up; past the last node where there is none.
    pub fn above(&self, x: usize) -> usize
        requires { x < 512 }
        ensures value { result ≡ above_at self.now.links.now x }
        ensures upper_bound { result < 1024 }
    {
        usize::from(link_of(self.links, x).above)
    }

    // How many repeats stand below node x.
    pub fn rank(&self, x: usize) -> usize
        requires { x < 512 }
        ensures value { result ≡ rank_at self.now.links.now x }
        ensures upper_bound { result < 64 }
    {
        usize::from(link_of(self.links, x).rank)
    }

    // Whether the part of node y can begin with event node q.
    pub fn begins(&self, y: usize, q: usize) -> bool
        requires { y < 512 }
        ensures { result ≡ begins_of self.now.procedure.now.starts self.now.links.now y q }
    {
        usize::from(self.procedure.starts[y]) <= q
            && q <= y
            && y <= usize::from(link_of(self.links, q).begins)
    }
}
