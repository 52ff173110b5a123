// What a part lays of a run: the items of its reading, one after the other. In an admitted procedure the next code says where to go.
ghost use Rattle.std.specs.Prelude.{◌<◌};
ghost use Rattle.meaning.specs.Expr.{Within};
ghost use Rattle.procedure.specs.Bounds.{upper};
ghost use Rattle.procedure.specs.Tests.{Decides};
ghost use Rattle.write.specs.Lay.{Advances, Begins, BoundsHere, LaysAt, Leeway, Ready, count_of, run_of};

use codes::Codes;
use procedure::bounds::Bounds;
use procedure::node::Node;
use procedure::{MOST_NODES, Procedure};
use record::items;

// How far a walk is: the events up to a place of the run, as the items up to a place of the record.
#[derive(Clone, Copy)]
pub struct Places {
    pub event: usize,
    pub item: usize,
}

// A run, and what it is laid by: a procedure, with first of each of its parts.
#[derive(Clone, Copy)]
pub struct Source<'a> {
    pub procedure: &'a Procedure,
    pub firsts: &'a [Codes; MOST_NODES],
    pub run: &'a [u8],
}

impl Source<'_> {
    // Whether the next code of the run is in first of the part of node i.
    fn begins(&self, i: usize, at: usize) -> bool
        requires { i < 512 }
        ensures { Decides (Begins self.now i at) result }
    {
        at < self.run.len() && self.firsts[i].has(u32::from(self.run[at]))
    }

    // Whether another block of the repeat at node i begins: the next code is in first, and the repeat may have k blocks.
    fn another(&self, i: usize, bounds: Bounds, at: usize, k: usize) -> bool
        requires { i < 512 }
        ensures { Decides (Begins self.now i at × Within k (upper bounds)) result }
    {
        self.begins(i, at) && bounds.allows(k)
    }

    // The places up to which the part of node `node` lays the run, from these places on; none where no reading of the part begins there.
    // The loop narrows the part; only the left of a sequence and the body of a repeat are walks of their own.
    #[cycle(lay_lay_blocks)]
    pub fn lay(&self, space: &mut [u8], node: usize, from: Places) -> Option<Places>
        requires ready { Ready self.now }
        requires below { node < count_of self.now }
        requires leeway { Leeway (run_of self.now) node from }
        ensures advances { Advances (run_of self.now) node from result }
        ensures lays_at { LaysAt self.now space.old node from result space.new }
    {
        let mut i = node;
        let mut at = from;
        loop {
            if !self.begins(i, at.event) {
                return self.procedure.nulls[i].then_some(at);
            }
            match self.procedure.nodes[i] {
                Node::Empty | Node::Event(_) => {
                    items::put(space, at.item, i);
                    return Some(Places {
                        event: at.event + 1,
                        item: at.item + 1,
                    });
                }
                Node::Repeat { lower, upper, .. } => {
                    let bounds = Bounds::normal(lower, upper, self.procedure.nulls[i - 1]);
                    return self.lay_blocks(space, i, bounds, at);
                }
                Node::Choice { left, .. } => {
                    let left = usize::from(left);
                    if self.begins(left, at.event) {
                        i = left;
                    } else {
                        i -= 1;
                    }
                }
                Node::Sequence { left, .. } => {
                    at = self.lay(space, usize::from(left), at)?;
                    i -= 1;
                }
            }
        }
    }

    // The same of the repeat at node i with these bounds: block after block, as long as the next code begins one and the upper bound
    // allows it.
    #[cycle(lay_lay_blocks)]
    fn lay_blocks(&self, space: &mut [u8], i: usize, bounds: Bounds, from: Places) -> Option<Places>
        requires ready { Ready self.now }
        requires below { i < count_of self.now }
        requires leeway { Leeway (run_of self.now) i from }
        requires bounds_at { BoundsHere self.now i bounds }
        ensures advances { Advances (run_of self.now) i from result }
        ensures lays_at { LaysAt self.now space.old i from result space.new }
    {
        let mut at = from;
        // Blocks, counted as they come: the run says how many, and no range does.
        let mut k: usize = 0;
        loop {
            if !self.another(i, bounds, at.event, k + 1) {
                return bounds.may_have(k).then_some(at);
            }
            items::put(space, at.item, i + items::OPENING);
            let body = Places {
                event: at.event,
                item: at.item + 1,
            };
            let end = self.lay(space, i - 1, body)?;
            // A block holds at least one event.
            if end.event == at.event {
                return None;
            }
            items::put(space, end.item, i + items::CLOSING);
            at = Places {
                event: end.event,
                item: end.item + 1,
            };
            k += 1;
        }
    }
}
