// A repeat's bounds: how many blocks it may have, and how far its counter counts.
ghost use Rattle.std.specs.Prelude.{◌≡◌, ◌≤◌, ◌+◌};
ghost use Rattle.meaning.specs.Expr.{Within};
ghost use Rattle.meaning.specs.Node.{bound};
ghost use Rattle.meaning.specs.Normal.{low};
ghost use Rattle.meaning.specs.Sets.{Flexible};
ghost use Rattle.meaning.specs.Theory.Counts.{most};
ghost use Rattle.procedure.specs.Tests.{Decides};

use crate::node::NO_BOUND;

// The bounds in normal form.
#[derive(Clone, Copy, PartialEq, Eq)]
pub struct Bounds {
    // So many blocks are enough.
    pub least: u16,
    // There may be so many, where there is an upper bound.
    pub most: Option<u16>,
}

impl Bounds {
    ghost use Rattle.procedure.specs.Bounds.{Normal, upper};

    // Of bounds as they are written. `null` says whether the body has the empty word: then no block need come.
    pub fn normal(lower: u16, upper: u16, null: bool) -> Bounds
        ensures { Normal (low null lower) (bound upper) result }
    {
        Bounds {
            least: if null { 0 } else { lower },
            most: if upper == NO_BOUND { None } else { Some(upper) },
        }
    }

    // Whether the repeat may have k blocks, for its upper bound.
    pub fn allows(self, k: usize) -> bool
        ensures { Decides (Within k (upper self)) result }
    {
        match self.most {
            Some(most) => k <= usize::from(most),
            None => true,
        }
    }

    // Whether k blocks are enough.
    pub fn enough(self, k: usize) -> bool
        ensures { Decides (self.least ≤ k) result }
    {
        usize::from(self.least) <= k
    }

    // Whether the repeat may have k blocks, for both its bounds.
    pub fn may_have(self, k: usize) -> bool
        ensures { Decides ((self.least ≤ k) × Within k (upper self)) result }
    {
        self.enough(k) && self.allows(k)
    }

    // Whether the repeat may have a second block.
    pub fn again(self) -> bool
        ensures { Decides (Within 2 (upper self)) result }
    {
        self.allows(2)
    }

    // Whether the repeat may stop or go on after a block.
    pub fn flexible(self) -> bool
        ensures { Decides (Flexible self.least (upper self)) result }
    {
        self.again() && self.allows(usize::from(self.least) + 1)
    }

    // The largest number that the repeat's counter holds: the upper bound; with none, the larger of 1 and the least.
    pub fn cap(self) -> u16
        ensures { result ≡ most self.least (upper self) }
    {
        self.most.unwrap_or(self.least.max(1))
    }
}
