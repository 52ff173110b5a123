// A link of the plan: what the way up from a node needs to know. A node takes one of 1024 numbers, and a rank one of 64.
ghost use Rattle.std.specs.Prelude.{◌<◌};

#[derive(Clone, Copy, PartialEq, Eq)]
pub struct Link {
    // The next node above that matters on the way up; past the last node where there is none, so that one comparison tells both that and
    // whether it may be looked at.
    pub above: u16,
    // The highest node whose part can begin with this one.
    pub begins: u16,
    // How many repeats stand below the node.
    pub rank: u16,
    ghost above_small: { above < 1024 },
    ghost begins_small: { begins < 1024 },
    ghost rank_small: { rank < 64 },
}

// A link that nothing was told yet.
pub const UNTOLD: Link = Link {
    above: 0,
    begins: 0,
    rank: 0,
};
