// Sets of codes. A contract says which codes are in the result (`specs/Codes.antt`).
#![tactic(auto)]

ghost use Rattle.std.specs.Prelude.{IsTrue, IsFalse, ◌↔◌, ◌⊎◌, ◌≡◌, ℕ, ◌<◌};
ghost use Rattle.meaning.specs.Properties.{CountBelow};
ghost use Rattle.codes.specs.Codes.{Contains, LowestIn, Shared, limit};

use meaning::Words;
use std::ops::{BitAnd, BitOr};

// The largest code.
pub const MOST_CODE: u8 = 127;

// The bits of a word.
const BITS: u32 = 64;

// A set of codes: codes 0 to 63 are the bits of the low word, and the others, less 64, those of the high word.
#[derive(Clone, Copy, PartialEq, Eq)]
pub struct Codes {
    pub low: u64,
    pub high: u64,
}

impl Codes {
    // The set with no code.
    pub fn none() -> Codes
        ensures { (c : ℕ) → ¬ Contains result c }
    {
        Codes { low: 0, high: 0 }
    }

    // The set with this code alone.
    pub fn one(code: u32) -> Codes
        requires { code < limit }
        ensures { (c : ℕ) → Contains result c ↔ (c ≡ code) }
    {
        if code < BITS {
            Codes {
                low: 1 << code,
                high: 0,
            }
        } else {
            Codes {
                low: 0,
                high: 1 << (code - BITS),
            }
        }
    }

    // Whether this code, which may be any number, is in the set.
    pub fn has(self, code: u32) -> bool
        ensures { IsTrue result ↔ Contains self code }
    {
        if code < BITS {
            (self.low >> code) % 2 == 1
        } else if code - BITS < BITS {
            (self.high >> (code - BITS)) % 2 == 1
        } else {
            false
        }
    }

    // The lowest code of the set, where it has one.
    pub fn lowest(self) -> Option<u32>
        ensures { LowestIn self result }
    {
        if self.low != 0 {
            Some(self.low.trailing_zeros())
        } else if self.high != 0 {
            Some(BITS + self.high.trailing_zeros())
        } else {
            None
        }
    }

    // How many codes the set has.
    pub fn count(self) -> u32
        ensures { CountBelow (Contains self) limit result }
    {
        self.low.count_ones() + self.high.count_ones()
    }

    // Whether the set has no code.
    pub fn is_empty(self) -> bool
        ensures none { IsTrue result ↔ ((c : ℕ) → ¬ Contains self c) }
        ensures some { IsFalse result ↔ ((c : ℕ) × Contains self c) }
    {
        self.low == 0 && self.high == 0
    }
}

// The codes of either set.
impl BitOr for Codes {
    type Output = Codes;

    ghost bitor_gives = { λ a b both. (c : ℕ) → Contains both c ↔ (Contains a c ⊎ Contains b c) };

    fn bitor(self, other: Codes) -> Codes {
        Codes {
            low: self.low | other.low,
            high: self.high | other.high,
        }
    }
}

// The codes that are in both sets.
impl BitAnd for Codes {
    type Output = Codes;

    ghost bitand_gives = { λ a b both. (c : ℕ) → Contains both c ↔ Shared a b c };

    fn bitand(self, other: Codes) -> Codes {
        Codes {
            low: self.low & other.low,
            high: self.high & other.high,
        }
    }
}

impl From<Codes> for Words {
    ghost from_gives = { λ s words. (words.low ≡ s.low) × (words.high ≡ s.high) };

    fn from(set: Codes) -> Words {
        Words {
            low: set.low,
            high: set.high,
        }
    }
}
