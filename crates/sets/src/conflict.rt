// A conflict: its node and its kind, and all the codes that two sets share.
ghost use Rattle.std.specs.Prelude.{ℕ};
ghost use Rattle.meaning.specs.Conflict.{kind_number};
ghost use Rattle.sets.specs.Lowest.{Lowest, LowestBy, SharedAt};

use codes::Codes;
use meaning::ConflictKind;

// A conflict. Its kind is one of the four, or whatever else a caller tells kinds by.
#[derive(Clone, Copy, PartialEq, Eq)]
pub struct Conflict<K = ConflictKind> {
    pub node: usize,
    pub kind: K,
    // The lowest of the codes that are shared.
    pub code: u32,
    pub shared: Codes,
}

impl<K: Drop> Conflict<K> {
    // The conflict of this node and kind, where the two sets share a code, however kinds are numbered.
    pub fn shared_at(node: usize, kind: K, a: Codes, b: Codes) -> Option<Conflict<K>>
        ensures { (number : K → ℕ) → LowestBy number (SharedAt node (number kind) a b) result }
    {
        let shared = a & b;
        let code = shared.lowest()?;
        Some(Conflict {
            node,
            kind,
            code,
            shared,
        })
    }
}

impl Conflict {
    // That of one of the four kinds.
    pub fn between(node: usize, kind: ConflictKind, a: Codes, b: Codes) -> Option<Conflict>
        ensures { Lowest (SharedAt node (kind_number kind) a b) result }
    {
        Conflict::shared_at(node, kind, a, b)
    }
}
