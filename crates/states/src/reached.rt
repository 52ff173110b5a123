// Whether some run can stand where a state says: at the start, or just after an event with counters that are right for its node.
ghost use Rattle.std.specs.Prelude.{◌≡◌, ◌≤◌, ◌<◌};
ghost use Rattle.meaning.specs.Expr.{Expr};
ghost use Rattle.procedure.specs.Entry.{held, kind_of};
ghost use Rattle.procedure.specs.Opening.{IsOf};
ghost use Rattle.procedure.specs.Tests.{Decides};
ghost use Rattle.states.specs.Standing.{AllFit, CanStand, ClearFrom, FitsAt, ReadOf};
ghost use Rattle.states.specs.StateBytes.{place_of};

use crate::standing::{STATE_BYTES, Standing};
use procedure::bounds::Bounds;
use procedure::node::Node;
use procedure::{MOST_REPEATS, Procedure};

// Whether c is what the counter of the repeat at node y may be where event node p is reached.
fn fits(procedure: &Procedure, y: usize, p: usize, c: u16) -> bool
    requires y_in_bounds { (1 ≤ y) × (y < 512) }
    requires is_repeat { kind_of (held procedure.now.nodes y) ≡ 4 }
    ensures { Decides (FitsAt procedure.now.nodes procedure.now.starts procedure.now.nulls y p c) result }
{
    let Node::Repeat { lower, upper, .. } = procedure.nodes[y] else {
        unreachable!();
    };
    let around = usize::from(procedure.starts[y]) <= p && p < y;
    if !around {
        return c == 0;
    }
    let bounds = Bounds::normal(lower, upper, procedure.nulls[y - 1]);
    1 <= c && c <= bounds.cap()
}

// Whether it is so at each of the repeats.
fn all_fit(procedure: &Procedure, counts: &[u16; MOST_REPEATS], p: usize) -> bool
    requires { (e : Expr) × IsOf procedure.now e }
    ensures { Decides (AllFit procedure.now.nodes procedure.now.starts procedure.now.nulls procedure.now.repeats counts.now p procedure.now.repeat_count) result }
{
    // No chain with `all`: what `fits` asks for is known of each repeat only with its rank.
    for rank in 0..procedure.repeat_count {
        let repeat = usize::from(procedure.repeats[rank]);
        if !fits(procedure, repeat, p, counts[rank]) {
            return false;
        }
    }
    true
}

// Whether the counters from a rank on are 0. Past the last there is none.
fn clear_from(counts: &[u16; MOST_REPEATS], rank: usize) -> bool
    ensures { Decides (ClearFrom counts.now rank) result }
{
    if MOST_REPEATS < rank {
        return true;
    }
    counts[rank..].iter().all(|&count| count == 0)
}

// Whether a run of the procedure can stand there.
pub fn is_reached(procedure: &Procedure, standing: &Standing) -> bool
    requires { (e : Expr) × IsOf procedure.now e }
    ensures { (e : Expr) → IsOf procedure.now e → Decides (CanStand e (place_of standing.now.reached) standing.now.counts) result }
{
    let Some(p) = standing.reached else {
        return clear_from(&standing.counts, 0);
    };
    if procedure.count <= p {
        return false;
    }
    matches!(procedure.nodes[p], Node::Event(_))
        && all_fit(procedure, &standing.counts, p)
        && clear_from(&standing.counts, procedure.repeat_count)
}

// Where a run stands by the bytes of a state; none where there are not 66, or no run reaches the state.
pub fn read_state(procedure: &Procedure, bytes: &[u8]) -> Option<Standing>
    requires { (e : Expr) × IsOf procedure.now e }
    ensures { (e : Expr) → IsOf procedure.now e → ReadOf e bytes.now result }
{
    if bytes.len() != STATE_BYTES {
        return None;
    }
    let standing = Standing::decode(bytes);
    is_reached(procedure, &standing).then_some(standing)
}
