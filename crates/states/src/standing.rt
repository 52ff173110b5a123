// Where a run stands, and the 66 bytes of a state that hold it.
use procedure::MOST_REPEATS;

pub const STATE_BYTES: usize = 66;

// The event node reached, or none at the start, and the counters of the repeats in rising node order.
#[derive(Clone, Copy, PartialEq, Eq)]
pub struct Standing {
    pub reached: Option<usize>,
    pub counts: [u16; MOST_REPEATS],
}

impl Standing {
    ghost use Rattle.std.specs.Prelude.{◌≡◌, ◌∷◌, ◌<◌, length};
    ghost use Rattle.meaning.specs.Bytes.{in_twos};
    ghost use Rattle.states.specs.StateBytes.{Decoded, place_of};

    // What the bytes hold: the place, which is 0 at the start or else 1 + the event node reached, and the counters.
    pub fn decode(bytes: &[u8]) -> Standing
        requires { length bytes.now ≡ 66 }
        ensures { Decoded bytes.now (place_of result.reached) result.counts }
    {
        let mut counts = [0; MOST_REPEATS];
        for (rank, count) in counts.iter_mut().enumerate() {
            *count = numbers::two_at(bytes, 2 * rank + 2);
        }
        Standing {
            reached: usize::from(numbers::two_at(bytes, 0)).checked_sub(1),
            counts,
        }
    }

    // The bytes come to hold the place and the counters.
    pub fn encode(&self, bytes: &mut [u8])
        requires bytes_len { length bytes.old ≡ 66 }
        requires place_bound { place_of self.now.reached < 65536 }
        ensures { bytes.new ≡ in_twos (place_of self.now.reached ∷ self.now.counts) }
    {
        let place = self.reached.map_or(0, |node| node + 1);
        numbers::put_two(bytes, 0, place as u64);
        for (rank, &count) in self.counts.iter().enumerate() {
            numbers::put_two(bytes, 2 * rank + 2, u64::from(count));
        }
    }
}
