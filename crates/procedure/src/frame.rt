// The tests 1 to 3: the length of the file and its trailer.
ghost use Rattle.std.specs.Prelude.{◌≡◌, ◌≤◌, ◌<◌, length};
ghost use Rattle.meaning.specs.File.{Lettered, Measured, Sized, count};
ghost use Rattle.procedure.specs.Tests.{Decides};

use crate::MOST_NODES;

const LEAST_BYTES: usize = 20;

const MOST_BYTES: usize = 8204;

const MOST_TEXT: usize = 4096;

// The trailer's four letters, SEQP, as one number.
const LETTERS: u32 = 0x5051_4553;

const EDITION: u16 = 1;

// How many bytes the trailer has, and how far from the end of the file its numbers stand.
pub const TRAILER: usize = 12;

const COUNT_FROM_END: usize = 8;

const EDITION_FROM_END: usize = 6;

const DISTANCE_FROM_END: usize = 4;

// How many bytes a node record has.
pub const RECORD: usize = 8;

// Whether 1 does not apply.
pub fn sized(file: &[u8]) -> bool
    ensures { Decides (Sized file.now) result }
{
    (LEAST_BYTES..=MOST_BYTES).contains(&file.len())
}

// Whether 2 does not apply.
pub fn lettered(file: &[u8]) -> bool
    requires { 20 ≤ length file.now }
    ensures { Decides (Lettered file.now) result }
{
    numbers::four_at(file, file.len() - TRAILER) == LETTERS
        && numbers::two_at(file, file.len() - EDITION_FROM_END) == EDITION
}

// How many nodes the trailer says there are.
pub fn count_of(file: &[u8]) -> usize
    requires { 20 ≤ length file.now }
    ensures value { result ≡ count file.now }
    ensures upper_bound { result < 65536 }
{
    usize::from(numbers::two_at(file, file.len() - COUNT_FROM_END))
}

// Whether 3 does not apply.
pub fn measured(file: &[u8]) -> bool
    requires { 20 ≤ length file.now }
    ensures { Decides (Measured file.now) result }
{
    let n = count_of(file);
    let span = TRAILER + RECORD * n;
    (1..=MOST_NODES).contains(&n)
        && numbers::four_at(file, file.len() - DISTANCE_FROM_END) as usize == span
        && span <= file.len()
        && file.len() - span <= MOST_TEXT
}
