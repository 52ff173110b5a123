// Numbers in bytes, little-endian: of two bytes and of four, read and put.
#![tactic(auto)]

ghost use Rattle.std.specs.Prelude.{◌≡◌, ◌+◌, ◌<◌, length};
ghost use Rattle.meaning.specs.Bytes.{two_at, four_at};
ghost use Rattle.numbers.specs.Put.{put_two, put_four};

// How many numbers two bytes tell apart.
const TWO_BYTES: u64 = 65536;

// The number in the two bytes from `at` on.
pub fn two_at(bytes: &[u8], at: usize) -> u16
    requires { at + 1 < length bytes.now }
    ensures { result ≡ two_at bytes.now at }
{
    u16::from_le_bytes([bytes[at], bytes[at + 1]])
}

// The number in the four bytes from `at` on.
pub fn four_at(bytes: &[u8], at: usize) -> u32
    requires { at + 3 < length bytes.now }
    ensures { result ≡ four_at bytes.now at }
{
    u32::from_le_bytes([bytes[at], bytes[at + 1], bytes[at + 2], bytes[at + 3]])
}

// The lowest two bytes of the number, which may be any, go into the two bytes from `at` on.
pub fn put_two(bytes: &mut [u8], at: usize, x: u64)
    requires { at + 1 < length bytes.old }
    ensures { bytes.new ≡ put_two bytes.old at x }
{
    let [low, high, ..] = x.to_le_bytes();
    bytes[at] = low;
    bytes[at + 1] = high;
}

// The lowest four bytes of the number go into the four bytes from `at` on.
pub fn put_four(bytes: &mut [u8], at: usize, x: u64)
    requires { at + 3 < length bytes.old }
    ensures { bytes.new ≡ put_four bytes.old at x }
{
    put_two(bytes, at, x);
    put_two(bytes, at + 2, x / TWO_BYTES);
}
