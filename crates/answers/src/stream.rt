// Letters and slices from standard input: a slice is 4 bytes of length, little-endian, and its bytes.
ghost use Rattle.std.specs.Counts.{IsPrefixLen};

use input::read_full;
use std::io::Read;

// The next byte, where one is left.
pub fn read_letter(input: &mut impl Read) -> Option<u8> {
    let mut letter = [0u8; 1];
    (read_full(input, &mut letter) == 1).then_some(letter[0])
}

// Reads a slice to the start of the buffer, as far as the input has it, and gives its length: 0 where the length is not there or is more
// than the buffer has room for, and then none of it is skipped.
pub fn read_slice(input: &mut impl Read, buf: &mut [u8]) -> usize
    ensures { IsPrefixLen result buf.new }
{
    let mut head = [0u8; 4];
    let told = read_full(input, &mut head);
    let length = u32::from_le_bytes(head) as usize;
    if told < 4 || length > buf.len() {
        return 0;
    }
    read_full(input, &mut buf[..length])
}
