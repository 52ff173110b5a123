// Bytes in hexadecimal.
ghost use Rattle.std.specs.Prelude.{◌≤◌, ◌<◌, length};

use std::io::{self, Print};

// How many bytes are spelled at a time.
const PIECE: usize = 2048;

fn digit(d: u8) -> u8
    requires { d < 16 }
{
    if d < 10 { b'0' + d } else { b'a' - 10 + d }
}

// The bytes' digits go to the start of the text.
fn spell(bytes: &[u8], text: &mut [u8; 2 * PIECE]) {
    for (digits, byte) in text.chunks_exact_mut(2).zip(bytes) {
        digits[0] = digit(byte / 16);
        digits[1] = digit(byte % 16);
    }
}

fn print_piece(rt: &impl Print, piece: &[u8]) -> io::Result<()>
    requires { length piece.now ≤ 2048 }
{
    let mut text = [0; 2 * PIECE];
    spell(piece, &mut text);
    rt.write_all(&text[..2 * piece.len()])
}

// Prints the bytes, or a dash where there are none.
pub fn print_hex(rt: &impl Print, bytes: &[u8]) -> io::Result<()> {
    if bytes.is_empty() {
        return rt.write_all(b"-");
    }
    for piece in bytes.chunks(PIECE) {
        print_piece(rt, piece)?;
    }
    Ok(())
}
