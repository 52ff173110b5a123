// Input read into a buffer.
#![tactic(auto)]

ghost use Rattle.std.specs.Counts.{IsPrefixLen};
ghost use Rattle.std.specs.Io.KnownBytes.{Consumes};
ghost use Rattle.std.specs.Prelude.{take};

use std::io::Read;

// Reads until the buffer is full, the input ends or a read fails, and gives how many bytes now begin the buffer: those that the input
// had next, and has no more.
pub fn read_full<R: Read>(input: &mut R, buf: &mut [u8]) -> usize
    ensures counted { IsPrefixLen result buf.new }
    ensures bytes { Consumes (R.remaining input.old) (R.remaining input.new) (take result buf.new) }
{
    // How far a read comes is known only after it, and no method of std ends without an error where a read fails.
    let mut done = 0;
    while done < buf.len() {
        match input.read(&mut buf[done..]) {
            Ok(0) | Err(_) => break,
            Ok(count) => done += count,
        }
    }
    done
}
