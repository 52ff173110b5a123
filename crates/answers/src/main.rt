// Answers a stream of calls from standard input, a line for each. Results are filled with junk before a call.
#![tactic(auto)]

mod hex; // hex.rt: bytes in hexadecimal
mod stream; // stream.rt: letters and slices from standard input

use hex::print_hex;
use std::io::{self, Print, Read};
use stream::{read_letter, read_slice};

// The longest slice.
const MOST: usize = 1048576;

const JUNK: u32 = 0xdead_beef;

const WIDE_JUNK: u64 = 0xdead_beef_dead_beef;

// Room for the slices of a call.
#[derive(Drop)]
struct Room {
    first: [u8; MOST],
    second: [u8; MOST],
    third: [u8; MOST],
}

fn answer_judge(rt: &impl Print, input: &mut impl Read, room: &mut Room) -> io::Result<()> {
    let file = read_slice(input, &mut room.first);
    let mut node = JUNK;
    let mut kind = JUNK;
    let mut code = JUNK;
    let mut low = WIDE_JUNK;
    let mut high = WIDE_JUNK;
    let mut count = JUNK;
    let answer = seqp::seq_judge(
        &room.first[..file],
        &mut node,
        &mut kind,
        &mut code,
        &mut low,
        &mut high,
        &mut count,
    );
    println!(rt; "J {answer} {node} {kind} {code} {low} {high} {count}")
}

fn answer_follow(rt: &impl Print, input: &mut impl Read, room: &mut Room) -> io::Result<()> {
    let file = read_slice(input, &mut room.first);
    let state = &mut room.second[..];
    let held = read_slice(input, state);
    let events = read_slice(input, &mut room.third);
    let mut taken = WIDE_JUNK;
    let mut verdict = JUNK;
    let answer = seqp::seq_follow(
        &room.first[..file],
        &mut state[..held],
        &room.third[..events],
        &mut taken,
        &mut verdict,
    );
    print!(rt; "F {answer} {taken} {verdict} ")?;
    print_hex(rt, &state[..held])?;
    println!(rt)
}

fn answer_write(rt: &impl Print, input: &mut impl Read, room: &mut Room) -> io::Result<()> {
    let file = read_slice(input, &mut room.first);
    let run = read_slice(input, &mut room.second);
    let space = &mut room.third[..];
    let held = read_slice(input, space);
    let mut length = WIDE_JUNK;
    let answer = seqp::seq_write(
        &room.first[..file],
        &room.second[..run],
        &mut space[..held],
        &mut length,
    );
    print!(rt; "W {answer} {length} ")?;
    print_hex(rt, &space[..held])?;
    println!(rt)
}

fn answer_check(rt: &impl Print, input: &mut impl Read, room: &mut Room) -> io::Result<()> {
    let file = read_slice(input, &mut room.first);
    let bytes = read_slice(input, &mut room.second);
    let mut yes = JUNK;
    let answer = seqp::seq_check(&room.first[..file], &room.second[..bytes], &mut yes);
    println!(rt; "C {answer} {yes}")
}

fn answer_prompt(rt: &impl Print, input: &mut impl Read, room: &mut Room) -> io::Result<()> {
    let file = read_slice(input, &mut room.first);
    let state = read_slice(input, &mut room.second);
    let mut low = WIDE_JUNK;
    let mut high = WIDE_JUNK;
    let answer = seqp::seq_prompt(
        &room.first[..file],
        &room.second[..state],
        &mut low,
        &mut high,
    );
    println!(rt; "P {answer} {low} {high}")
}

// A proved loop has to end, and nothing says that a stream does: no stream uses these turns up.
fn answer_all(rt: &impl Print, input: &mut impl Read, room: &mut Room) -> io::Result<()> {
    for _ in 0..u64::MAX {
        match read_letter(input) {
            Some(b'C') => answer_check(rt, input, room)?,
            Some(b'F') => answer_follow(rt, input, room)?,
            Some(b'J') => answer_judge(rt, input, room)?,
            Some(b'P') => answer_prompt(rt, input, room)?,
            Some(b'W') => answer_write(rt, input, room)?,
            _ => break,
        }
    }
    Ok(())
}

fn main(rt: HostRuntime) -> io::Result<()> {
    let mut room = Room {
        first: [0; MOST],
        second: [0; MOST],
        third: [0; MOST],
    };
    answer_all(&rt, &mut rt.stdin(), &mut room)
}
