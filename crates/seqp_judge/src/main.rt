// Judges the procedure file on standard input: one line of answer, node, kind, code and number of shared codes in decimal.
#![tactic(auto)]

use input::read_full;

// One byte over the largest file is enough to know that it is too long.
const MOST_READ: usize = 8205;

fn main(rt: HostRuntime) -> std::io::Result<()> {
    let mut file = [0u8; MOST_READ];
    let length = read_full(&mut rt.stdin(), &mut file);
    let mut node = 0;
    let mut kind = 0;
    let mut code = 0;
    let mut low = 0;
    let mut high = 0;
    let mut count = 0;
    let answer = seqp::seq_judge(
        &file[..length],
        &mut node,
        &mut kind,
        &mut code,
        &mut low,
        &mut high,
        &mut count,
    );
    println!(rt; "{answer} {node} {kind} {code} {count}")
}
