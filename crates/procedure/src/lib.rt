// The procedure file: read into a procedure, or refused with 1 to 6.
#![tactic(auto)]

ghost use Rattle.std.specs.Prelude.{◌≡◌};

use meaning::Refusal;
use node::Node;

pub mod bounds; // bounds.rt: how many blocks a repeat may have
pub mod node; // node.rt: a node, and what a record of the file says of it
mod fill; // fill.rt: the test 4, on each record
mod frame; // frame.rt: the tests 1 to 3, on the length and the trailer
mod nulls; // nulls.rt: whether a part has the empty word
mod order; // order.rt: the test 5, on how the nodes stand
mod repeats; // repeats.rt: the test 6, on the number of repeats, and the empty words with it

// A procedure may have so many nodes, and so many repeats among them.
pub const MOST_NODES: usize = 512;

pub const MOST_REPEATS: usize = 32;

// A procedure and what is known of its parts. What stands in the tables past the nodes is not said.
#[derive(Clone, Copy)]
pub struct Procedure {
    // The nodes in postfix order.
    pub nodes: [Node; MOST_NODES],
    // The node at which the part of each node begins.
    pub starts: [u16; MOST_NODES],
    // Whether the part of each node has the empty word.
    pub nulls: [bool; MOST_NODES],
    // The nodes that are repeats, in rising order.
    pub repeats: [u16; MOST_REPEATS],
    // How many nodes there are, and how many of them are repeats.
    pub count: usize,
    pub repeat_count: usize,
}

impl Procedure {
    ghost use Rattle.procedure.specs.Opening.{Opens};

    // A procedure that no file was read into yet.
    pub fn blank() -> Procedure
        ensures nodes { result.count ≡ 0 }
        ensures repeats { result.repeat_count ≡ 0 }
    {
        Procedure {
            nodes: [Node::Empty; MOST_NODES],
            starts: [0; MOST_NODES],
            nulls: [false; MOST_NODES],
            repeats: [0; MOST_REPEATS],
            count: 0,
            repeat_count: 0,
        }
    }

    // The procedure becomes that of the file. Where the file is refused, with the first of 1 to 6 that applies, what the procedure then
    // is is not said.
    pub fn read(&mut self, file: &[u8]) -> Result<(), Refusal>
        ensures { Opens file.now self.new result }
    {
        if !frame::sized(file) {
            return Err(Refusal::Size);
        }
        if !frame::lettered(file) {
            return Err(Refusal::Letters);
        }
        if !frame::measured(file) {
            return Err(Refusal::Measures);
        }
        let n = frame::count_of(file);
        fill::read_nodes(file, &mut self.nodes, n)?;
        order::find_starts(&self.nodes, &mut self.starts, n)?;
        match repeats::list_repeats(&self.nodes, &mut self.nulls, &mut self.repeats, n) {
            Ok(repeat_count) => self.repeat_count = repeat_count,
            Err(node) => return Err(Refusal::Repeats(node)),
        }
        self.count = n;
        Ok(())
    }
}
