// The test 4: the node records of a file, against the table.
ghost use Rattle.std.specs.Prelude.{◌≡◌, ◌+◌, ◌≤◌, ◌<◌, length};
ghost use Rattle.meaning.specs.File.{Measured, count, record_at};
ghost use Rattle.procedure.specs.Records.{NodeOf, ReadsNodes};

use crate::node::{Node, node_of};
use crate::{MOST_NODES, frame};
use meaning::Refusal;

// The node of the record whose 8 bytes stand from `at` on.
fn node_at(file: &[u8], at: usize) -> Option<Node>
    requires { at + 7 < length file.now }
    ensures { NodeOf (record_at file.now at) result }
{
    node_of(
        file[at],
        file[at + 1],
        numbers::two_at(file, at + 2),
        numbers::two_at(file, at + 4),
        numbers::two_at(file, at + 6),
    )
}

// The first n nodes become those of the file; where a record breaks the table, the lowest is named.
pub fn read_nodes(file: &[u8], nodes: &mut [Node; MOST_NODES], n: usize) -> Result<(), Refusal>
    requires n_in_bounds { n ≤ 512 }
    requires measured { Measured file.now }
    requires n_value { n ≡ count file.now }
    ensures { ReadsNodes file.now nodes.new n result }
{
    let first = file.len() - frame::TRAILER - frame::RECORD * n;
    for i in 0..n {
        let Some(node) = node_at(file, first + frame::RECORD * i) else {
            return Err(Refusal::Record(i));
        };
        nodes[i] = node;
    }
    Ok(())
}
