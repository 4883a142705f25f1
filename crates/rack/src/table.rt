// A rack in memory of its own: a table of node records, and the words node by node.
ghost use Rattle.std.specs.Prelude.{◌≡◌, ◌*◌, vec_len};

use crate::node::Node;

pub mod calls;

#[derive(Drop)]
pub struct TableRack {
    nodes: Vec<Node>,
    // One list for all nodes: a list for each would be asked of the heap one by one, and have a length to be known besides.
    words: Vec<u16>,
    places: usize,
    // There is a word for each place of each node.
    ghost full: { vec_len words ≡ vec_len nodes * places },
}
