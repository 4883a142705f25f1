// The words of a whole node of any rack: written from a list, copied to one, moved to another rack.
pub use rack::{copy_node, fill_node, move_node};
pub use rack_pair::fill_pair;
