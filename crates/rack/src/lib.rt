// Racks of nodes behind one trait, a rack in memory of its own, and work on whole nodes of any rack.
#![tactic(auto)]

pub mod counts;
pub mod lent;
pub mod node;
pub mod table;
pub mod table_error;
pub mod the_rack;
pub mod whole_nodes;

pub use counts::fit;
pub use node::Node;
pub use table::TableRack;
pub use table_error::TableError;
pub use the_rack::Rack;
pub use whole_nodes::{copy_node, fill_node, move_node};
