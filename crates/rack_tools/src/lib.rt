// Work on whole nodes, of any rack and on lent images, under one name.
#![tactic(auto)]

pub mod images;
pub mod whole_nodes;

pub use images::{fill_image, fill_rooms, move_between_images};
pub use whole_nodes::{copy_node, fill_node, fill_pair, move_node};
