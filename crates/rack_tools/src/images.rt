// Work on lent images: what the bytes hold afterwards is the encoding of the racks.
pub use rack_image::{fill_image, move_between_images};
pub use rack_pair::fill_rooms;
