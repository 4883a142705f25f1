// A rack on lent bytes: the check of an image, the rack over it, and work on whole nodes of lent images.
#![tactic(auto)]

pub mod checks;
pub mod image;
pub mod lent_images;

pub use checks::{check_image, check_images};
pub use image::ImageRack;
pub use lent_images::{fill_image, move_between_images};
