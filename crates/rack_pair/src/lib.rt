// Two racks as one: held by value, or lent.
#![tactic(auto)]

pub mod lent_pair;
pub mod lent_rooms;
pub mod pair;
mod seat;

pub use lent_pair::LentPair;
pub use lent_rooms::{fill_pair, fill_rooms};
pub use pair::{NotJoined, PairRack, join};
