// The coupled-layer code on slices of words: solve one plane, restore nodes, encode a message, rebuild a node, test the checks.
#![tactic(auto)]

mod arithmetic;
mod array;
mod checking;
mod encoding;
mod listing;
mod planes;
mod rebuilding;
mod restoring;
mod solver;
mod symbols;
mod turning;

pub use checking::{all_codes, checks_hold};
pub use encoding::encode;
pub use rebuilding::rebuild;
pub use restoring::restore;
pub use solver::solve;
