// The calls of a vault as functions: a shape, a field and a rack that is lent to each call.
// The shape and the rack stay two parameters here: who lends bytes can state what they hold afterwards. Who owns both has `Vault`.
#![tactic(auto)]

pub mod altering;
pub mod answer;
pub mod coding;
mod drawing;
mod fitted;
pub mod reading;
mod sizes;
pub mod small;
mod writing;

pub use answer::Answer;
pub use sizes::fits;
