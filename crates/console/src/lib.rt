// The console: a line in, the bytes printed out.
#![tactic(auto)]

mod calls;
mod input;
mod session;

pub use input::{LIMIT, transcript};
pub use session::Session;
