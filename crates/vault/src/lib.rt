// The vault: one message, coded over the nodes of one rack.
#![tactic(auto)]

mod methods;
pub mod owner;

pub use owner::{NotOpened, Vault};
pub use vault_calls::{Answer, altering, answer, coding, reading, small};
