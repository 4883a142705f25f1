// Why a call was refused. Each reason has a number, which operators see.
#![tactic(auto)]

pub mod reason;

pub use reason::{Cause, Fault, Refusal};
