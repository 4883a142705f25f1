// The lines of the console: what a line asks for, and what is printed as its answer.
#![tactic(auto)]

pub mod command;
mod numbers;
mod printing;
mod reading;
mod words;

pub use command::{Command, Kind};
pub use printing::{print_bad, print_no, print_ok};
pub use reading::parse;
