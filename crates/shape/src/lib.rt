// The shape of a code: its nodes and places, and lists of nodes that are out.
#![tactic(auto)]

pub mod dimensions;
mod layout;
mod lengths;
mod listing;
pub mod outages;

pub use dimensions::Shape;
pub use outages::OutageList;
