//! Queues and ordered lists as linked nodes: an attempt walks along the nodes, copies those before the one that changes, and
//! shares the rest. What a walk has read, and what it says, is `specs/Chains.antt`.
#![tactic(auto)]

mod copies;
mod nodes;
mod steps;

pub use nodes::Nodes;
pub use rx_shape::{first_of, header, next_of, node, spare_of, value_of};
