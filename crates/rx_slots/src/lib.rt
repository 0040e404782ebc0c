//! The schedule of one processor, slot by slot, and its events: definitions, and the laws that hold of them.
#![tactic(auto)]

pub mod charges;
pub mod laws;
pub mod windows;
