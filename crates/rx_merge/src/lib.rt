//! One order of the calls that several callers made on shared objects: the entries of each caller, each in the order in
//! which the caller made them, are merged into one history that has them all.
#![tactic(auto)]

mod counts;
pub mod laws;
mod merge_state;
mod orders;

pub use orders::merge;

#[cfg(test)]
mod tests;
