//! Attempts of calls and whole calls on the objects of a shared table. No call takes memory, and none waits.
#![tactic(auto)]

mod calls;
pub mod laws;
mod runners;
#[cfg(test)]
mod tests;
#[cfg(test)]
mod thread_tests;

pub use calls::{Outcome, Try, attempt, operate};
pub use runners::Runner;
