//! The admission test for fixed priorities: whether each task meets its deadlines although attempts may be repeated, and
//! how many ticks serve it at least.
#![tactic(auto)]

pub mod laws;
mod needs;
#[cfg(test)]
mod tests;
mod times;
mod verdicts;

pub use times::least;
pub use verdicts::{Verdict, test};
