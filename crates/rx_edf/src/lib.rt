//! The test for earliest deadlines first: whether what is released and due in t ticks fits into them, for each t, where each
//! job is charged with its stated cost, and with the attempt that its release can make a job of a longer deadline repeat. The
//! definitions are `specs/Verdicts.antt`.
#![tactic(auto)]

mod charged_tasks;
mod cycles;
pub mod laws;
mod sums;
#[cfg(test)]
mod tests;
mod verdicts;
mod walks;

pub use verdicts::{EdfVerdict, test};
