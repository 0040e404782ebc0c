//! The top call: the words of a command and an input in, a report and a status out.
//!
//! `top` does all that the program does. What it answers to which words and which input is the one definition `answer`
//! of `specs/Outcome.antt`, and each status has its cause in `Outcome` there.
#![tactic(auto)]

mod admits;
mod answers;
#[cfg(test)]
mod charge_tests;
mod draws;
#[cfg(test)]
mod lane_tests;
mod lanes;
mod left;
mod runs;
mod stops;
#[cfg(test)]
mod tests;
mod tops;
mod words;

pub use left::Left;
pub use rx_io::Status;
pub use tops::top;
