//! Tasks as callers on threads: the scripts of a set's tasks are made by several lanes on one shared table, and the entries
//! of all callers are put in one order. It needs threads, and waits for none but where it joins them.
#![tactic(auto)]

mod answers;
mod gates;
mod lanes;
mod lists;
mod runs;
mod scripts;
mod tables;
#[cfg(test)]
mod tests;
mod threads;

pub use gates::{Gate, NoGate};
pub use runs::{Run, run_lanes};
