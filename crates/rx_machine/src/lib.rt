//! Operations on shared objects as step machines: each step makes at most one memory event, over any port. What a step
//! tells is `specs/Steps.antt`, and a machine as clauses see it `specs/Operations.antt`.
#![tactic(auto)]

mod any_shape;
pub mod laws;
mod machine_states;
mod machines;
mod steps;
#[cfg(test)]
mod tests;

pub use machines::Machine;
pub use steps::Step;
