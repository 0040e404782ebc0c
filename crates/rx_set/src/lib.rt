//! Sets of periodic tasks, the objects that they share and the demands of their jobs: policies, items, releases, deadlines,
//! ranks, keys, costs and ticks.
#![tactic(auto)]

mod demands;
mod exposures;
mod generator;
mod items;
mod jobs;
pub mod laws;
mod objects;
mod policies;
mod sets;
mod tasks;
#[cfg(test)]
mod tests;

pub use demands::Demand;
pub use generator::generate;
pub use items::{Body, Item};
pub use jobs::{Job, Key};
pub use objects::Object;
pub use policies::Policy;
pub use sets::TaskSet;
pub use tasks::{Name, Task};
