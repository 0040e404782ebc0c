//! Reads a task file, a document in TOML, into a set of tasks and objects, and names the first fault of one that is no set.
#![tactic(auto)]

mod demands;
mod faults;
mod fields;
mod items;
mod names;
mod objects;
mod places;
mod sets;
mod shapes;
mod tasks;
#[cfg(test)]
mod tests;
mod texts;

pub use faults::{FileFault, Label, Section};
pub use sets::read_set;
pub use texts::number_of;
