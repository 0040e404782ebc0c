//! The executive: one simulated processor that counts ticks, and the events of its schedule.
#![tactic(auto)]

mod executive;
mod looks;
mod objects;
mod slots;
mod states;
mod ticks;
mod turns;

pub use executive::Executive;
pub use rx_slots::{charges, laws, windows};
pub use ticks::{MOST_EVENTS, Tick};
