//! The objects of a layout on words that threads share. A table has the words, and a seat for each thread. Each event of
//! a seat is one atomic step, and words and seats are lawful for one history at every moment, whatever the order of the
//! steps.
#![tactic(auto)]

mod closings;
mod joins;
mod ports;
mod rules;
mod seats;
mod steps;
mod tables;
#[cfg(test)]
mod tests;

pub use closings::Closed;
pub use ports::SharedPort;
pub use seats::Seat;
pub use tables::{Kept, Opened, Shared};
