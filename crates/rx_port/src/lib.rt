//! The four memory events of an attempt, as one trait, and the plain bank that implements it. What an event makes of the
//! words and the seats is `specs/Core.antt`, and what always holds of them `specs/Lawful.antt`.
#![tactic(auto)]

mod banks;
pub mod laws;
mod ports;
mod seat_states;
mod starts;
#[cfg(test)]
mod tests;
mod trades;
mod views;

pub use banks::Bank;
pub use ports::Port;
pub use starts::{own_of_seat, start_words};
pub use trades::{place_at, places_at, trade_at};
pub use views::{Attempt, Core, Counts, Exchange, Joined, Known, View};
