//! The events of a schedule, how many there are of each kind, and the ledger that keeps them and counts those of an
//! interval.
#![tactic(auto)]

mod events;
mod ledgers;
#[cfg(test)]
mod tests;
mod totals;

pub use events::Event;
pub use ledgers::Ledger;
pub use totals::Totals;
