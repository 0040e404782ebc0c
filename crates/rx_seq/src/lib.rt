//! The sequential objects that tasks share: cells, queues, ordered lists and registers, their calls and replies,
//! and the entries of a history of calls. The table of what each call does is `specs/Table.antt`.
#![tactic(auto)]

mod calls;
mod cells;
mod changes;
mod entries;
mod kinds;
pub mod laws;
mod limits;
mod lists;
mod memory;
mod objects;
mod queues;
mod registers;
mod replies;

pub use calls::{Call, Row};
pub use changes::{quiet, still};
pub use entries::Entry;
pub use kinds::{Kind, Part, attempt_steps};
pub use limits::{MOST_CELL, MOST_VALUE};
pub use memory::NoMemory;
pub use objects::{State, apply, fits, start};
pub use replies::Reply;

#[cfg(test)]
mod tests;
