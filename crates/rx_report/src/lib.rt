//! The lines of a report, those of the faults of a task file, those of the admission tests, and those of the intervals of a
//! run, as exact bytes. The definitions are `specs/Lines.antt`, `specs/VerdictLines.antt` and `specs/SpanLines.antt`.
#![tactic(auto)]

mod buffers;
mod calls;
mod entries;
mod events;
mod faults;
mod items;
mod jobs;
pub mod laws;
mod lines;
mod objects;
mod replies;
mod spans;
#[cfg(test)]
mod tests;
mod totals;
mod verdicts;
mod wordings;

pub use buffers::LineBuffer;
pub use entries::{calls_line, entry_line, lanes_line};
pub use events::event_line;
pub use faults::fault_line;
pub use lines::Line;
pub use objects::object_line;
pub use spans::{edf_line, window_line};
pub use totals::total_line;
pub use verdicts::{fixed_line, rank_line};
pub use wordings::Wording;
