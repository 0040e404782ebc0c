//! The writing of a run: a set and an executive of it in, the lines of its report out, each in a call of the sink of its
//! own.
//!
//! `write_run` writes the whole report of `specs/Report.antt`: the line of the admission test, and then, slot by slot
//! while the executive makes them, the lines of the events, those of the last misses, of the objects and of the totals.
//! It stands on no words, no input and no status: what a run is asked by, and what its caller makes of it, is of the
//! crates above. The parts are public too, for reports that have other lines between them.
#![tactic(auto)]

mod objects;
mod runs;
mod verdicts;

pub use objects::{Objects, put_objects};
pub use runs::{Ended, new_executive, put_totals, write_run};
pub use verdicts::{put_test, put_verdict, write_spans};
