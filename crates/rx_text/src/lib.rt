//! Texts and decimal numbers, placed one after the other into bytes that have room for them.
//!
//! Each call writes behind what stands before a place and answers the place behind what it wrote. `specs/Places.antt` says
//! what that leaves.
#![tactic(auto)]

mod numbers;
mod texts;

pub use numbers::{place_four, place_number};
pub use texts::{place_part, place_text};
