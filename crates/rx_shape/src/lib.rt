//! Objects in memory: tagged root words, the numbering of words and places, versions of an object, and the shapes that
//! read a version and plan the next one. What a root and the words stand for is `specs/Forms.antt`.
#![tactic(auto)]

mod blocks;
mod cells;
mod homes;
mod inline;
pub mod laws;
mod layouts;
mod moves;
mod nodes;
mod plans;
mod roots;
mod shapes;
mod steps;
#[cfg(test)]
mod tests;

pub use blocks::Blocks;
pub use homes::Home;
pub use inline::Inline;
pub use layouts::{Layout, stock};
pub use nodes::{NO_PLACE, first_of, header, next_of, node, spare_of, value_of};
pub use plans::{MOST_PLACES, MOST_READS, Pair, Plan, Taken, Trade, Want, Write};
pub use roots::{LAST_TAG, low_of, pack, tag_of};
pub use shapes::Shape;
