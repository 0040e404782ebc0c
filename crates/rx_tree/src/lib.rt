//! A tournament tree of 64 keys, whose least is at hand.
#![tactic(auto)]

mod trees;

pub use trees::{LEAVES, Tree};
