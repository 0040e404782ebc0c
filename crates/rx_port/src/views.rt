// What contracts see of a bank or a table. But for `Counts`, no value of these types is made.

use rx_seq::{Call, Entry};
use rx_shape::{Taken, Write};
use std::collections::LinkedList;

/// How many events were made: loads by `begin` and `read`, stores by `write`, exchanges by `decide`.
#[derive(Clone, Copy, Debug, Default, PartialEq, Eq)]
pub struct Counts {
    pub loads: u64,
    pub stores: u64,
    pub exchanges: u64,
}

/// An open attempt: its object and call, the root that it expects, and the words that it read and wrote.
pub struct Attempt {
    pub object: u32,
    pub call: Call,
    pub expected: u64,
    pub reads: LinkedList<Taken>,
    pub writes: LinkedList<Write>,
}

/// An exchange: its object, the root that it expected and the one that it found.
#[derive(Clone, Copy, Debug, Default, PartialEq, Eq)]
pub struct Exchange {
    pub object: u32,
    pub expected: u64,
    pub found: u64,
}

/// What a seat knows: the history that it has seen, its own entries, how many begins and exchanges it made, and its
/// latest exchange.
pub struct Known {
    pub seen: LinkedList<Entry>,
    pub mine: LinkedList<Entry>,
    pub begins: u64,
    pub exchanges: u64,
    pub latest: Option<Exchange>,
}

/// What is left of a seat that was joined into another, which holds its places.
pub struct Joined {
    pub number: u32,
    pub seen: LinkedList<Entry>,
    pub mine: LinkedList<Entry>,
    pub own: LinkedList<LinkedList<u32>>,
}

/// One seat: its number, the number of the seat that it makes next, whether it was joined into another, its open
/// attempt, its own places for each object, the seats that were joined into it, and what it knows if it keeps histories.
pub struct View {
    pub number: u32,
    pub next: Option<u32>,
    pub live: bool,
    pub attempt: Option<Attempt>,
    pub own: LinkedList<LinkedList<u32>>,
    pub joined: LinkedList<Joined>,
    pub known: Option<Known>,
}

/// All words, all seats that were made, and the counts of events where they are kept.
pub struct Core {
    pub words: LinkedList<u64>,
    pub views: LinkedList<View>,
    pub counts: Option<Counts>,
}
