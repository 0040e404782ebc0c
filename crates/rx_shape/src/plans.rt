// What an attempt reads, writes and trades.
ghost use Rattle.std.specs.Prelude.{◌≡◌, []};

use arrayvec::ArrayVec;

/// The most places that a version of an object has, and that a seat owns of it: one more than the greatest capacity.
pub const MOST_PLACES: usize = 65;

/// The most words that an attempt reads of an object.
pub const MOST_READS: usize = 66;

/// A place that was read, and the word that stood there.
#[derive(Clone, Copy, Debug, Default, PartialEq, Eq)]
pub struct Taken {
    pub place: u32,
    pub word: u64,
}

/// A word that is written into the own place of this number, from 0.
#[derive(Clone, Copy, Debug, Default, PartialEq, Eq)]
pub struct Write {
    pub own: u32,
    pub value: u64,
}

/// The own place of this number, from 0, becomes this place.
#[derive(Clone, Copy, Debug, Default, PartialEq, Eq)]
pub struct Pair {
    pub own: u32,
    pub place: u32,
}

/// Which own places become which places if the exchange finds the expected root.
#[derive(Drop)]
pub struct Trade {
    pub pairs: ArrayVec<Pair, MOST_PLACES>,
}

/// What an attempt writes, the root that it exchanges for, and the trade.
#[derive(Drop)]
pub struct Plan {
    pub root: u64,
    pub writes: ArrayVec<Write, MOST_PLACES>,
    pub trade: Trade,
}

impl Plan {
    /// Makes it the plan of a quiet call: the root that was there, and nothing is written or traded. It takes constant time.
    pub fn stay(&mut self, root: u64)
        ensures root { self.new.root ≡ root }
        ensures writes { self.new.writes.items ≡ [] }
        ensures pairs { self.new.trade.pairs.items ≡ [] }
    {
        self.root = root;
        self.writes.clear();
        self.trade.pairs.clear();
    }
}

/// What an attempt needs next.
#[derive(Clone, Copy, Debug, PartialEq, Eq)]
pub enum Want {
    /// The word of this place.
    Read { place: u32 },
    /// Nothing more: the words that were read settle the reply and the plan.
    Ready,
    /// Nothing more: no version with this root has the words that were read.
    Stale,
}
