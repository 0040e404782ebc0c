// Tournament trees.
ghost use Rattle.std.specs.Prelude.{◌≡◌, ◌<◌, ◌-◌, ◌^◌, ◌≢◌, ℕ};
ghost use Rattle.rx_tree.specs.Trees.{IsLeast, key_at};

use std::marker::Model;

/// How many leaves a tree has, and so how many keys.
pub const LEAVES: usize = 64;

/// How many places a tree has. Place 1 is the root, places 2n and 2n + 1 are below place n, and the second half are the
/// leaves. Place 0 is not used.
const PLACES: usize = 2 * LEAVES;

/// How many places lie above a leaf.
const LEVELS: usize = 6;

/// A key at each of 64 leaves, numbered from 0, of which the least is at hand: a tournament tree, in which each place above
/// the leaves has the lesser of the two keys below it. Clauses see it as the list of the keys at its leaves.
#[derive(Drop)]
pub struct Tree {
    places: [u64; PLACES],
}

impl Model for Tree {
    ghost use Rattle.std.specs.Prelude.{ℕ, List};
    ghost use Rattle.rx_tree.specs.Trees.{keys_of, IsTree};

    ghost Value = { List ℕ };

    ghost view = { λ t. keys_of t.places };

    ghost invariant = { λ t. IsTree t.places };
}

impl Tree {
    /// A tree whose keys are all the greatest number of 64 bits. Its cost is constant.
    pub fn new() -> Tree
        ensures { (leaf : ℕ) → leaf < LEAVES → key_at result leaf ≡ 2 ^ 64 - 1 }
    {
        Tree {
            places: [u64::MAX; PLACES],
        }
    }

    /// Writes a key at a leaf. Its cost is constant: it looks at one key for each place above the leaf.
    pub fn put(&mut self, leaf: usize, key: u64)
        requires { leaf < LEAVES }
        ensures here { key_at self.new leaf ≡ key }
        ensures others { (other : ℕ) → other ≢ leaf → key_at self.new other ≡ key_at self.old other }
    {
        let mut place = LEAVES + leaf;
        let mut least = key;
        self.places[place] = key;
        for _ in 0..LEVELS {
            least = least.min(self.places[place ^ 1]);
            place /= 2;
            self.places[place] = least;
        }
    }

    /// The least key. Its cost is constant.
    pub fn least(&self) -> u64
        ensures { IsLeast self.now result }
    {
        self.places[1]
    }
}
