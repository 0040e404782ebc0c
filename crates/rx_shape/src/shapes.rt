// What a call has to read, and what it makes of it.
ghost use Rattle.rx_seq.specs.declared.calls.Call.{Call};
ghost use Rattle.rx_shape.specs.declared.homes.Home.{Home};
ghost use Rattle.rx_shape.specs.declared.plans.Taken.{Taken};
ghost use Rattle.rx_shape.specs.declared.plans.Want.{Want};
ghost use Rattle.rx_shape.specs.declared.plans.Want.TheVariants.{Read, Ready};
ghost use Rattle.rx_shape.specs.Words.{tag_of, low_of};
ghost use Rattle.rx_shape.specs.Places.{times};
ghost use Rattle.rx_shape.specs.Forms.{stock_size, InRange, IsStock};
ghost use Rattle.rx_shape.specs.Asks.{Wants, IsPlanned};
ghost use Rattle.std.specs.Prelude.{ℕ, ◌≡◌, ◌≤◌, ◌+◌, ◌<◌, ◌^◌, List, [], ◌∷◌, ◌++◌};

use crate::plans::{MOST_PLACES, Plan, Want};
use arrayvec::ArrayVec;
use rx_seq::{Call, Part, Reply};

/// One attempt of a call on an object: which places it reads, and what it plans. All calls of `want` and `plan` on one
/// value are given the same root, whose low part is a place of the object where the object is no cell.
pub trait Shape {
    // The object.
    ghost home: { Self → Home };

    // The call.
    ghost asked: { Self → Call };

    // What it wants next, for a root.
    ghost next: { Self → ℕ → Want };

    // The words taken, with their places, for a root.
    ghost taken: { Self → ℕ → List Taken };

    // One more word can be taken.
    ghost room: { Self → Type 0 };

    // The objects and calls that it serves.
    ghost serves: { Home → Call → Type 0 };

    /// An attempt of the call on the object whose places are the `count` words from word `first` on. For a cell both
    /// numbers are 0.
    fn start(part: Part, call: Call, first: u32, count: u32) -> Self
        requires { serves (record { part = part; first = first; count = count }) call }
        ensures home { home result ≡ record { part = part; first = first; count = count } }
        ensures asked { asked result ≡ call }
        ensures taken { (root : ℕ) → taken result root ≡ [] };

    /// The next place to read, which is one of the object's. It answers `Ready` only where all versions with this root
    /// that have the words taken give one reply, and either have one next state or each keep their own. It answers
    /// `Stale` only where there is no such version. After at most the capacity and 2 words it answers `Ready` or
    /// `Stale`.
    fn want(&self, root: u64) -> Want
        requires { 0 < stock_size (home self.now).part → InRange (home self.now) (low_of root) }
        ensures next { result ≡ next self.now root }
        ensures wants { Wants (home self.now) (asked self.now) root (taken self.now root) result }
        ensures room { (place : ℕ) → result ≡ Read place → room self.now };

    /// Takes the word that was read at the place that `want` answered.
    fn take(&mut self, word: u64)
        requires { room self.old }
        ensures taken { (root place : ℕ) → next self.old root ≡ Read place → taken self.new root ≡ taken self.old root ++ (record { place = place; word = word }) ∷ [] }
        ensures home { home self.new ≡ home self.old }
        ensures asked { asked self.new ≡ asked self.old };

    /// The plan of the call, where `want` answers `Ready` and the root's tag is not the last one. The own places are
    /// a stock of places of the object, without repeats; a cell has none.
    fn plan(&self, root: u64, own: &ArrayVec<u32, MOST_PLACES>, out: &mut Plan) -> Reply
        requires ready { next self.now root ≡ Ready }
        requires root { 0 < stock_size (home self.now).part → InRange (home self.now) (low_of root) }
        requires tag { tag_of root + 1 < 2 ^ 40 }
        requires stock { IsStock (home self.now) own.now.items }
        requires ranges { (place : ℕ) → 0 < times place own.now.items → InRange (home self.now) place }
        requires once { (place : ℕ) → times place own.now.items ≤ 1 }
        ensures { IsPlanned (home self.now) (asked self.now) root (taken self.now root) own.now.items out.new.root out.new.writes.items out.new.trade.pairs.items result };
}
