// The shape of queues and ordered lists that stand in linked nodes.
ghost use Rattle.rx_seq.specs.Table.{fits_part};
ghost use Rattle.rx_shape.specs.Asks.{IsPlanned};
ghost use Rattle.rx_shape.specs.Forms.{InRange, IsStock, decoded, form_of, node, stock_size};
ghost use Rattle.rx_shape.specs.Places.{times};
ghost use Rattle.rx_shape.specs.Settled.{HasTaken};
ghost use Rattle.rx_shape.specs.Words.{low_of as low_in, tag_of as tag_in};
ghost use Rattle.rx_shape.specs.declared.plans.Want.TheVariants.{Ready};
ghost use Rattle.rx_nodes.specs.Chains.{IsBounded, IsLimit, IsOpen, IsTold, ServesNodes, passed_by, taken_as, want_as};
ghost use Rattle.std.specs.Prelude.{ℕ, ◌≡◌, ◌≤◌, ◌<◌, ◌+◌, ◌^◌, true, List, [], length};

use crate::copies::{add_node, remove_node};
use crate::steps::{
    Step, added_reply, added_value, after_header, after_node, limit_of, removed_reply,
};
use arrayvec::ArrayVec;
use rx_seq::laws::quiet_calls_stay;
use rx_seq::{Call, Part, Reply};
use rx_shape::{Home, MOST_PLACES, Plan, Shape, Want, low_of, spare_of};

/// The most nodes that a version has: the greatest capacity.
const MOST_NODES: usize = 64;

/// An attempt on a queue or an ordered list of linked nodes. It reads the header and then the nodes in order. It stops before
/// the last node only where this is said:
///
/// - `Put` stops at the header where the queue is full. Else it reads all nodes, and then the first spare node.
/// - `Take` reads the first node alone.
/// - `Has` stops at the first number that is not smaller, and so do `Insert` and `Remove`. An `Insert` that adds its number
///   reads the first spare node besides.
///
/// Words that no version has end it with `Stale` as soon as they are read: one of more than 56 bits, a place outside the
/// object, more nodes than there can be. That a list rises is not looked at: where all numbers before the place of the
/// call's number are smaller, it follows for each version that has the words. The plan of a quiet call keeps the root, and
/// writes and trades nothing. That of a loud call writes a header, copies of the nodes before the one that changes, and one
/// node more, so it has 2 writes more than there are nodes before it; it trades as many places, and raises the tag.
///
/// Each call but `plan` takes constant time. `plan` takes time that grows with the number of nodes before the one that
/// changes. Nothing takes memory.
#[derive(Debug, Drop)]
pub struct Nodes {
    home: Home,
    call: Call,
    limit: u64,
    head: u64,
    nodes: ArrayVec<u64, MOST_NODES>,
    step: Step,
    ghost form: { form_of home.part.kind ≡ node },
    ghost limits: { IsBounded home.part.cap },
    ghost places: { home.first + home.count ≤ 16777215 },
    ghost fits: { fits_part home.part call ≡ true },
    ghost passed: { IsLimit call limit },
    ghost says: { IsTold home call head nodes.items step },
}

impl Nodes {
    /// Makes it an attempt of another call, with no words taken, as `start` does. It clears no more than the words that
    /// were taken, so where an attempt follows another it costs less than a new one.
    pub fn restart(&mut self, part: Part, call: Call, first: u32, count: u32)
        requires { ServesNodes (record { part = part; first = first; count = count }) call }
        ensures home { self.new.home ≡ record { part = part; first = first; count = count } }
        ensures call { self.new.call ≡ call }
        ensures taken { (root : _) → taken_as self.new.step root self.new.head self.new.nodes.items ≡ [] }
    {
        self.home = Home { part, first, count };
        self.call = call;
        self.limit = limit_of(&self.call);
        self.nodes.clear();
        self.step = Step::First;
    }
}

impl Shape for Nodes {
    ghost home = { λ s. s.home };

    ghost asked = { λ s. s.call };

    ghost next = { λ s root. want_as s.step root s.head };

    ghost taken = { λ s root. taken_as s.step root s.head s.nodes.items };

    ghost room = { λ s. IsOpen s.step };

    ghost serves = { λ home call. ServesNodes home call };

    fn start(part: Part, call: Call, first: u32, count: u32) -> Nodes {
        let limit = limit_of(&call);
        Nodes {
            home: Home { part, first, count },
            call,
            limit,
            head: 0,
            nodes: ArrayVec::new(),
            step: Step::First,
        }
    }

    fn want(&self, root: u64) -> Want {
        quiet_calls_stay();
        match self.step {
            Step::First => Want::Read {
                place: low_of(root),
            },
            Step::Along { place } => Want::Read { place },
            Step::Spare { .. } => Want::Read {
                place: spare_of(self.head),
            },
            Step::Broken => Want::Stale,
            Step::Kept { .. } | Step::Adding { .. } | Step::Removing => Want::Ready,
        }
    }

    fn take(&mut self, word: u64) {
        match self.step {
            Step::First => {
                self.head = word;
                self.step = after_header(&self.home, &self.call, word);
            }
            Step::Along { place } => {
                self.nodes.push(word);
                self.step = after_node(
                    &self.home,
                    &self.call,
                    self.limit,
                    self.head,
                    self.nodes.as_slice(),
                    place,
                );
            }
            Step::Spare { before, kept } => {
                self.step = Step::Adding { before, kept, word };
            }
            _ => {}
        }
    }

    fn plan(&self, root: u64, own: &ArrayVec<u32, MOST_PLACES>, out: &mut Plan) -> Reply
        requires ready { want_as self.now.step root self.now.head ≡ Ready }
        requires root { 0 < stock_size self.now.home.part → InRange self.now.home (low_in root) }
        requires tag { tag_in root + 1 < 2 ^ 40 }
        requires stock { IsStock self.now.home own.now.items }
        requires ranges { (place : ℕ) → 0 < times place own.now.items → InRange self.now.home place }
        requires once { (place : ℕ) → times place own.now.items ≤ 1 }
        ensures planned { IsPlanned self.now.home self.now.call root (taken_as self.now.step root self.now.head self.now.nodes.items) own.now.items out.new.root out.new.writes.items out.new.trade.pairs.items result }
        ensures few { (words : List ℕ) → HasTaken self.now.home root (taken_as self.now.step root self.now.head self.now.nodes.items) words → length out.new.writes.items ≤ passed_by self.now.call (decoded self.now.home root words) + 2 }
    {
        quiet_calls_stay();
        let nodes = self.nodes.as_slice();
        match self.step {
            Step::Adding { before, kept, word } => {
                add_node(
                    root,
                    own.as_slice(),
                    self.head,
                    &nodes[..before as usize],
                    added_value(&self.call),
                    kept,
                    word,
                    out,
                );
                added_reply(&self.call, before)
            }
            Step::Removing => {
                remove_node(root, own.as_slice(), self.head, nodes, out);
                removed_reply(&self.call, nodes[nodes.len() - 1])
            }
            Step::Kept { reply } => {
                out.stay(root);
                reply
            }
            _ => unreachable!(),
        }
    }
}
