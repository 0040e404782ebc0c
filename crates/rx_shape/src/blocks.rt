// The shape of queues, ordered lists and registers that stand in blocks.
ghost use Rattle.rx_seq.specs.Table.{fits_part};
ghost use Rattle.rx_shape.specs.Forms.{block, form_of};
ghost use Rattle.rx_shape.specs.Walks.{IsBounded, IsStep, ServesBlocks, at_run, next_want};
ghost use Rattle.rx_shape.specs.Words.{low_of as low_in};
ghost use Rattle.rx_shape.specs.declared.steps.Step.TheVariants.{Open};
ghost use Rattle.std.specs.Prelude.{◌≡◌, ◌≤◌, ◌+◌, true, [], length};

use crate::homes::Home;
use crate::layouts::read_block;
use crate::moves::move_block;
use crate::plans::{MOST_PLACES, MOST_READS, Plan, Want};
use crate::roots::low_of;
use crate::shapes::Shape;
use crate::steps::{Step, step_of};
use arrayvec::ArrayVec;
use rx_seq::laws::quiet_calls_stay;
use rx_seq::{Call, Part, Reply, State, apply, quiet};

/// An attempt on a queue, an ordered list or registers in block form. It reads the length and then the numbers in
/// order. It stops before the end only where this is said:
///
/// - `Put` and `Take` read the length alone where the queue is full or empty, and else all words.
/// - `Has` stops at the first number that is not smaller, and so do `Insert` and `Remove` where nothing changes.
/// - `Read` stops at its register. `Shift` stops at the register that has too little, and where the sum does not fit or
///   nothing is moved at the later one of both.
/// - `Multi` stops where it has the registers of its rows up to the first row that differs. Where no row differs it
///   reads all registers, even if each row's new value is its old one.
///
/// Words that no state of the part has end it with `Stale` as soon as they are read. The plan of a quiet call keeps the
/// root, and writes and trades nothing. That of a loud call writes the next state into the own block, trades the two
/// blocks, and raises the tag.
///
/// `start`, `want` and `take` take constant time. `plan` takes constant time after a walk that stopped early, and else
/// time that grows with the capacity. Nothing takes memory.
#[derive(Debug, Drop)]
pub struct Blocks {
    home: Home,
    call: Call,
    words: ArrayVec<u64, MOST_READS>,
    step: Step,
    ghost form: { form_of home.part.kind ≡ block },
    ghost limits: { IsBounded home.part },
    ghost places: { home.first + home.count ≤ 16777216 },
    ghost fits: { fits_part home.part call ≡ true },
    ghost says: { IsStep home.part call words.items step },
}

impl Blocks {
    /// Makes it an attempt of another call, with no words taken, as `start` does. It clears no more than the words that
    /// were taken, so where an attempt follows another it costs less than a new one.
    pub fn restart(&mut self, part: Part, call: Call, first: u32, count: u32)
        requires { ServesBlocks (record { part = part; first = first; count = count }) call }
        ensures home { self.new.home ≡ record { part = part; first = first; count = count } }
        ensures call { self.new.call ≡ call }
        ensures words { self.new.words.items ≡ [] }
    {
        self.home = Home { part, first, count };
        self.call = call;
        self.words.clear();
        self.step = Step::Open;
    }
}

impl Shape for Blocks {
    ghost home = { λ s. s.home };

    ghost asked = { λ s. s.call };

    ghost next = { λ s root. next_want s.home s.step (low_in root) (length s.words.items) };

    ghost taken = { λ s root. at_run (low_in root) s.words.items };

    ghost room = { λ s. s.step ≡ Open };

    ghost serves = { λ home call. ServesBlocks home call };

    fn start(part: Part, call: Call, first: u32, count: u32) -> Blocks {
        Blocks {
            home: Home { part, first, count },
            call,
            words: ArrayVec::new(),
            step: Step::Open,
        }
    }

    fn want(&self, root: u64) -> Want {
        quiet_calls_stay();
        let low = low_of(root);
        if low + self.home.part.cap >= self.home.first + self.home.count {
            return Want::Stale;
        }
        match self.step {
            Step::Open => Want::Read {
                place: low + self.words.len() as u32,
            },
            Step::Broken => Want::Stale,
            Step::Kept { .. } | Step::Whole => Want::Ready,
        }
    }

    fn take(&mut self, word: u64) {
        self.words.push(word);
        self.step = step_of(self.home.part, self.call, self.words.as_slice());
    }

    fn plan(&self, root: u64, own: &ArrayVec<u32, MOST_PLACES>, out: &mut Plan) -> Reply {
        quiet_calls_stay();
        if let Step::Kept { reply } = self.step {
            out.stay(root);
            return reply;
        }
        let words = self.words.as_slice();
        let mut state = State::new();
        read_block(words, 0, &mut state);
        let reply = apply(self.home.part, &mut state, self.call);
        if quiet(self.call, reply) {
            out.stay(root);
        } else {
            move_block(root, own.as_slice(), state.as_slice(), out);
        }
        reply
    }
}
