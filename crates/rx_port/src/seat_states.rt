// What a bank keeps of a seat.
ghost use Rattle.rx_port.specs.Core.{new_attempt, read_view, traded_own, written_view};
ghost use Rattle.rx_port.specs.Plain.{view_of};
ghost use Rattle.rx_port.specs.declared.views.Attempt.{Attempt};
ghost use Rattle.rx_shape.specs.Asks.{EachBelow};
ghost use Rattle.std.specs.Prelude.{◌≡◌, ◌<◌, [], length, slice_index_or, Some, None};

use crate::trades::trade_at;
use arrayvec::ArrayVec;
use rx_seq::Call;
use rx_shape::{MOST_PLACES, MOST_READS, Pair, Taken, Write};

/// The object and the call of an open attempt, and the root that it expects.
#[derive(Clone, Copy)]
pub struct Opened {
    pub object: u32,
    pub call: Call,
    pub expected: u64,
}

/// A seat's number, its open attempt with the words that it read and wrote, and its own places for each object.
#[derive(Drop)]
pub struct SeatState {
    pub number: u32,
    pub open: Option<Opened>,
    pub reads: ArrayVec<Taken, MOST_READS>,
    pub writes: ArrayVec<Write, MOST_PLACES>,
    pub own: Vec<Vec<u32>>,
}

/// Opens an attempt.
pub fn begin(seat: &mut SeatState, object: u32, call: Call, root: u64)
    ensures { view_of seat.new ≡ record (view_of seat.old) { attempt = Some (new_attempt object call root) } }
{
    seat.open = Some(Opened {
        object,
        call,
        expected: root,
    });
    seat.reads.clear();
    seat.writes.clear();
}

/// Adds a word that was read.
pub fn read(seat: &mut SeatState, taken: Taken)
    requires { length seat.old.reads.items < MOST_READS }
    ensures { (attempt : Attempt) → (view_of seat.old).attempt ≡ Some attempt → view_of seat.new ≡ read_view (view_of seat.old) attempt taken }
{
    seat.reads.push(taken);
}

/// Adds a word that was written.
pub fn write(seat: &mut SeatState, write: Write)
    requires { length seat.old.writes.items < MOST_PLACES }
    ensures { (attempt : Attempt) → (view_of seat.old).attempt ≡ Some attempt → view_of seat.new ≡ written_view (view_of seat.old) attempt write }
{
    seat.writes.push(write);
}

/// Ends the attempt, and trades own places if it won.
pub fn decide(seat: &mut SeatState, object: u32, pairs: &[Pair], won: bool)
    requires object { object < length (view_of seat.old).own }
    requires pairs { EachBelow (length (slice_index_or (view_of seat.old).own object [])) pairs.now }
    ensures { view_of seat.new ≡ record (view_of seat.old) { attempt = None; own = traded_own won (view_of seat.old).own object pairs.now } }
{
    seat.open = None;
    if won {
        trade_at(&mut seat.own, object, pairs);
    }
}
