// The events of a seat.
ghost use Rattle.rx_seq.specs.History.{part_at};
ghost use Rattle.rx_seq.specs.Table.{fits_part};
ghost use Rattle.rx_shape.specs.Forms.{stock_size, InRange};
ghost use Rattle.rx_shape.specs.Layout.{Layout, home};
ghost use Rattle.rx_port.specs.Core.{own_of};
ghost use Rattle.rx_port.specs.Events.{Begun, DidRead, DidWrite, Decided, IsOpen, IsWritable, IsReady, OwnsWell};
ghost use Rattle.rx_port.specs.Ports.{KeepsSeats};
ghost use Rattle.rx_port.specs.declared.views.Attempt.{Attempt};
ghost use Rattle.rx_port.specs.declared.views.Core.{Core};
ghost use Rattle.rx_port.specs.declared.views.View.{View};
ghost use Rattle.std.specs.Prelude.{ℕ, ◌≡◌, ◌+◌, ◌<◌, true, Some, length, slice_index};

use rx_seq::Call;
use rx_shape::Trade;

/// Where an attempt makes its events: a plain bank, or a table that seats share. An attempt loads the object's root and
/// the places that it names, writes a private copy and swings the root by one conditional store (Herlihy, 1993; here a
/// compare-and-exchange of a root that carries a version tag). Each event finds the words and the seats in a state that
/// is lawful for some history, and tells what it makes of them: of one word at most, and of the view of its own seat.
/// That they stay lawful is a law (`laws::events_keep_the_law`). Each event wants a port that has room for one more,
/// which each implementation says. It leaves the port its layout and its seats, and room for one event less. Events of
/// other seats may come between two events. All objects are numbered from 0.
pub trait Port {
    /// A seat of the bank or table. It has the open attempt and the own places.
    type Seat;

    // What the words stand for.
    ghost layout: { Self → Layout };

    // The seat is one of this port.
    ghost ours: { Self → Self.Seat → Type 0 };

    // So many more events have room.
    ghost room: { ℕ → Self → Type 0 };

    // What the seat has open and owns, and what it knows.
    ghost view: { Self → Self.Seat → View };

    // These may be the words and the seats at an event on this port and seat.
    ghost stands: { Self → Self.Seat → Core → Type 0 };

    /// Loads the object's root, and opens an attempt of this call, which fits the object. An earlier open attempt of the
    /// seat is dropped.
    fn begin(&mut self, seat: &mut Self::Seat, object: u32, call: Call) -> u64
        requires ours { ours self.old seat.old }
        requires exists { object < length (layout self.old).parts }
        requires fits { fits_part (part_at (layout self.old).parts object) call ≡ true }
        requires room { room 1 self.old }
        ensures event { Begun (layout self.old) (stands self.old seat.old) (stands self.new seat.new) (view self.old seat.old) (view self.new seat.new) object call result }
        ensures port { KeepsSeats layout ours room self.old self.new seat.new };

    /// Loads a place of the object. The seat has an open attempt on the object, which read fewer than the capacity and 2
    /// words.
    fn read(&mut self, seat: &mut Self::Seat, object: u32, place: u32) -> u64
        requires ours { ours self.old seat.old }
        requires exists { object < length (layout self.old).parts }
        requires open { IsOpen (layout self.old) (view self.old seat.old) object }
        requires range { InRange (home (layout self.old) object) place }
        requires room { room 1 self.old }
        ensures event { (attempt : Attempt) → (view self.old seat.old).attempt ≡ Some attempt → DidRead (layout self.old) (stands self.old seat.old) (stands self.new seat.new) (view self.old seat.old) (view self.new seat.new) attempt place result }
        ensures port { KeepsSeats layout ours room self.old self.new seat.new };

    /// Stores into the own place with this number. The seat has an open attempt on the object, which wrote nothing under
    /// this number.
    fn write(&mut self, seat: &mut Self::Seat, object: u32, own: u32, value: u64)
        requires ours { ours self.old seat.old }
        requires exists { object < length (layout self.old).parts }
        requires open { IsWritable (layout self.old) (view self.old seat.old) object own }
        requires room { room 1 self.old }
        ensures event { (attempt : Attempt) → (view self.old seat.old).attempt ≡ Some attempt → DidWrite (layout self.old) (stands self.old seat.old) (stands self.new seat.new) (view self.old seat.old) (view self.new seat.new) attempt own value }
        ensures port { KeepsSeats layout ours room self.old self.new seat.new };

    /// Exchanges the object's root for the new one if it is the expected one, and answers the root that it found. If it
    /// is the expected one, each pair of the trade makes the own place with its number the given place; else nothing
    /// changes. The new root and the trade are those of a plan for the words that the attempt read, whose writes were
    /// made; or no version with the expected root has these words, the trade is empty and the new root is any. The
    /// attempt ends. This is a compare-and-exchange (CAS), and the version tag of a root is there against the ABA problem.
    fn decide(
        &mut self,
        seat: &mut Self::Seat,
        object: u32,
        expected: u64,
        new: u64,
        trade: &Trade,
    ) -> u64
        requires ours { ours self.old seat.old }
        requires exists { object < length (layout self.old).parts }
        requires ready { IsReady (layout self.old) (view self.old seat.old) object expected new trade.now.pairs.items }
        requires room { room 1 self.old }
        ensures event { (attempt : Attempt) → (view self.old seat.old).attempt ≡ Some attempt → Decided (layout self.old) (stands self.old seat.old) (stands self.new seat.new) (view self.old seat.old) (view self.new seat.new) attempt new trade.now.pairs.items result }
        ensures port { KeepsSeats layout ours room self.old self.new seat.new };

    /// The place that the seat owns under this number. The object is no cell. It makes no event.
    fn own(&self, seat: &Self::Seat, object: u32, own: u32) -> u32
        requires ours { ours self.now seat.now }
        requires exists { object < length (layout self.now).parts }
        requires below { own < stock_size (part_at (layout self.now).parts object) }
        ensures { result ≡ slice_index (own_of (view self.now seat.now) object) own };

    /// All places that the seat owns of the object, in the order of their numbers: none of a cell. It makes no event, and
    /// takes constant time.
    fn owned<'a>(&'a self, seat: &'a Self::Seat, object: u32) -> &'a [u32]
        requires ours { ours self.now seat.now }
        requires exists { object < length (layout self.now).parts }
        ensures { result.now ≡ own_of (view self.now seat.now) object };

    // Where more events have room, fewer have.
    ghost room_less: { (n : ℕ) (port : Self) → room (n + 1) port → room n port };

    // The own places of a seat are different places of each object's range.
    ghost owns_well: { (port : Self) (seat : Self.Seat) → ours port seat → OwnsWell (layout port) (view port seat) };
}
