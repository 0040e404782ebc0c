// The four events, each one step on the words.
ghost use Rattle.rx_port.specs.Core.{own_of};
ghost use Rattle.rx_port.specs.Events.{Begun, Decided, DidRead, DidWrite, IsDecision};
ghost use Rattle.rx_seq.specs.History.{part_at};
ghost use Rattle.rx_seq.specs.Table.{fits_part};
ghost use Rattle.rx_shape.specs.Forms.{stock_size};
ghost use Rattle.rx_shape.specs.Versions.{NotWritten};
ghost use Rattle.rx_table.specs.Rule.{IsAt};
ghost use Rattle.std.specs.Prelude.{◌≡◌, ◌+◌, ◌<◌, Some, length, slice_index, true};

use crate::rules::{Begins, Decides, Reads, Token, Told, Words, Writes};
use rx_seq::Call;
use rx_shape::Pair;

/// Loads the root of an object. The call is for the contract alone.
pub fn begin<J: Told>(words: &Words, seat: &mut Token, object: u32, _call: Call) -> u64
    requires told { (J.layout ≡ words.now.key) × (J.object ≡ object) × (J.call ≡ _call) }
    requires own { (seat.old.table_id ≡ words.now.table_id) × (object + 1 < words.now.table_id.words) }
    requires exists { (object < length words.now.key.parts) × (fits_part (part_at words.now.key.parts object) _call ≡ true) × (seat.old.me.0.live ≡ true) }
    ensures same { (seat.new.table_id ≡ seat.old.table_id) × (seat.new.me.1 ≡ seat.old.me.1) }
    ensures event { Begun words.now.key (IsAt seat.old.me.0) (IsAt seat.new.me.0) seat.old.me.0 seat.new.me.0 object _call result }
{
    words.load::<Begins<J>>(seat, object as usize + 1)
}

/// Loads a place.
pub fn read<J: Told>(words: &Words, seat: &mut Token, place: u32) -> u64
    requires told { J.layout ≡ words.now.key }
    requires own { (seat.old.table_id ≡ words.now.table_id) × (place < words.now.table_id.words) }
    requires open { (seat.old.me.0.attempt ≡ Some J.attempt) × (seat.old.me.0.live ≡ true) }
    ensures same { (seat.new.table_id ≡ seat.old.table_id) × (seat.new.me.1 ≡ seat.old.me.1) }
    ensures event { DidRead words.now.key (IsAt seat.old.me.0) (IsAt seat.new.me.0) seat.old.me.0 seat.new.me.0 J.attempt place result }
{
    words.load::<Reads<J>>(seat, place as usize)
}

/// Stores into a place. The own number is for the contract alone.
pub fn write<J: Told>(words: &Words, seat: &mut Token, _own: u32, place: u32, value: u64)
    requires told { (J.layout ≡ words.now.key) × (J.own ≡ _own) × (place ≡ slice_index (own_of seat.old.me.0 J.attempt.object) J.own) }
    requires own { (seat.old.table_id ≡ words.now.table_id) × (place < words.now.table_id.words) × (0 < place) }
    requires open { (seat.old.me.0.attempt ≡ Some J.attempt) × (seat.old.me.0.live ≡ true) × (J.own < stock_size (part_at words.now.key.parts J.attempt.object)) × NotWritten J.own J.attempt.writes }
    ensures same { (seat.new.table_id ≡ seat.old.table_id) × (seat.new.me.1 ≡ seat.old.me.1) }
    ensures event { DidWrite words.now.key (IsAt seat.old.me.0) (IsAt seat.new.me.0) seat.old.me.0 seat.new.me.0 J.attempt J.own value }
{
    words.store::<Writes<J>>(seat, place as usize, value)
}

/// Exchanges the root of an object. The pairs are for the contract alone.
pub fn decide<J: Told>(
    words: &Words,
    seat: &mut Token,
    object: u32,
    expected: u64,
    new: u64,
    _pairs: &[Pair],
) -> u64
    requires told { (J.layout ≡ words.now.key) × (J.pairs ≡ _pairs.now) × (J.attempt.object ≡ object) × (J.attempt.expected ≡ expected) }
    requires own { (seat.old.table_id ≡ words.now.table_id) × (object + 1 < words.now.table_id.words) }
    requires decision { IsDecision words.now.key seat.old.me.0 J.attempt new J.pairs × (seat.old.me.0.live ≡ true) }
    ensures same { (seat.new.table_id ≡ seat.old.table_id) × (seat.new.me.1 ≡ seat.old.me.1) }
    ensures event { Decided words.now.key (IsAt seat.old.me.0) (IsAt seat.new.me.0) seat.old.me.0 seat.new.me.0 J.attempt new J.pairs result }
{
    words.compare_exchange::<Decides<J>>(seat, object as usize + 1, expected, new)
}
