// The events of seats on a shared table.
ghost use Rattle.rx_port.specs.Core.{traded_own};
ghost use Rattle.rx_port.specs.Plain.{lists};
ghost use Rattle.rx_shape.specs.Asks.{EachBelow};
ghost use Rattle.rx_table.specs.Tables.{IsSeatOf};
ghost use Rattle.rx_table.specs.Rule.{IsAt};
ghost use Rattle.std.specs.Prelude.{◌≡◌, ◌<◌, [], length, slice_index_or};

use crate::rules::Words;
use crate::seats::Seat;
use crate::steps::{begin, decide, read, write};
use rx_port::{Port, place_at, places_at, trade_at};
use rx_seq::Call;
use rx_shape::{Pair, Trade};
use std::marker::{Brand, Model};

/// A table that is lent for the events of its seats. Each event is one call of `atomic_table`, and so one atomic step
/// by reading this code, and always has room. Threads may lend one table at once, each with a seat of its own. `decide`
/// takes time that grows with the number of pairs, and each other event constant time.
#[derive(Drop)]
pub struct SharedPort<'a> {
    pub(crate) words: &'a Words,
}

impl<'a> Model for SharedPort<'a> {
    ghost use Rattle.rx_shape.specs.Layout.{IsLayout, words_of};
    ghost use Rattle.rx_table.specs.Tables.{SharedTable};
    ghost use Rattle.std.specs.Prelude.{◌≡◌};

    ghost Value = { SharedTable };

    ghost view = { λ p. record { layout = p.words.now.key; table = p.words.now.table_id } };

    ghost invariant = { λ p. IsLayout p.words.now.key × (p.words.now.table_id.words ≡ words_of p.words.now.key) };
}

impl<'a> Port for SharedPort<'a> {
    type Seat = Seat;

    ghost layout = { λ p. p.layout };

    ghost ours = { λ p seat. IsSeatOf p seat };

    ghost room = { λ n p. Unit {0} };

    ghost view = { λ p seat. seat.view };

    ghost stands = { λ p seat core. IsAt seat.view core };

    fn begin(&mut self, seat: &mut Seat, object: u32, call: Call) -> u64 {
        begin::<Brand>(self.words, &mut seat.token, object, call)
    }

    fn read(&mut self, seat: &mut Seat, _object: u32, place: u32) -> u64 {
        read::<Brand>(self.words, &mut seat.token, place)
    }

    fn write(&mut self, seat: &mut Seat, object: u32, own: u32, value: u64) {
        let place = place_at(&seat.own, object, own);
        write::<Brand>(self.words, &mut seat.token, own, place, value);
    }

    fn decide(
        &mut self,
        seat: &mut Seat,
        object: u32,
        expected: u64,
        new: u64,
        trade: &Trade,
    ) -> u64 {
        let pairs = trade.pairs.as_slice();
        let found = decide::<Brand>(self.words, &mut seat.token, object, expected, new, pairs);
        settle(&mut seat.own, found == expected, object, pairs);
        found
    }

    fn own(&self, seat: &Seat, object: u32, own: u32) -> u32 {
        place_at(&seat.own, object, own)
    }

    fn owned<'b>(&'b self, seat: &'b Seat, object: u32) -> &'b [u32] {
        places_at(&seat.own, object)
    }

    ghost room_less = { λ n p h. h };

    ghost owns_well = { λ p seat h. h.owns };
}

/// Trades own places if the exchange was won.
fn settle(own: &mut Vec<Vec<u32>>, won: bool, object: u32, pairs: &[Pair])
    requires object { object < length (lists own.old.items) }
    requires pairs { EachBelow (length (slice_index_or (lists own.old.items) object [])) pairs.now }
    ensures { lists own.new.items ≡ traded_own won (lists own.old.items) object pairs.now }
{
    if won {
        trade_at(own, object, pairs);
    }
}
