// Making a seat, and joining one into another, each one step on word 0.
ghost use Rattle.rx_port.specs.Plain.{lists};
ghost use Rattle.rx_port.specs.Seats.{starts};
ghost use Rattle.rx_table.specs.Tables.{SeatView, IsSeatOf, carried};
ghost use Rattle.rx_table.specs.Seats.{CanMake, carries, made, maker, next_of, taker};
ghost use Rattle.std.specs.Prelude.{ℕ, ◌≡◌, ◌<◌, true, [], length};
ghost use mathlib.Core.Option.{some};
ghost use lib.ListN.{get_elem?};

use crate::rules::{Makes, Takes, Token, Told, Words};
use crate::seats::Seat;
use std::marker::Brand;

/// Makes the next seat of the words.
fn make<J: Told>(words: &Words, seat: &mut Token) -> Token
    requires told { J.layout ≡ words.now.key }
    requires own { (seat.old.table_id ≡ words.now.table_id) × (0 < words.now.table_id.words) }
    requires next { CanMake words.now.key seat.old.me.0 × (seat.old.me.0.live ≡ true) }
    ensures same { (seat.new.table_id ≡ seat.old.table_id) × (result.table_id ≡ seat.old.table_id) }
    ensures made { (seat.new.me ≡ (maker seat.old.me.0, seat.old.me.1)) × (result.me ≡ (made words.now.key seat.old.me.0, [])) }
{
    words.split_seat::<Makes<J>>(seat)
}

/// Makes the next seat, which has these places of the start of its number.
pub fn another(words: &Words, seat: &mut Seat, own: Vec<Vec<u32>>) -> Seat
    requires table { (seat.old.table ≡ words.now.table_id) × (0 < words.now.table_id.words) }
    requires next { CanMake words.now.key seat.old.view × (seat.old.view.live ≡ true) }
    requires own { lists own.items ≡ starts words.now.key (next_of seat.old.view.next) 0 words.now.key.parts }
    ensures maker { seat.new ≡ record { view = maker seat.old.view; table = words.now.table_id } }
    ensures made { result ≡ record { view = made words.now.key seat.old.view; table = words.now.table_id } }
{
    let token = make::<Brand>(words, &mut seat.token);
    Seat { token, own }
}

/// The seat after it took the other one in, with its places and histories.
fn take_in(words: &Words, seat: Seat, other: Seat) -> Seat
    requires words { 0 < words.now.table_id.words }
    requires seat { IsSeatOf (record { layout = words.now.key; table = words.now.table_id }) seat }
    requires other { IsSeatOf (record { layout = words.now.key; table = words.now.table_id }) other }
    ensures seat { IsSeatOf (record { layout = words.now.key; table = words.now.table_id }) result }
    ensures taker { result.view ≡ taker seat.view other.view }
{
    let Seat { mut token, own } = seat;
    let Seat {
        token: taken,
        own: _,
    } = other;
    words.join_seat::<Takes>(&mut token, taken);
    Seat { token, own }
}

/// The first seat after it took all others in.
pub fn gather(words: &Words, mut seats: Vec<Seat>) -> Seat
    requires some { 0 < length seats.items }
    requires words { 0 < words.now.table_id.words }
    requires seats { (number : ℕ) (seat : SeatView) → get_elem? seats.items number ≡ some seat → IsSeatOf (record { layout = words.now.key; table = words.now.table_id }) seat }
    ensures seat { IsSeatOf (record { layout = words.now.key; table = words.now.table_id }) result }
    ensures carries { carries result.view ≡ carried seats.items }
{
    let Some(mut last) = seats.pop() else {
        unreachable!()
    };
    while let Some(seat) = seats.pop() {
        last = take_in(words, seat, last);
    }
    last
}
