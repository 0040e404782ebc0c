// A shared table.
ghost use Rattle.rx_shape.specs.Layout.{IsLayout, words_of};
ghost use Rattle.rx_table.specs.Tables.{AreNew, AreSeats, SeatView, new_seat};
ghost use Rattle.rx_table.specs.Closings.{HasSeen};
ghost use Rattle.std.specs.Prelude.{ℕ, ◌≡◌, ◌<◌, IfOk, IfErr, length};
ghost use mathlib.Core.Option.{some};
ghost use lib.ListN.{get_elem?};

use crate::closings::{Closed, finish};
use crate::joins::{another, gather};
use crate::ports::SharedPort;
use crate::rules::{Law, Words};
use crate::seats::Seat;
use atomic_table::Table;
use rx_port::{View, own_of_seat, start_words};
use rx_seq::NoMemory;
use rx_shape::Layout;
use std::alloc::Global;
use std::marker::Model;

/// The words of a layout, which threads share, with a seat for each thread. Contracts see the layout, and which table it
/// is.
#[derive(Drop)]
pub struct Shared {
    layout: Layout,
    table: Table<u8, View, Layout, Law, Global>,
}

impl Model for Shared {
    ghost use Rattle.rx_shape.specs.Layout.{IsLayout, words_of};
    ghost use Rattle.rx_table.specs.Tables.{SharedTable};
    ghost use Rattle.std.specs.Prelude.{◌≡◌};

    ghost Value = { SharedTable };

    ghost view = { λ s. record { layout = s.layout; table = s.table.shared.table_id } };

    ghost invariant = { λ s. (s.table.shared.key ≡ s.layout) × IsLayout s.layout × (s.table.shared.table_id.words ≡ words_of s.layout) × (s.table.shared.table_id.slots ≡ 0) };
}

/// A new table with all its seats, in the order of their numbers.
#[derive(Drop)]
pub struct Opened {
    pub shared: Shared,
    pub seats: Vec<Seat>,
}

/// There was no memory to close a table. It and all its seats are as before, in the same order.
#[derive(Drop)]
pub struct Kept {
    pub shared: Shared,
    pub seats: Vec<Seat>,
}

impl Shared {
    /// A table with the words of the start, and one seat for each seat of the layout, in order. `NoMemory` is the one
    /// refusal, and then the layout is dropped. It takes time that grows with the number of words times the number of
    /// objects.
    pub fn new(alloc: Global, layout: Layout) -> Result<Opened, NoMemory>
        ensures layout { IfOk result (λ opened. opened.shared.layout ≡ layout) }
        ensures seats { IfOk result (λ opened. AreSeats opened.shared opened.seats.items) }
        ensures fresh { IfOk result (λ opened. AreNew opened.shared opened.seats.items) }
    {
        let words = start_words(alloc, &layout)?;
        let own = own_of_seat(alloc, &layout, 0)?;
        let (table, token) = match Table::of_words(alloc, words.as_slice(), &layout) {
            Ok(pair) => pair,
            Err(_) => return Err(NoMemory),
        };
        let seats = all_seats(alloc, &layout, &table.shared, Seat { token, own })?;
        Ok(Opened {
            shared: Shared { layout, table },
            seats,
        })
    }

    /// Lends the table, for the events of its seats. It takes constant time.
    pub fn port<'a>(&'a self) -> SharedPort<'a>
        ensures { result ≡ self.now }
    {
        SharedPort {
            words: &self.table.shared,
        }
    }

    /// What its words stand for. It takes constant time.
    pub fn layout(&self) -> &Layout
        ensures layout { result.now ≡ self.now.layout }
        ensures limits { IsLayout self.now.layout }
    {
        &self.layout
    }

    /// Closes the table with all its seats, in the order of their numbers. The history of the closed table begins with
    /// all that each seat has seen, and its entries of each seat are that seat's own. `Kept` is the one refusal: there is
    /// no memory for a copy of the words, no seat was joined, and it gives back the table and the seats as they were, to
    /// be used on or to be closed later. It takes time that grows with the number of words, and makes one load of word 0
    /// for each seat that is joined, which are all but the first.
    pub fn close(self, alloc: Global, seats: Vec<Seat>) -> Result<Closed, Kept>
        requires { AreSeats self seats.items }
        ensures layout { IfOk result (λ closed. closed.layout ≡ self.layout) }
        ensures seats { IfOk result (λ closed. (number : ℕ) (seat : SeatView) → get_elem? seats.items number ≡ some seat → HasSeen closed.history seat.view) }
        ensures kept { IfErr result (λ kept. (kept.shared ≡ self) × (kept.seats.items ≡ seats.items)) }
    {
        let count = self.layout.words() as usize;
        match Vec::from_elem(alloc, 0, count) {
            Ok(words) => Ok(self.end(seats, words)),
            Err(_) => Err(Kept {
                shared: self,
                seats,
            }),
        }
    }

    /// Joins the seats, the last one into the one before it and so on down to the first, and closes the table. There are as many words as the table has.
    fn end(self, seats: Vec<Seat>, words: Vec<u64>) -> Closed
        requires seats { AreSeats self seats.items }
        requires words { length words.items ≡ words_of self.layout }
        ensures layout { result.layout ≡ self.layout }
        ensures seats { (number : ℕ) (seat : SeatView) → get_elem? seats.items number ≡ some seat → HasSeen result.history seat.view }
    {
        let Shared { layout, table } = self;
        let last = gather(&table.shared, seats);
        finish(layout, table, last, words)
    }
}

/// All seats of the words, of which the first is given.
fn all_seats(
    alloc: Global,
    layout: &Layout,
    words: &Words,
    first: Seat,
) -> Result<Vec<Seat>, NoMemory>
    requires words { (words.now.key ≡ layout.now) × (0 < words.now.table_id.words) }
    requires first { first ≡ new_seat (record { layout = layout.now; table = words.now.table_id }) 1 0 }
    ensures many { IfOk result (λ seats. length seats.items ≡ layout.now.seats) }
    ensures fresh { IfOk result (λ seats. AreNew (record { layout = layout.now; table = words.now.table_id }) seats.items) }
{
    // That the layout is in its limits, so that there is a first seat.
    let _parts = layout.parts();
    let mut seats = Vec::new(alloc);
    match seats.push(first) {
        Ok(()) => {}
        Err(_) => return Err(NoMemory),
    }
    for number in 1..layout.seats() {
        let own = own_of_seat(alloc, layout, number)?;
        let seat = another(words, &mut seats[0], own);
        match seats.push(seat) {
            Ok(()) => {}
            Err(_) => return Err(NoMemory),
        }
    }
    Ok(seats)
}
