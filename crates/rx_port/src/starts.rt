// The words and the seats of the start.
ghost use Rattle.rx_port.specs.Plain.{lists, view_of};
ghost use Rattle.rx_port.specs.Seats.{seated, starts};
ghost use Rattle.rx_shape.specs.Forms.{start_own};
ghost use Rattle.rx_shape.specs.Layout.{home};
ghost use Rattle.rx_shape.specs.Start.{IsStart};
ghost use Rattle.std.specs.Prelude.{◌≡◌, ◌<◌, IfOk, length, map};

use crate::seat_states::SeatState;
use arrayvec::ArrayVec;
use rx_seq::NoMemory;
use rx_shape::{Layout, stock};
use std::alloc::Global;

/// The words of the start. It takes time that grows with the number of words times the number of objects.
pub fn start_words(alloc: Global, layout: &Layout) -> Result<Vec<u64>, NoMemory>
    ensures { IfOk result (λ words. IsStart layout.now words.items) }
{
    let mut words = Vec::new(alloc);
    for word in 0..layout.words() {
        match words.push(layout.start_word(word)) {
            Ok(()) => {}
            Err(_) => return Err(NoMemory),
        }
    }
    Ok(words)
}

/// The places of the start that a seat owns of an object.
fn own_places(alloc: Global, layout: &Layout, seat: u32, object: u32) -> Result<Vec<u32>, NoMemory>
    requires seat { seat < layout.now.seats }
    requires object { object < length layout.now.parts }
    ensures { IfOk result (λ own. own.items ≡ start_own (home layout.now object) seat) }
{
    let count = stock(layout.parts()[object as usize]);
    let first = layout.first_place(object) + (seat + 1) * count;
    let mut own = Vec::new(alloc);
    for number in 0..count {
        match own.push(first + number) {
            Ok(()) => {}
            Err(_) => return Err(NoMemory),
        }
    }
    Ok(own)
}

/// The places of the start that a seat owns, for each object. It takes time that grows with the number of places.
pub fn own_of_seat(alloc: Global, layout: &Layout, seat: u32) -> Result<Vec<Vec<u32>>, NoMemory>
    requires { seat < layout.now.seats }
    ensures { IfOk result (λ own. lists own.items ≡ starts layout.now seat 0 layout.now.parts) }
{
    let mut own = Vec::new(alloc);
    for object in 0..layout.parts().len() {
        let places = own_places(alloc, layout, seat, object as u32)?;
        match own.push(places) {
            Ok(()) => {}
            Err(_) => return Err(NoMemory),
        }
    }
    Ok(own)
}

/// The seats of the start, in order.
pub fn start_seats(alloc: Global, layout: &Layout) -> Result<Vec<SeatState>, NoMemory>
    ensures { IfOk result (λ seats. map view_of seats.items ≡ seated layout.now layout.now.seats) }
{
    let mut seats = Vec::new(alloc);
    for seat in 0..layout.seats() {
        let own = own_of_seat(alloc, layout, seat)?;
        let state = SeatState {
            number: seat,
            open: None,
            reads: ArrayVec::new(),
            writes: ArrayVec::new(),
            own,
        };
        match seats.push(state) {
            Ok(()) => {}
            Err(_) => return Err(NoMemory),
        }
    }
    Ok(seats)
}
