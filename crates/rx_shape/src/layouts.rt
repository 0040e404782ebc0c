// The numbering of words and places.
ghost use Rattle.rx_seq.specs.History.{part_at};
ghost use Rattle.rx_seq.specs.Table.{IsPart};
ghost use Rattle.rx_shape.specs.Forms.{AreNodes, IsBlock, IsVersion, decoded, stock_size};
ghost use Rattle.rx_shape.specs.Layout.{Layout as Numbering, AreEnds, IsLayout, all_places, first_place, home, place_after, places_of, root_of, words_of};
ghost use Rattle.rx_shape.specs.Nodes.{first_of as first_in, values, walk};
ghost use Rattle.rx_shape.specs.Places.{read_run};
ghost use Rattle.rx_shape.specs.Start.{linked_at, start_at, start_place, start_word};
ghost use Rattle.std.specs.List.{All};
ghost use Rattle.std.specs.Prelude.{◌≡◌, ◌≤◌, ◌<◌, ◌+◌, ◌^◌, IfOk, [], length, slice_index};

use crate::nodes::{NO_PLACE, first_of, header, next_of, node, value_of};
use crate::plans::MOST_PLACES;
use crate::roots::{low_of, pack};
use arrayvec::ArrayVec;
use rx_seq::{Kind, NoMemory, Part, State};
use std::alloc::Global;
use std::marker::Model;

/// The parts of the objects, the number of seats, the tag at the start, and the numbering of all words that follows
/// from these: word 0, the roots of the objects, and the places of each object that is no cell. Objects are numbered
/// from 0. Clauses see the parts, the number of seats and the first tag. Beside these it keeps where the places of each
/// object begin and end, so that no call on one object looks at the others.
#[derive(Debug, Drop)]
pub struct Layout {
    parts: Vec<Part>,
    seats: u32,
    first: u64,
    ends: ArrayVec<u32, 17>,
}

impl Model for Layout {
    ghost use Rattle.rx_shape.specs.Layout.{Layout as Numbering, AreEnds, IsLayout};

    ghost Value = { Numbering };

    ghost view = { λ l. record { parts = l.parts.items; seats = l.seats; first = l.first } };

    ghost invariant = { λ l. IsLayout (record { parts = l.parts.items; seats = l.seats; first = l.first }) × AreEnds l.seats l.parts.items l.ends.items };
}

/// How many places a version of an object of this part has, and how many a seat owns of the object: 0 for a cell, and
/// else one more than the capacity. It takes constant time.
pub fn stock(part: Part) -> u32
    requires { IsPart part }
    ensures value { result ≡ stock_size part }
    ensures bound { result ≤ MOST_PLACES }
{
    match part.kind {
        Kind::Cell => 0,
        _ => part.cap + 1,
    }
}

/// How many places an object of this part has: a stock of its own and one for each seat.
fn places_in(part: Part, seats: u32) -> u32
    requires part { IsPart part }
    requires seats { seats ≤ 64 }
    ensures value { result ≡ places_of seats part }
    ensures bound { result ≤ 4225 }
{
    stock(part) * (seats + 1)
}

/// Where the places of the first so many objects end, for each number of objects from 0 on.
fn ends_of(parts: &[Part], seats: u32) -> ArrayVec<u32, 17>
    requires few { length parts.now ≤ 16 }
    requires parts { All IsPart parts.now }
    requires seats { seats ≤ 64 }
    ensures { AreEnds seats parts.now result.items }
{
    let mut place = parts.len() as u32 + 1;
    let mut ends = ArrayVec::new();
    ends.push(place);
    for object in 0..parts.len() {
        place += places_in(parts[object], seats);
        ends.push(place);
    }
    ends
}

impl Layout {
    /// The layout of these objects: at most 16 parts within their limits, 1 to 64 seats, and a first tag of at most 40
    /// bits, with which each object starts. `NoMemory` is the one refusal, where there is no memory for the parts. It takes
    /// time that grows with the number of objects.
    pub fn new(alloc: Global, parts: &[Part], seats: u32, first: u64) -> Result<Layout, NoMemory>
        requires { IsLayout (record { parts = parts.now; seats = seats; first = first }) }
        ensures { IfOk result (λ layout. layout ≡ record { parts = parts.now; seats = seats; first = first }) }
    {
        let ends = ends_of(parts, seats);
        let parts = match Vec::from_slice(alloc, parts) {
            Ok(parts) => parts,
            Err(_) => return Err(NoMemory),
        };
        Ok(Layout {
            parts,
            seats,
            first,
            ends,
        })
    }

    /// The parts of the objects, in order.
    pub fn parts(&self) -> &[Part]
        ensures parts { result.now ≡ self.now.parts }
        ensures limits { IsLayout self.now }
    {
        self.parts.as_slice()
    }

    /// The number of seats.
    pub fn seats(&self) -> u32
        ensures { result ≡ self.now.seats }
    {
        self.seats
    }

    /// The tag with which each object starts.
    pub fn first(&self) -> u64
        ensures { result ≡ self.now.first }
    {
        self.first
    }

    /// How many words there are, at most 67,617. It takes constant time.
    pub fn words(&self) -> u32
        ensures value { result ≡ words_of self.now }
        ensures bound { result ≤ 67617 }
    {
        self.place_after(self.parts.len() as u32)
    }

    /// Where the places of the first so many objects end.
    fn place_after(&self, object: u32) -> u32
        requires { object ≤ length self.now.parts }
        ensures value { result ≡ place_after self.now object }
        ensures bound { result ≤ 67617 }
    {
        self.ends[object as usize]
    }

    /// The object's first place, and 0 for a cell. It takes constant time.
    pub fn first_place(&self, object: u32) -> u32
        requires { object < length self.now.parts }
        ensures value { result ≡ first_place self.now object }
        ensures bound { result ≤ 67617 }
    {
        match self.parts[object as usize].kind {
            Kind::Cell => 0,
            _ => self.place_after(object),
        }
    }

    /// The number of the object's places, and 0 for a cell. It takes constant time.
    pub fn places(&self, object: u32) -> u32
        requires { object < length self.now.parts }
        ensures value { result ≡ places_of self.now.seats (part_at self.now.parts object) }
        ensures bound { result ≤ 4225 }
    {
        places_in(self.parts[object as usize], self.seats)
    }

    /// The first value of a word: 0 for word 0, and the first tag with the value 0 or the object's first place for a root.
    /// The first place of registers has their number. That of a queue or a list has a header with no node, and as many spare
    /// nodes as the capacity follow it, each linked to the next one. Every other place has 0. It takes time that grows with
    /// the number of objects.
    pub fn start_word(&self, word: u32) -> u64
        requires { word < words_of self.now }
        ensures { result ≡ start_word self.now word }
    {
        if word == 0 {
            return 0;
        }
        if word <= self.parts.len() as u32 {
            return pack(self.first, self.first_place(word - 1));
        }
        self.start_place(word)
    }

    /// The first value of a place.
    fn start_place(&self, place: u32) -> u64
        requires places { length self.now.parts < place }
        requires words { place < words_of self.now }
        ensures { result ≡ start_place self.now place (length self.now.parts) }
    {
        let mut first = self.parts.len() as u32 + 1;
        for object in 0..self.parts.len() {
            let part = self.parts[object];
            let count = places_in(part, self.seats);
            if place < first + count {
                return start_value(part, first, place);
            }
            first += count;
        }
        unreachable!()
    }

    /// Makes the state the one that the object's root stands for, whatever it was. There are as many words as the layout
    /// says, and the root with its live places and their words is a version. It takes time that grows with the length
    /// of the state, and no memory.
    pub fn decode(&self, words: &[u64], object: u32, state: &mut State)
        requires object { object < length self.now.parts }
        requires words { length words.now ≡ words_of self.now }
        requires version { IsVersion (home self.now object) (root_of words.now object) words.now }
        ensures { state.new.items ≡ decoded (home self.now object) (root_of words.now object) words.now }
    {
        let low = low_of(words[object as usize + 1]);
        state.clear();
        let part = self.parts[object as usize];
        match part.kind {
            Kind::Cell => state.push(low),
            Kind::Queue | Kind::List => read_nodes(words, low, part.cap, state),
            Kind::Registers => read_block(words, low, state),
        }
    }
}

/// The first value of a place of an object that has its places from the first one on.
fn start_value(part: Part, first: u32, place: u32) -> u64
    requires part { IsPart part }
    requires place { place < 67617 }
    requires from { first ≤ place }
    ensures { result ≡ start_at (record { part = part; first = first; count = 0 }) place }
{
    match part.kind {
        Kind::Cell => 0,
        Kind::Queue | Kind::List => start_link(first, part.cap, place),
        Kind::Registers if place == first => u64::from(part.cap),
        Kind::Registers => 0,
    }
}

/// The first value of a place of nodes, which are all spare.
fn start_link(first: u32, cap: u32, place: u32) -> u64
    requires cap { cap ≤ 64 }
    requires place { place < 67617 }
    requires from { first ≤ place }
    ensures { result ≡ linked_at first cap place }
{
    if place == first {
        header(NO_PLACE, first + 1)
    } else if place < first + cap {
        node(0, place + 1)
    } else if place == first + cap {
        node(0, NO_PLACE)
    } else {
        0
    }
}

/// Adds the values of the nodes that the header at a place leads to, to an empty state.
fn read_nodes(words: &[u64], low: u32, cap: u32, state: &mut State)
    requires empty { state.old.items ≡ [] }
    requires nodes { AreNodes words.now low cap }
    ensures { state.new.items ≡ values words.now (walk cap words.now (first_in (slice_index words.now low))) }
{
    let mut place = first_of(words[low as usize]);
    for _turn in 0..cap {
        if place == NO_PLACE {
            return;
        }
        let word = words[place as usize];
        state.push(value_of(word));
        place = next_of(word);
    }
}

/// Adds the numbers of a block to an empty state.
pub(crate) fn read_block(words: &[u64], first: u32, state: &mut State)
    requires empty { state.old.items ≡ [] }
    requires block { IsBlock words.now first }
    ensures { state.new.items ≡ read_run words.now (first + 1) (slice_index words.now first) }
{
    let length = words[first as usize];
    for number in 0..length as usize {
        state.push(words[first as usize + 1 + number] as u32);
    }
}
