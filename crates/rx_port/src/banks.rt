// Words in a plain vector, and each seat's open attempt and own places.
ghost use Rattle.rx_port.specs.Core.{tag_after};
ghost use Rattle.rx_port.specs.Lawful.{Lawful};
ghost use Rattle.rx_port.specs.Plain.{view_at, HasRoom, IsSeatOf, less_room};
ghost use Rattle.rx_port.specs.Seats.{no_counts, seated};
ghost use Rattle.rx_seq.specs.History.{replay};
ghost use Rattle.rx_seq.specs.declared.entries.Entry.{Entry};
ghost use Rattle.rx_shape.specs.Forms.{decoded};
ghost use Rattle.rx_shape.specs.Layout.{IsLayout, home, root_of};
ghost use Rattle.rx_shape.specs.Start.{IsStart};
ghost use Rattle.rx_shape.specs.Words.{tag_of as tag_in};
ghost use Rattle.std.specs.Prelude.{ℕ, ◌≡◌, ◌<◌, ◌==◌, if◌then◌else◌, IfOk, List, [], Some, length};

use crate::ports::Port;
use crate::seat_states;
use crate::seat_states::SeatState;
use crate::starts::{start_seats, start_words};
use crate::trades::{place_at, places_at};
use crate::views::Counts;
use rx_seq::{Call, NoMemory, State};
use rx_shape::{Layout, Taken, Trade, Write, tag_of};
use std::alloc::Global;
use std::marker::Model;

/// All words of a layout in a plain vector, with the open attempt and the own places of each seat, and counts of the
/// events. Clauses see the layout, the words, the seats and the counts. It has room for events where each count is below
/// 2^63. Each event takes constant time, but for `begin`, whose time grows with the words that the seat's attempt before
/// it read and wrote, and `decide`, whose time grows with the number of pairs.
#[derive(Drop)]
pub struct Bank {
    layout: Layout,
    words: Vec<u64>,
    seats: Vec<SeatState>,
    counts: Counts,
}

impl Model for Bank {
    ghost use Rattle.rx_port.specs.Plain.{Whole, whole_of, IsBank};

    ghost Value = { Whole };

    ghost view = { λ b. whole_of b.layout b.words.items b.seats.items b.counts };

    ghost invariant = { λ b. IsBank (whole_of b.layout b.words.items b.seats.items b.counts) };
}

impl Bank {
    /// The bank of a layout: the words of the start, and each seat with its places of the start and no open attempt. All
    /// counts are 0. `NoMemory` is the one refusal, and then the layout is dropped. It takes time that grows with the
    /// number of words times the number of objects.
    pub fn new(alloc: Global, layout: Layout) -> Result<Bank, NoMemory>
        ensures layout { IfOk result (λ bank. bank.layout ≡ layout) }
        ensures counts { IfOk result (λ bank. bank.core.counts ≡ Some no_counts) }
        ensures seats { IfOk result (λ bank. bank.core.views ≡ seated layout layout.seats) }
        ensures words { IfOk result (λ bank. IsStart layout bank.core.words) }
        ensures lawful { IfOk result (λ bank. Lawful layout bank.core.words bank.core.views []) }
        ensures ours { IfOk result (λ bank. (seat : ℕ) → seat < layout.seats → IsSeatOf bank seat) }
    {
        let _parts = layout.parts();
        let words = start_words(alloc, &layout)?;
        let seats = start_seats(alloc, &layout)?;
        Ok(Bank {
            layout,
            words,
            seats,
            counts: Counts::default(),
        })
    }

    /// What its words stand for. Each number below that of its seats names a seat of the bank. It takes constant time.
    pub fn layout(&self) -> &Layout
        ensures layout { result.now ≡ self.now.layout }
        ensures limits { IsLayout self.now.layout }
        ensures many { length self.now.core.views ≡ self.now.layout.seats }
        ensures ours { (seat : ℕ) → seat < self.now.layout.seats → IsSeatOf self.now seat }
        ensures lawful { (history : List Entry) × Lawful self.now.layout self.now.core.words self.now.core.views history }
    {
        &self.layout
    }

    /// How many events were made. It takes constant time.
    pub fn counts(&self) -> Counts
        ensures { self.now.core.counts ≡ Some result }
    {
        self.counts
    }

    /// The version tag of an object that is there: the first tag and the number of loud entries on it. It takes constant time.
    pub fn tag(&self, object: u32) -> u64
        requires { object < length self.now.layout.parts }
        ensures root { result ≡ tag_in (root_of self.now.core.words object) }
        ensures history { (history : List Entry) → Lawful self.now.layout self.now.core.words self.now.core.views history → result ≡ tag_after self.now.layout history object }
    {
        tag_of(self.words[object as usize + 1])
    }

    /// Makes the state that of an object that is there, whatever it was. It takes time that grows with the length of the state.
    pub fn state(&self, object: u32, state: &mut State)
        requires { object < length self.now.layout.parts }
        ensures root { state.new.items ≡ decoded (home self.now.layout object) (root_of self.now.core.words object) self.now.core.words }
        ensures history { (history : List Entry) → Lawful self.now.layout self.now.core.words self.now.core.views history → state.new.items ≡ replay self.now.layout.parts object history }
    {
        self.layout.decode(self.words.as_slice(), object, state);
    }
}

impl Port for Bank {
    type Seat = u32;

    ghost layout = { λ b. b.layout };

    ghost ours = { λ b seat. IsSeatOf b seat };

    ghost room = { λ n b. HasRoom n b.core };

    ghost view = { λ b seat. view_at b.core seat };

    ghost stands = { λ b seat core. core ≡ b.core };

    fn begin(&mut self, seat: &mut u32, object: u32, call: Call) -> u64 {
        let root = self.words[object as usize + 1];
        seat_states::begin(&mut self.seats[*seat as usize], object, call, root);
        self.counts.loads += 1;
        root
    }

    fn read(&mut self, seat: &mut u32, object: u32, place: u32) -> u64 {
        let word = self.words[place as usize];
        seat_states::read(&mut self.seats[*seat as usize], Taken { place, word });
        self.counts.loads += 1;
        word
    }

    fn write(&mut self, seat: &mut u32, object: u32, own: u32, value: u64) {
        let place = place_at(&self.seats[*seat as usize].own, object, own);
        self.words[place as usize] = value;
        seat_states::write(&mut self.seats[*seat as usize], Write { own, value });
        self.counts.stores += 1;
    }

    fn decide(
        &mut self,
        seat: &mut u32,
        object: u32,
        expected: u64,
        new: u64,
        trade: &Trade,
    ) -> u64 {
        let found = self.words[object as usize + 1];
        self.words[object as usize + 1] = exchange(found, expected, new);
        seat_states::decide(
            &mut self.seats[*seat as usize],
            object,
            trade.pairs.as_slice(),
            found == expected,
        );
        self.counts.exchanges += 1;
        found
    }

    fn own(&self, seat: &u32, object: u32, own: u32) -> u32 {
        place_at(&self.seats[*seat as usize].own, object, own)
    }

    fn owned<'a>(&'a self, seat: &'a u32, object: u32) -> &'a [u32] {
        places_at(&self.seats[*seat as usize].own, object)
    }

    ghost room_less = { λ n b h. less_room n b.core h };

    ghost owns_well = { λ b seat h. h.owns };
}

/// What an exchange leaves.
fn exchange(found: u64, expected: u64, new: u64) -> u64
    ensures { result ≡ (if found == expected then new else found) }
{
    if found == expected { new } else { found }
}
