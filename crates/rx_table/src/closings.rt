// A closed table: the last words, and the history that they stand for.
ghost use Rattle.rx_port.specs.Core.{tag_after};
ghost use Rattle.rx_seq.specs.History.{replay};
ghost use Rattle.rx_seq.specs.declared.entries.Entry.{Entry};
ghost use Rattle.rx_shape.specs.Layout.{IsLayout, words_of};
ghost use Rattle.rx_table.specs.Tables.{IsSeatOf};
ghost use Rattle.rx_table.specs.Closings.{Carried, Closing, HasEnded};
ghost use Rattle.rx_table.specs.Seats.{carries};
ghost use Rattle.rx_port.specs.declared.views.Joined.{Joined};
ghost use Rattle.std.specs.Mem.Slots.{slots_items, slots_len, IsFull};
ghost use Rattle.std.specs.Prelude.{ℕ, ◌≡◌, ◌<◌, List, [], length, slice_index};
ghost use mathlib.Core.Option.{some};
ghost use lib.ListN.{get_elem?};

use crate::rules::Law;
use crate::seats::Seat;
use atomic_table::{Mark, PerchPlay, PerchRule, RuledPerch, Table};
use rx_port::View;
use rx_seq::{Entry, NoMemory, State};
use rx_shape::{Layout, tag_of};
use std::alloc::Global;
use std::collections::LinkedList;
use std::marker::{Brand, Model, PhantomData};

/// The entries of a history. No value of it is made.
pub struct History {
    pub entries: LinkedList<Entry>,
}

/// A record of a history may be of any.
pub struct Free;

impl PerchRule<History> for Free {
    ghost use Rattle.std.specs.Prelude.{[]};

    ghost holds = { λ n views. Unit {0} };

    ghost first = { record { entries = [] } };
}

/// What the last history is of.
pub trait Ends {
    ghost use Rattle.rx_shape.specs.Layout.{Layout as Numbering};
    ghost use Rattle.rx_port.specs.declared.views.View.{View};
    ghost use Rattle.std.specs.Prelude.{List, ℕ};

    ghost layout: { Numbering };

    ghost words: { List ℕ };

    ghost view: { View };
}

impl Ends for Brand {
    ghost use Rattle.rx_table.specs.Rule.{no_layout};
    ghost use Rattle.rx_table.specs.Seats.{spent_view};
    ghost use Rattle.std.specs.Prelude.{[]};

    ghost layout = { no_layout };

    ghost words = { [] };

    ghost view = { spent_view };
}

/// The record is of the last history.
pub struct Records<J: Ends> {
    of: PhantomData<J>,
}

impl<J: Ends> PerchPlay<History> for Records<J> {
    ghost then = { λ expected new before found after. Closing J.layout J.words J.view after.entries };
}

/// Where the last history is recorded, for contracts alone.
pub type HistoryPerch = RuledPerch<u8, View, History, Free>;

/// Records the last history, which the words and the last seat tell. It is for contracts alone.
pub fn record_history<J: Ends>(
    perch: &HistoryPerch,
    mark: &mut Mark<History>,
    _layout: &Layout,
    _words: &[u64],
)
    requires told { (J.layout ≡ _layout.now) × (J.words ≡ _words.now) × (J.view ≡ perch.now.view) }
    requires perch { mark.old.perch ≡ perch.now.name }
    requires closing { (history : List Entry) × Closing _layout.now _words.now perch.now.view history }
    ensures { Closing _layout.now _words.now perch.now.view mark.new.view.entries }
{
    perch.load::<Records<J>>(mark);
}

/// The words of a closed table of atomic words.
fn copy_words(closed: &atomic_table::Closed<u8, Global>, words: &mut Vec<u64>)
    requires { IsFull closed.now.words × (length words.old.items ≡ slots_len closed.now.words) }
    ensures { words.new.items ≡ slots_items closed.now.words }
{
    for word in 0..words.len() {
        words[word] = closed.word(word);
    }
}

/// Closes a table with its last seat. The words have the length of the table's.
pub fn finish(
    layout: Layout,
    table: Table<u8, View, Layout, Law, Global>,
    last: Seat,
    mut words: Vec<u64>,
) -> Closed
    requires table { (table.shared.key ≡ layout) × (table.shared.table_id.words ≡ words_of layout) × (table.shared.table_id.slots ≡ 0) }
    requires seat { IsSeatOf (record { layout = layout; table = table.shared.table_id }) last }
    requires limits { IsLayout layout }
    requires words { length words.items ≡ words_of layout }
    ensures layout { result.layout ≡ layout }
    ensures seats { (number : ℕ) (joined : Joined) → get_elem? (carries last.view) number ≡ some joined → Carried result.history joined }
{
    let Seat { token, own: _ } = last;
    let (perch, mut mark): (HistoryPerch, Mark<History>) = RuledPerch::new(&token, 0);
    let closed = table.close_with(token);
    copy_words(&closed, &mut words);
    closed.free();
    record_history::<Brand>(&perch, &mut mark, &layout, words.as_slice());
    Closed {
        layout,
        words,
        mark,
    }
}

/// A table that is closed. Contracts see the layout, the last words, and the history of all calls that were completed,
/// newest first, for which the words stand. The entries of each seat are those of its number. It may be handed to another
/// thread, and is used by one thread at a time.
#[derive(Drop)]
pub struct Closed {
    layout: Layout,
    words: Vec<u64>,
    mark: Mark<History>,
}

impl Model for Closed {
    ghost use Rattle.rx_table.specs.Closings.{Ending, HasEnded};

    ghost Value = { Ending };

    ghost view = { λ c. record { layout = c.layout; words = c.words.items; history = c.mark.view.entries } };

    ghost invariant = { λ c. HasEnded (record { layout = c.layout; words = c.words.items; history = c.mark.view.entries }) };
}

impl Closed {
    /// What its words stand for. It takes constant time.
    pub fn layout(&self) -> &Layout
        ensures layout { result.now ≡ self.now.layout }
        ensures ended { HasEnded self.now }
    {
        &self.layout
    }

    /// The version tag of an object that is there: the first tag and the number of loud entries on it. It takes constant time.
    pub fn tag(&self, object: u32) -> u64
        requires { object < length self.now.layout.parts }
        ensures { result ≡ tag_after self.now.layout self.now.history object }
    {
        tag_of(self.words[object as usize + 1])
    }

    /// Makes the state that of an object that is there, whatever it was. It takes time that grows with the length of the
    /// state.
    pub fn state(&self, object: u32, state: &mut State)
        requires { object < length self.now.layout.parts }
        ensures { state.new.items ≡ replay self.now.layout.parts object self.now.history }
    {
        self.layout.decode(self.words.as_slice(), object, state);
    }
}
