//! Writing the objects as they stand after all operations.
ghost use Rattle.std.specs.Prelude.{◌≡◌, ◌<◌, List, [], ◌∷◌, length};
ghost use Rattle.rx_io.specs.States.{MayBeCalled};
ghost use Rattle.rx_io.specs.Causes.{Puts};
ghost use Rattle.rx_seq.specs.declared.entries.Entry.{Entry};
ghost use Rattle.rx_seq.specs.declared.kinds.Part.{Part};
ghost use Rattle.rx_seq.specs.History.{replay, tag_of};
ghost use Rattle.rx_set.specs.System.{parts_of};
ghost use Rattle.rx_port.specs.Lawful.{Lawful};
ghost use Rattle.rx_trace.specs.Report.{first_objects, object_line_after};

use rx_io::{Failed, Sink, put};
use rx_port::Bank;
use rx_report::{Line, object_line};
use rx_seq::State;
use rx_set::TaskSet;
use rx_table::Closed;

/// The objects of a history, on their words: those of a bank, which one caller has, or of a closed table, which seats
/// shared. Both read a tag and a state from the words, and keep no history: which one they stand for is known to clauses
/// alone.
pub trait Objects {
    // The objects' kinds and capacities.
    ghost parts: { Self → List Part };

    // The words stand for this history, whose first tags are 0.
    ghost stands: { Self → List Entry → Type 0 };

    /// The version tag of an object: how many of the history's entries are loud on it. Wants a number of an object.
    fn tag(&self, object: u32) -> u64
        requires { object < length (parts self.now) }
        ensures { (history : List Entry) → stands self.now history → result ≡ tag_of object history };

    /// Makes the state that of an object after the whole history, whatever it was. Wants a number of an object.
    fn state(&self, object: u32, state: &mut State)
        requires { object < length (parts self.now) }
        ensures { (history : List Entry) → stands self.now history → state.new.items ≡ replay (parts self.now) object history };
}

impl Objects for Bank {
    ghost parts = { λ bank. bank.layout.parts };

    ghost stands = { λ bank history. Lawful bank.layout bank.core.words bank.core.views history × (bank.layout.first ≡ 0) };

    fn tag(&self, object: u32) -> u64 {
        Bank::tag(self, object)
    }

    fn state(&self, object: u32, state: &mut State) {
        Bank::state(self, object, state);
    }
}

impl Objects for Closed {
    ghost parts = { λ closed. closed.layout.parts };

    ghost stands = { λ closed history. (history ≡ closed.history) × (closed.layout.first ≡ 0) };

    fn tag(&self, object: u32) -> u64 {
        Closed::tag(self, object)
    }

    fn state(&self, object: u32, state: &mut State) {
        Closed::state(self, object, state);
    }
}

/// Hands in the line of an object.
fn put_object<O: Objects, K: Sink>(
    set: &TaskSet,
    objects: &O,
    object: u32,
    line: &mut Line,
    sink: &mut K,
) -> Result<(), Failed>
    requires up { MayBeCalled (K.tells sink.old).failures }
    requires object { object < length set.now.objects }
    requires parts { O.parts objects.now ≡ parts_of set.now }
    ensures { (history : List Entry) → O.stands objects.now history
        → Puts (K.tells sink.old) (K.tells sink.new) result (object_line_after set.now history object ∷ []) }
{
    let mut state = State::new();
    objects.state(object, &mut state);
    object_line(set, object, objects.tag(object), &state, line);
    put(sink, line.as_slice())
}

/// Hands in the lines of all objects of a set, in file order, each with its tag and its state as they are read from the
/// words, as `rx_report::object_line` makes it.
///
/// `line` is room to make them in, whatever it holds. At `Failed` the sink failed in this call, which is its last one, and
/// a front of the lines was taken. It takes no memory, and time for each object that grows with its capacity. Wants the
/// objects of this set on words that stand for some history, and a sink whose latest call did not fail, with a count of
/// faults below 2^63.
pub fn put_objects<O: Objects, K: Sink>(
    set: &TaskSet,
    objects: &O,
    line: &mut Line,
    sink: &mut K,
) -> Result<(), Failed>
    requires up { MayBeCalled (K.tells sink.old).failures }
    requires parts { O.parts objects.now ≡ parts_of set.now }
    requires stands { (history : List Entry) × O.stands objects.now history }
    ensures { (history : List Entry) → O.stands objects.now history
        → Puts (K.tells sink.old) (K.tells sink.new) result (first_objects set.now history (length set.now.objects)) }
{
    // That the set is valid, so that it has at most 16 objects.
    let _tasks = set.tasks();
    for object in 0..set.objects().len() {
        put_object(set, objects, object as u32, line, sink)?;
    }
    Ok(())
}
