// Attempts and whole calls.
ghost use Rattle.rx_machine.specs.Operations.{Follows, fresh};
ghost use Rattle.rx_object.specs.Calls.{Tells, TellsAll};
ghost use Rattle.rx_object.specs.declared.calls.Try.TheVariants.{Lost};
ghost use Rattle.rx_seq.specs.History.{part_at};
ghost use Rattle.rx_seq.specs.Table.{fits_part};
ghost use Rattle.rx_shape.specs.Layout.{home};
ghost use Rattle.rx_table.specs.Tables.{IsSeatOf};
ghost use Rattle.std.specs.Prelude.{ℕ, ◌≡◌, ◌<◌, true, length};

use rx_machine::{Machine, Step};
use rx_seq::{Call, Reply};
use rx_table::{Seat, Shared, SharedPort};

/// What an attempt of a call did.
#[derive(Clone, Copy, Debug, PartialEq, Eq)]
pub enum Try {
    /// The call is made, with this reply. The tag is the object's after it: the next one, or the same if the call is
    /// quiet.
    Done { reply: Reply, tag: u64 },
    /// Another seat made a loud call on the object: the root that the attempt expected, and the one that its exchange
    /// found. The seat's own places and entries are as before, and it may try again.
    Lost { expected: u64, found: u64 },
    /// The object has its last tag, so no call can be made, not even a quiet one. The seat's own places and entries are
    /// as before, and its next attempt takes the place of this one, which is still open.
    Spent { tag: u64 },
}

/// What a call did.
#[derive(Clone, Copy, Debug, PartialEq, Eq)]
pub enum Outcome {
    /// The call is made, with this reply, after so many lost attempts. The tag is the object's after it: the next one, or
    /// the same if the call is quiet.
    Done {
        reply: Reply,
        tag: u64,
        retries: u64,
    },
    /// The object has its last tag, so no call can be made, not even a quiet one. The seat's own places and entries are
    /// as before, and its next attempt takes the place of the last one, which is still open.
    Spent {
        tag: u64,
    },
}

/// Makes the steps of one attempt of a machine that has made none, and passes over those that are idle: no clock counts
/// them here. After a lost attempt the machine is as before.
pub(crate) fn try_once(machine: &mut Machine, port: &mut SharedPort<'_>, seat: &mut Seat) -> Try
    requires new { machine.old ≡ fresh machine.old.place machine.old.object machine.old.call }
    requires follows { Follows port.old.layout seat.old.view machine.old }
    requires ours { IsSeatOf port.old seat.old }
    ensures tells { Tells port.old.layout seat.old.view seat.new.view machine.old.object machine.old.call result }
    ensures again { (expected found : ℕ) → result ≡ Lost expected found → machine.new ≡ machine.old }
    ensures port { port.new ≡ port.old }
    ensures ours { IsSeatOf port.old seat.new }
{
    loop {
        match machine.step(port, seat) {
            Step::Going => {}
            Step::Idle => machine.pass_idle(),
            Step::Won { reply, tag } => return Try::Done { reply, tag },
            Step::Lost { expected, found } => return Try::Lost { expected, found },
            Step::Spent { tag } => return Try::Spent { tag },
        }
    }
}

/// Makes attempts of the call of a machine that has made no step, until one makes it or the tags are spent.
pub(crate) fn make(
    machine: &mut Machine,
    shared: &Shared,
    seat: &mut Seat,
    object: u32,
    call: Call,
) -> Outcome
    requires new { machine.old ≡ fresh (home shared.now.layout object) object call }
    requires ours { IsSeatOf shared.now seat.old }
    requires exists { object < length shared.now.layout.parts }
    requires fits { fits_part (part_at shared.now.layout.parts object) call ≡ true }
    ensures tells { TellsAll shared.now.layout seat.old.view seat.new.view object call result }
    ensures ours { IsSeatOf shared.now seat.new }
{
    let mut port = shared.port();
    let mut retries = 0;
    loop {
        match try_once(machine, &mut port, seat) {
            Try::Done { reply, tag } => return Outcome::Done {
                reply,
                tag,
                retries,
            },
            Try::Lost {
                expected: _,
                found: _,
            } => retries += 1,
            Try::Spent { tag } => return Outcome::Spent { tag },
        }
    }
}

/// Makes one attempt of a call on an object that is there and that it fits. It makes one `begin` and at most one
/// exchange, takes no memory and does not wait. It takes time that grows with the capacity of the object; how many other
/// objects there are does not matter. It builds a machine of about 2,600 bytes; where calls follow one another, a `Runner`
/// keeps one.
pub fn attempt(shared: &Shared, seat: &mut Seat, object: u32, call: Call) -> Try
    requires ours { IsSeatOf shared.now seat.old }
    requires exists { object < length shared.now.layout.parts }
    requires fits { fits_part (part_at shared.now.layout.parts object) call ≡ true }
    ensures tells { Tells shared.now.layout seat.old.view seat.new.view object call result }
    ensures ours { IsSeatOf shared.now seat.new }
{
    let mut machine = Machine::start(shared.layout(), object, call);
    try_once(&mut machine, &mut shared.port(), seat)
}

/// Makes attempts of a call on an object that is there and that it fits, until one makes it or the tags are spent: the
/// retry loop of lock-free objects (Herlihy, 1993). It returns: each lost attempt raises the tag that the seat has seen,
/// and tags end. That some seat gets on is no clause, though a lost attempt shows the loud entry of another: quiet calls
/// make no attempt repeat. It takes no memory and does not wait. Each attempt takes time that grows with the capacity of
/// the object; how many other objects there are does not matter. It builds a machine of about 2,600 bytes; where calls
/// follow one another, a `Runner` keeps one.
pub fn operate(shared: &Shared, seat: &mut Seat, object: u32, call: Call) -> Outcome
    requires ours { IsSeatOf shared.now seat.old }
    requires exists { object < length shared.now.layout.parts }
    requires fits { fits_part (part_at shared.now.layout.parts object) call ≡ true }
    ensures tells { TellsAll shared.now.layout seat.old.view seat.new.view object call result }
    ensures ours { IsSeatOf shared.now seat.new }
{
    let mut machine = Machine::start(shared.layout(), object, call);
    make(&mut machine, shared, seat, object, call)
}
