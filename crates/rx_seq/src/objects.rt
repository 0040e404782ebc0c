// The three functions of every object: whether a call fits, the first state, and what a call does.
ghost use Rattle.rx_seq.specs.States.{IsState};
ghost use Rattle.rx_seq.specs.Table.{IsPart, effect, fits_part, start_of};
ghost use Rattle.std.specs.Prelude.{◌≡◌, true};

use crate::calls::Call;
use crate::kinds::{Kind, Part};
use crate::replies::Reply;
use crate::{cells, lists, queues, registers};
use arrayvec::ArrayVec;

/// The numbers of an object: those of a queue from the first to the last, those of a list in rising order, and the
/// value of each register. A cell has one.
pub type State = ArrayVec<u32, 64>;

/// Whether the call is one of the part's kind, with its numbers in range: at most 24 bits each for a cell, register
/// numbers below the capacity, a shift between two registers, and 1 to 4 rows that name different registers, with
/// zeros after them. It answers for every part and call.
///
/// It takes constant time, but for a transaction, whose at most 4 rows are compared with one another.
pub fn fits(part: Part, call: Call) -> bool
    ensures { result ≡ fits_part part call }
{
    match part.kind {
        Kind::Cell => cells::fits(call),
        Kind::Queue => queues::fits(call),
        Kind::List => lists::fits(call),
        Kind::Registers => registers::fits(part.cap, call),
    }
}

/// Makes the state the first one of the part, whatever it was: a cell has 0, a queue and a list are empty, and each
/// register has 0. The part is within its limits.
///
/// It takes time that grows with the old length and the capacity, and no memory.
pub fn start(part: Part, state: &mut State)
    requires { IsPart part }
    ensures first { state.new.items ≡ start_of part }
    ensures state { IsState part state.new.items }
{
    state.clear();
    match part.kind {
        Kind::Cell => state.push(0),
        Kind::Queue | Kind::List => {}
        Kind::Registers => registers::start(part.cap, state),
    }
}

/// Makes the call on the state, and answers the reply. The part is within its limits, the state is one of the part,
/// and the call fits. The state after it is one of the part again.
///
/// It takes constant time on a cell, and when it reads, shifts or puts. Elsewhere it takes at most as many steps as
/// the capacity, for the numbers that move up or down, or as the call has rows. It takes no memory.
pub fn apply(part: Part, state: &mut State, call: Call) -> Reply
    requires part { IsPart part }
    requires state { IsState part state.old.items }
    requires fits { fits_part part call ≡ true }
    ensures reply { result ≡ (effect part state.old.items call).reply }
    ensures state { state.new.items ≡ (effect part state.old.items call).state }
    ensures again { IsState part state.new.items }
{
    match call {
        Call::Get => Reply::Done {
            v: cells::get(state),
        },
        Call::Set { v } => cells::set(state, v),
        Call::Add { v } => cells::add(state, v),
        Call::Swap { old, new } => cells::swap(state, old, new),
        Call::Put { v } => queues::put(part.cap, state, v),
        Call::Take => queues::take(state),
        Call::Insert { k } => lists::insert(part.cap, state, k),
        Call::Remove { k } => lists::remove(state, k),
        Call::Has { k } => lists::has(state, k),
        Call::Read { i } => Reply::Done {
            v: registers::read(state, i),
        },
        Call::Shift { from, to, n } => registers::shift(state, from, to, n),
        Call::Multi { count, rows } => registers::transact(state, count, &rows),
    }
}
