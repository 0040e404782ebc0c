// Queues: numbers, first in, first out.
ghost use Rattle.rx_seq.specs.States.{IsQueue};
ghost use Rattle.rx_seq.specs.Table.{effect_by, fits_queue, taken};
ghost use Rattle.rx_seq.specs.declared.calls.Call.TheVariants.{Put};
ghost use Rattle.std.specs.Prelude.{◌≡◌, ◌≤◌};

use crate::calls::Call;
use crate::objects::State;
use crate::replies::Reply;

/// Whether the call is one of a queue.
pub(crate) fn fits(call: Call) -> bool
    ensures { result ≡ fits_queue call }
{
    matches!(call, Call::Put { .. } | Call::Take)
}

/// Appends a number, unless the queue is full. It takes constant time.
pub(crate) fn put(cap: u32, state: &mut State, v: u32) -> Reply
    requires queue { IsQueue cap state.old.items }
    requires capacity { cap ≤ 64 }
    ensures reply { result ≡ (effect_by cap state.old.items (Put v)).reply }
    ensures state { state.new.items ≡ (effect_by cap state.old.items (Put v)).state }
{
    let length = state.len() as u32;
    if length == cap {
        return Reply::Full;
    }
    state.push(v);
    Reply::Done { v: length + 1 }
}

/// Takes the first number, if there is one. The others move up inside the array.
pub(crate) fn take(state: &mut State) -> Reply
    ensures reply { result ≡ (taken state.old.items).reply }
    ensures state { state.new.items ≡ (taken state.old.items).state }
{
    if state.is_empty() {
        return Reply::Empty;
    }
    let first = state.remove(0);
    Reply::Done { v: first }
}
