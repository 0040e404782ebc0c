// Ordered lists: numbers in rising order, each once.
ghost use Rattle.rx_seq.specs.Places.{Belongs, Stands, left_out};
ghost use Rattle.rx_seq.specs.States.{IsOrdered};
ghost use Rattle.rx_seq.specs.Table.{effect_by, fits_list, has_number};
ghost use Rattle.rx_seq.specs.declared.calls.Call.TheVariants.{Insert};
ghost use Rattle.rx_seq.specs.declared.replies.Reply.TheVariants.{Yes, No};
ghost use Rattle.std.specs.List.{AllPairs};
ghost use Rattle.std.specs.Prelude.{◌≡◌, ◌<◌, ◌≤◌, if◌then◌else◌, IfOk, IfErr};

use crate::calls::Call;
use crate::objects::State;
use crate::replies::Reply;

/// Whether the call is one of a list.
pub(crate) fn fits(call: Call) -> bool
    ensures { result ≡ fits_list call }
{
    matches!(
        call,
        Call::Insert { .. } | Call::Remove { .. } | Call::Has { .. }
    )
}

/// Where a number stands, or else where it belongs. The search halves the list at each step.
fn place_of(numbers: &[u32], k: u32) -> Result<usize, usize>
    requires { AllPairs (λ earlier later. earlier < later) numbers.now }
    ensures stands { IfOk result (Stands k numbers.now) }
    ensures belongs { IfErr result (Belongs k numbers.now) }
{
    numbers.binary_search(&k)
}

/// Puts a number at its place, unless it is there or the list is full. The greater ones move down inside the array.
pub(crate) fn insert(cap: u32, state: &mut State, k: u32) -> Reply
    requires list { IsOrdered cap state.old.items }
    requires capacity { cap ≤ 64 }
    ensures reply { result ≡ (effect_by cap state.old.items (Insert k)).reply }
    ensures state { state.new.items ≡ (effect_by cap state.old.items (Insert k)).state }
{
    match place_of(state.as_slice(), k) {
        Ok(_) => Reply::Present,
        Err(place) => {
            if state.len() == cap as usize {
                return Reply::Full;
            }
            state.insert(place, k);
            Reply::Added
        }
    }
}

/// Leaves a number out, if it is there. The greater ones move up inside the array.
pub(crate) fn remove(state: &mut State, k: u32) -> Reply
    requires { AllPairs (λ earlier later. earlier < later) state.old.items }
    ensures reply { result ≡ (left_out k state.old.items).reply }
    ensures state { state.new.items ≡ (left_out k state.old.items).state }
{
    match place_of(state.as_slice(), k) {
        Ok(place) => {
            state.remove(place);
            Reply::Removed
        }
        Err(_) => Reply::Absent,
    }
}

/// Whether the list has a number.
pub(crate) fn has(state: &State, k: u32) -> Reply
    requires { AllPairs (λ earlier later. earlier < later) state.now.items }
    ensures { result ≡ (if has_number k state.now.items then Yes else No) }
{
    match place_of(state.as_slice(), k) {
        Ok(_) => Reply::Yes,
        Err(_) => Reply::No,
    }
}
