// Cells: one number of 24 bits. Each function here takes constant time.
ghost use Rattle.rx_seq.specs.States.{IsCell};
ghost use Rattle.rx_seq.specs.Table.{effect_by, fits_cell, most_cell};
ghost use Rattle.rx_seq.specs.declared.calls.Call.TheVariants.{Get, Set, Add, Swap};
ghost use Rattle.std.specs.Prelude.{◌≡◌, ◌≤◌, [], ◌∷◌, slice_index};

use crate::calls::Call;
use crate::limits::MOST_CELL;
use crate::objects::State;
use crate::replies::Reply;

/// Whether the call is one of a cell, with its numbers in range.
pub(crate) fn fits(call: Call) -> bool
    ensures { result ≡ fits_cell call }
{
    match call {
        Call::Get => true,
        Call::Set { v } | Call::Add { v } => v <= MOST_CELL,
        Call::Swap { old, new } => old <= MOST_CELL && new <= MOST_CELL,
        _ => false,
    }
}

/// The value of the cell.
pub(crate) fn get(state: &State) -> u32
    requires { IsCell state.now.items }
    ensures value { result ≡ slice_index state.now.items 0 }
    ensures whole { state.now.items ≡ result ∷ [] }
{
    state.as_slice()[0]
}

/// Writes the cell.
pub(crate) fn set(state: &mut State, v: u32) -> Reply
    requires { IsCell state.old.items }
    ensures reply { result ≡ (effect_by 1 state.old.items (Set v)).reply }
    ensures state { state.new.items ≡ (effect_by 1 state.old.items (Set v)).state }
{
    state.as_mut_slice()[0] = v;
    Reply::Done { v }
}

/// Adds to the cell, unless the sum has more than 24 bits.
pub(crate) fn add(state: &mut State, v: u32) -> Reply
    requires cell { IsCell state.old.items }
    requires amount { v ≤ most_cell }
    ensures reply { result ≡ (effect_by 1 state.old.items (Add v)).reply }
    ensures state { state.new.items ≡ (effect_by 1 state.old.items (Add v)).state }
{
    let sum = get(state) + v;
    if sum > MOST_CELL {
        return Reply::Over;
    }
    set(state, sum)
}

/// Writes `new` if the cell has `old`.
pub(crate) fn swap(state: &mut State, old: u32, new: u32) -> Reply
    requires { IsCell state.old.items }
    ensures reply { result ≡ (effect_by 1 state.old.items (Swap old new)).reply }
    ensures state { state.new.items ≡ (effect_by 1 state.old.items (Swap old new)).state }
{
    let value = get(state);
    if value != old {
        return Reply::Differs { v: value };
    }
    set(state, new)
}
