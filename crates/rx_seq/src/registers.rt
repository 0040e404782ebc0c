// Registers: a fixed count of numbers.
ghost use Rattle.rx_seq.specs.States.{IsValue};
ghost use Rattle.rx_seq.specs.Table.{are_rows, first_difference, fits_registers, have_repeat, is_blank, is_row, register_of, shifted, transaction, with_rows};
ghost use Rattle.std.specs.List.{list_all, list_any, All};
ghost use Rattle.std.specs.Prelude.{◌≡◌, ◌==◌, ◌<◌, ◌≤◌, true, [], length, map, replicate, slice_index, slice_set, take};

use crate::calls::{Call, Row};
use crate::objects::State;
use crate::replies::Reply;

/// Whether the call is one of so many registers, with its numbers in range.
pub(crate) fn fits(cap: u32, call: Call) -> bool
    ensures { result ≡ fits_registers cap call }
{
    match call {
        Call::Read { i } => i < cap,
        Call::Shift { from, to, .. } => from < cap && to < cap && from != to,
        Call::Multi { count, rows } => is_transaction(cap, count, &rows),
        _ => false,
    }
}

/// Whether the first `count` rows, 1 to 4, name different registers, and the other rows are zeros.
fn is_transaction(cap: u32, count: u32, rows: &[Row; 4]) -> bool
    ensures { result ≡ are_rows cap count rows.now }
{
    if count < 1 || count > 4 {
        return false;
    }
    let (named, rest) = rows.split_at(count as usize);
    are_below(cap, named) && !has_repeat(named) && are_blank(rest)
}

/// Whether each of the rows names one of so many registers.
fn are_below(cap: u32, rows: &[Row]) -> bool
    ensures { result ≡ list_all (is_row cap) rows.now }
{
    rows.iter().all(|row| is_below(cap, *row))
}

/// Whether a row names one of so many registers. Its values have 32 bits.
fn is_below(cap: u32, row: Row) -> bool
    ensures { result ≡ is_row cap row }
{
    row.i < cap
}

/// Whether each of the rows is zeros.
fn are_blank(rows: &[Row]) -> bool
    ensures { result ≡ list_all is_blank rows.now }
{
    rows.iter()
        .all(|row| row.i == 0 && row.old == 0 && row.new == 0)
}

/// Whether two of the rows name one register.
fn has_repeat(rows: &[Row]) -> bool
    ensures { result ≡ have_repeat (map register_of rows.now) }
{
    for (n, row) in rows.iter().enumerate() {
        if names(&rows[n + 1..], row.i) {
            return true;
        }
    }
    false
}

/// Whether one of the rows names the register.
fn names(rows: &[Row], i: u32) -> bool
    ensures { result ≡ list_any (λ m. m == i) (map register_of rows.now) }
{
    rows.iter().map(|row| row.i).any(|named| named == i)
}

/// Makes the empty state the first one of so many registers.
pub(crate) fn start(cap: u32, state: &mut State)
    requires empty { state.old.items ≡ [] }
    requires capacity { cap ≤ 64 }
    ensures { state.new.items ≡ replicate cap 0 }
{
    for _ in 0..cap {
        state.push(0);
    }
}

/// The value of register `i`. It takes constant time.
pub(crate) fn read(state: &State, i: u32) -> u32
    requires { i < length state.now.items }
    ensures { result ≡ slice_index state.now.items i }
{
    state.as_slice()[i as usize]
}

/// Writes register `i`. It takes constant time.
fn write(state: &mut State, i: u32, v: u32)
    requires { i < length state.old.items }
    ensures register { state.new.items ≡ slice_set state.old.items i v }
    ensures values { All IsValue state.old.items → All IsValue state.new.items }
{
    state.as_mut_slice()[i as usize] = v;
}

/// Moves an amount from one register to another, unless there is less or the sum does not fit. It takes constant
/// time.
pub(crate) fn shift(state: &mut State, from: u32, to: u32, n: u32) -> Reply
    requires from_in { from < length state.old.items }
    requires to_in { to < length state.old.items }
    ensures reply { result ≡ (shifted state.old.items from to n).reply }
    ensures state { state.new.items ≡ (shifted state.old.items from to n).state }
{
    let have = read(state, from);
    if have < n {
        return Reply::Short { v: have };
    }
    match read(state, to).checked_add(n) {
        None => Reply::Over,
        Some(sum) => {
            write(state, from, have - n);
            write(state, to, sum);
            Reply::Done { v: sum }
        }
    }
}

/// Writes the registers of the first `count` rows, if each of them has its old value.
pub(crate) fn transact(state: &mut State, count: u32, rows: &[Row; 4]) -> Reply
    requires { are_rows (length state.old.items) count rows.now ≡ true }
    ensures reply { let named = take count rows.now in result ≡ (transaction state.old.items count named (first_difference state.old.items named)).reply }
    ensures state { let named = take count rows.now in state.new.items ≡ (transaction state.old.items count named (first_difference state.old.items named)).state }
    ensures count { length state.new.items ≡ length state.old.items }
    ensures values { All IsValue state.old.items → All IsValue state.new.items }
{
    let named = &rows[..count as usize];
    if let Some(v) = differing(state, named) {
        return Reply::Differs { v };
    }
    write_rows(state, named);
    Reply::Done { v: count }
}

/// The value of the first row's register that is not the row's old value.
fn differing(state: &State, rows: &[Row]) -> Option<u32>
    requires { All (λ row. row.i < length state.now.items) rows.now }
    ensures { result ≡ first_difference state.now.items rows.now }
{
    for row in rows {
        let value = read(state, row.i);
        if value != row.old {
            return Some(value);
        }
    }
    None
}

/// Gives each row's register its new value.
fn write_rows(state: &mut State, rows: &[Row])
    requires { All (λ row. row.i < length state.old.items) rows.now }
    ensures rows { state.new.items ≡ with_rows state.old.items rows.now }
    ensures count { length state.new.items ≡ length state.old.items }
    ensures values { All IsValue state.old.items → All IsValue state.new.items }
{
    for row in rows {
        write(state, row.i, row.new);
    }
}
