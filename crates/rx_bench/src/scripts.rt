// The objects that are measured, and the calls that are made on them.
ghost use Rattle.rx_bench.specs.Scripts.{IsMeasured};
ghost use Rattle.rx_seq.specs.Table.{fits_by, fits_part};
ghost use Rattle.std.specs.Prelude.{ℕ, ◌≡◌, ◌<◌, ◌≤◌, true};

use rx_seq::{Call, Kind, Part, Row};

/// Whether an object is one that is measured: a cell, a queue or a list of 1 to 64, or 16 registers.
pub fn is_measured(part: Part) -> bool
    ensures { result ≡ true → IsMeasured part }
{
    match part.kind {
        Kind::Cell => part.cap == 1,
        Kind::Queue | Kind::List => part.cap >= 1 && part.cap <= 64,
        Kind::Registers => part.cap == 16,
    }
}

/// How many calls are made on an object before it is measured: a queue or a list is filled to half, and 14 of 16 registers
/// are set.
pub fn fill_count(part: Part) -> u32 {
    match part.kind {
        Kind::Cell => 0,
        Kind::Queue | Kind::List => part.cap / 2,
        Kind::Registers => 14,
    }
}

/// One of these calls: a queue gets numbers, a list even numbers, and registers 1000 each.
pub fn fill_call(part: Part, number: u32) -> Call
    requires { IsMeasured part }
    ensures { fits_part part result ≡ true }
{
    match part.kind {
        Kind::Cell => Call::Get,
        Kind::Queue => Call::Put { v: number },
        Kind::List => Call::Insert { k: number % 64 * 2 },
        Kind::Registers => write_register(number % 14, 0, 1000),
    }
}

/// The call with this number of the script of a thread. A cell is read, written, added to and exchanged; a queue gets a
/// number and gives one; a list gets an odd number, which no other thread puts in, is asked for one, and gives it back;
/// and of registers one is read, an amount is moved, and one is written where it has its old value.
pub fn call_of(part: Part, thread: usize, number: u32) -> Call
    requires { IsMeasured part }
    ensures { fits_part part result ≡ true }
{
    match part.kind {
        Kind::Cell => call_on_cell(number),
        Kind::Queue if number % 2 == 0 => Call::Put { v: number },
        Kind::Queue => Call::Take,
        Kind::List => call_on_list(part.cap, thread, number),
        Kind::Registers => call_on_registers(number),
    }
}

fn call_on_cell(number: u32) -> Call
    ensures { (cap : ℕ) → fits_by Kind.Cell cap result ≡ true }
{
    match number % 4 {
        0 => Call::Get,
        1 => Call::Set { v: number % 1000 },
        2 => Call::Add { v: 1 },
        _ => Call::Swap {
            old: number % 1000,
            new: 0,
        },
    }
}

// The numbers of a thread stand among those that the list was filled with.
fn call_on_list(cap: u32, thread: usize, number: u32) -> Call
    requires { cap ≤ 64 }
    ensures { (other : ℕ) → fits_by Kind.List other result ≡ true }
{
    let share = cap / 4 + 1;
    let k = ((thread % 4) as u32 * share + number / 3 % share) * 2 + 1;
    match number % 3 {
        0 => Call::Insert { k },
        1 => Call::Has { k: k - 1 },
        _ => Call::Remove { k },
    }
}

fn call_on_registers(number: u32) -> Call
    ensures { fits_by Kind.Registers 16 result ≡ true }
{
    let turn = number / 3;
    match number % 3 {
        0 => Call::Read { i: turn % 16 },
        1 => Call::Shift {
            from: turn % 13,
            to: turn % 13 + 1,
            n: 1,
        },
        _ => write_register(14, turn % 2, (turn + 1) % 2),
    }
}

/// Writes a register where it has its old value.
fn write_register(i: u32, old: u32, new: u32) -> Call
    requires { i < 16 }
    ensures { fits_by Kind.Registers 16 result ≡ true }
{
    Call::Multi {
        count: 1,
        rows: [
            Row { i, old, new },
            Row::default(),
            Row::default(),
            Row::default(),
        ],
    }
}
