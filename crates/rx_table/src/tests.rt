// A table of a cell and a queue, with two seats.
ghost use Rattle.rx_table.specs.Tables.{AreSeats, IsSeatOf};
ghost use Rattle.rx_table.specs.Rows.{small};
ghost use Rattle.std.specs.Prelude.{◌≡◌, IfOk};

use super::*;
use arrayvec::ArrayVec;
use rx_port::Port;
use rx_seq::{Call, Kind, NoMemory, Part};
use rx_shape::Layout;
use std::alloc::Global;
use std::test::Fail;
use std::thread::{Threads, join};

// The table that `specs/Rows.antt` tells of.
fn small_table(alloc: Global) -> Result<Opened, NoMemory>
    ensures layout { IfOk result (λ opened. opened.shared.layout ≡ small) }
    ensures seats { IfOk result (λ opened. AreSeats opened.shared opened.seats.items) }
{
    let parts = [
        Part {
            kind: Kind::Cell,
            cap: 1,
        },
        Part {
            kind: Kind::Queue,
            cap: 2,
        },
    ];
    let layout = Layout::new(alloc, &parts, 2, 5)?;
    Shared::new(alloc, layout)
}

// Another thread closes the table, and hands it back.
fn close_there<R: Threads + Sync>(
    rt: &R,
    alloc: Global,
    shared: Shared,
    seats: Vec<Seat>,
) -> Result<Closed, Kept>
    requires layout { shared.layout ≡ small }
    requires seats { AreSeats shared seats.items }
    ensures { IfOk result (λ closed. closed.layout ≡ small) }
{
    let close = || -> Result<Closed, Kept>
        requires { (shared.layout ≡ small) × AreSeats shared seats.items }
        ensures { IfOk result (λ closed. closed.layout ≡ small) }
    { shared.close(alloc, seats) };
    join(rt, close, || ()).0
}

#[test]
fn opened_and_closed(rt: HostRuntime) -> Result<(), Fail> {
    let opened = match small_table(rt.alloc()) {
        Ok(opened) => opened,
        Err(_) => return Err("no memory".into()),
    };
    assert_eq!(rt; opened.seats.len(), 2);
    let Opened { shared, seats } = opened;
    let closed = match close_there(&rt, rt.alloc(), shared, seats) {
        Ok(closed) => closed,
        Err(_) => return Err("no memory".into()),
    };
    assert_eq!(rt; closed.tag(0), 5);
    assert_eq!(rt; closed.tag(1), 5);
    let mut state = ArrayVec::new();
    closed.state(0, &mut state);
    assert_eq!(rt; state.as_slice(), [0].as_slice());
    closed.state(1, &mut state);
    assert_eq!(rt; state.len(), 0);
    Ok(())
}

// A seat begins to take from the queue.
fn begin_take(shared: &Shared, mut seat: Seat) -> (Seat, u64)
    requires layout { shared.now.layout ≡ small }
    requires seat { IsSeatOf shared.now seat }
    ensures { IsSeatOf shared.now result.0 }
{
    let mut port = shared.port();
    let root = port.begin(&mut seat, 1, Call::Take);
    (seat, root)
}

// Two threads share the table, each with a seat of its own.
fn both_begin<R: Threads + Sync>(
    rt: &R,
    shared: &Shared,
    first: Seat,
    second: Seat,
) -> ((Seat, u64), (Seat, u64))
    requires layout { shared.now.layout ≡ small }
    requires first { IsSeatOf shared.now first }
    requires second { IsSeatOf shared.now second }
    ensures first { IsSeatOf shared.now result.0.0 }
    ensures second { IsSeatOf shared.now result.1.0 }
{
    join(
        rt,
        || -> (Seat, u64)
            requires { (shared.now.layout ≡ small) × IsSeatOf shared.now first }
            ensures { IsSeatOf shared.entry.now result.0 }
        { begin_take(shared, first) },
        || -> (Seat, u64)
            requires { (shared.now.layout ≡ small) × IsSeatOf shared.now second }
            ensures { IsSeatOf shared.entry.now result.0 }
        { begin_take(shared, second) },
    )
}

#[test]
fn two_threads(rt: HostRuntime) -> Result<(), Fail> {
    let opened = match small_table(rt.alloc()) {
        Ok(opened) => opened,
        Err(_) => return Err("no memory".into()),
    };
    let Opened { shared, mut seats } = opened;
    let Some(second) = seats.pop() else {
        return Err("no seat".into());
    };
    let Some(first) = seats.pop() else {
        return Err("no seat".into());
    };
    let ((first, a), (second, b)) = both_begin(&rt, &shared, first, second);
    let root = (5 << 24) + 3;
    assert_eq!(rt; (a, b), (root, root));
    let port = shared.port();
    let places = [
        port.own(&first, 1, 0),
        port.own(&first, 1, 2),
        port.own(&second, 1, 0),
        port.own(&second, 1, 2),
    ];
    assert_eq!(rt; places, [6, 8, 9, 11]);
    Ok(())
}
