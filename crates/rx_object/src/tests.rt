// Calls on a table with one object.
ghost use Rattle.rx_machine.specs.Operations.{Follows};
ghost use Rattle.rx_seq.specs.Table.{IsPart};
ghost use Rattle.rx_table.specs.Tables.{AreSeats, IsSeatOf};
ghost use Rattle.std.specs.Prelude.{◌≡◌, ◌<◌, ◌≤◌, ◌^◌, IfOk};

use super::*;
use arrayvec::ArrayVec;
use rx_machine::{Machine, Step};
use rx_seq::{Call, Kind, NoMemory, Part, Reply, fits};
use rx_shape::Layout;
use rx_table::{Closed, Opened, Seat, Shared, SharedPort};
use std::alloc::Global;
use std::test::Fail;

// A new table with one object.
fn table_of(alloc: Global, part: Part, seats: u32, first: u64) -> Result<Opened, NoMemory>
    requires part { IsPart part }
    requires seats { (1 ≤ seats) × (seats ≤ 64) }
    requires first { first < 2 ^ 40 }
    ensures { IfOk result (λ opened. AreSeats opened.shared opened.seats.items) }
{
    let layout = Layout::new(alloc, &[part], seats, first)?;
    Shared::new(alloc, layout)
}

// A part of this kind.
fn part(kind: Kind, cap: u32) -> Part
    ensures kind { result.kind ≡ kind }
    ensures cap { result.cap ≡ cap }
{
    Part { kind, cap }
}

// Makes a call by a seat, unless it does not fit.
fn call(opened: &mut Opened, number: usize, call: Call) -> Option<Outcome>
    requires { AreSeats opened.old.shared opened.old.seats.items }
    ensures { AreSeats opened.new.shared opened.new.seats.items }
{
    let parts = opened.shared.layout().parts();
    if number >= opened.seats.len() || parts.len() == 0 || !fits(parts[0], call) {
        return None;
    }
    Some(operate(&opened.shared, &mut opened.seats[number], 0, call))
}

// Makes an attempt of a call by a seat, unless it does not fit.
fn try_call(opened: &mut Opened, number: usize, call: Call) -> Option<Try>
    requires { AreSeats opened.old.shared opened.old.seats.items }
    ensures { AreSeats opened.new.shared opened.new.seats.items }
{
    let parts = opened.shared.layout().parts();
    if number >= opened.seats.len() || parts.len() == 0 || !fits(parts[0], call) {
        return None;
    }
    Some(attempt(&opened.shared, &mut opened.seats[number], 0, call))
}

// The last tag of the object, and its last state.
fn ending(closed: &Closed) -> Option<(u64, ArrayVec<u32, 64>)> {
    if closed.layout().parts().len() == 0 {
        return None;
    }
    let mut state = ArrayVec::new();
    closed.state(0, &mut state);
    Some((closed.tag(0), state))
}

// Closes the table, and tells the last tag of the object and its last state.
fn close(alloc: Global, opened: Opened) -> Option<(u64, ArrayVec<u32, 64>)>
    requires { AreSeats opened.shared opened.seats.items }
{
    let Opened { shared, seats } = opened;
    match shared.close(alloc, seats) {
        Ok(closed) => ending(&closed),
        Err(_) => None,
    }
}

fn done(reply: Reply, tag: u64) -> Option<Outcome> {
    Some(Outcome::Done {
        reply,
        tag,
        retries: 0,
    })
}

// A list of the greatest capacity is filled, and changes at both ends. A call that changes nothing keeps the tag. Then each
// of its numbers is taken out and put back.
#[test]
fn longest_list(rt: HostRuntime) -> Result<(), Fail> {
    let mut opened = match table_of(rt.alloc(), part(Kind::List, 64), 1, 0) {
        Ok(opened) => opened,
        Err(_) => return Err("no memory".into()),
    };
    for k in 0..64u32 {
        let added = call(&mut opened, 0, Call::Insert { k: 10 * k });
        assert_eq!(rt; added, done(Reply::Added, u64::from(k) + 1));
    }
    assert_eq!(rt;
        call(&mut opened, 0, Call::Insert { k: 5 }),
        done(Reply::Full, 64)
    );
    assert_eq!(rt;
        call(&mut opened, 0, Call::Insert { k: 630 }),
        done(Reply::Present, 64)
    );
    assert_eq!(rt;
        call(&mut opened, 0, Call::Remove { k: 0 }),
        done(Reply::Removed, 65)
    );
    assert_eq!(rt;
        call(&mut opened, 0, Call::Insert { k: 640 }),
        done(Reply::Added, 66)
    );
    assert_eq!(rt;
        call(&mut opened, 0, Call::Has { k: 0 }),
        done(Reply::No, 66)
    );
    for k in 1..65u32 {
        let tag = u64::from(k) * 2 + 65;
        let removed = call(&mut opened, 0, Call::Remove { k: 10 * k });
        assert_eq!(rt; removed, done(Reply::Removed, tag));
        let added = call(&mut opened, 0, Call::Insert { k: 10 * k });
        assert_eq!(rt; added, done(Reply::Added, tag + 1));
    }
    let Some((tag, state)) = close(rt.alloc(), opened) else {
        return Err("no memory".into());
    };
    assert_eq!(rt; tag, 194);
    assert_eq!(rt; state.len(), 64);
    assert_eq!(rt; state.first(), Some(&10));
    assert_eq!(rt; state.last(), Some(&640));
    Ok(())
}

// The last tag is given to one call more, and then to none, be it one that looks.
#[test]
fn last_tag(rt: HostRuntime) -> Result<(), Fail> {
    let last = 1_099_511_627_775;
    let mut opened = match table_of(rt.alloc(), part(Kind::Cell, 1), 1, last - 1) {
        Ok(opened) => opened,
        Err(_) => return Err("no memory".into()),
    };
    let add = Call::Add { v: 1 };
    assert_eq!(rt; call(&mut opened, 0, add), done(Reply::Done { v: 1 }, last));
    assert_eq!(rt;
        call(&mut opened, 0, add),
        Some(Outcome::Spent { tag: last })
    );
    assert_eq!(rt;
        call(&mut opened, 0, Call::Get),
        Some(Outcome::Spent { tag: last })
    );
    assert_eq!(rt;
        try_call(&mut opened, 0, add),
        Some(Try::Spent { tag: last })
    );
    let Some((tag, state)) = close(rt.alloc(), opened) else {
        return Err("no memory".into());
    };
    assert_eq!(rt; tag, last);
    assert_eq!(rt; state.as_slice(), [1].as_slice());
    Ok(())
}

// What one seat makes, the other finds. A look keeps the tag.
#[test]
fn two_seats(rt: HostRuntime) -> Result<(), Fail> {
    let mut opened = match table_of(rt.alloc(), part(Kind::Cell, 1), 2, 0) {
        Ok(opened) => opened,
        Err(_) => return Err("no memory".into()),
    };
    let add = Call::Add { v: 5 };
    assert_eq!(rt; call(&mut opened, 0, add), done(Reply::Done { v: 5 }, 1));
    let got = Try::Done {
        reply: Reply::Done { v: 5 },
        tag: 1,
    };
    assert_eq!(rt; try_call(&mut opened, 1, Call::Get), Some(got));
    let Some((tag, state)) = close(rt.alloc(), opened) else {
        return Err("no memory".into());
    };
    assert_eq!(rt; tag, 1);
    assert_eq!(rt; state.as_slice(), [5].as_slice());
    Ok(())
}

// Makes a step, unless the operation has ended.
fn step(port: &mut SharedPort<'_>, machine: &mut Machine, seat: &mut Seat) -> Option<Step>
    requires ours { IsSeatOf port.old seat.old }
    requires follows { Follows port.old.layout seat.old.view machine.old }
    ensures port { port.new ≡ port.old }
    ensures ours { IsSeatOf port.old seat.new }
    ensures follows { Follows port.old.layout seat.new.view machine.new }
{
    if machine.ended() {
        return None;
    }
    Some(machine.step(port, seat))
}

// The steps of two attempts, one after the other: the first seat's attempt to add 1 decides after the other call.
fn overtaken(
    shared: &Shared,
    first: &mut Seat,
    second: &mut Seat,
    other: Call,
) -> Option<[Option<Step>; 6]>
    requires first { IsSeatOf shared.now first.old }
    requires second { IsSeatOf shared.now second.old }
    ensures first { IsSeatOf shared.now first.new }
    ensures second { IsSeatOf shared.now second.new }
{
    let add = Call::Add { v: 1 };
    let layout = shared.layout();
    if layout.parts().len() == 0
        || !fits(layout.parts()[0], add)
        || !fits(layout.parts()[0], other)
    {
        return None;
    }
    let mut x = Machine::start(layout, 0, add);
    let mut y = Machine::start(layout, 0, other);
    let mut port = shared.port();
    let a = step(&mut port, &mut x, first);
    let b = step(&mut port, &mut y, second);
    let c = step(&mut port, &mut y, second);
    let d = step(&mut port, &mut x, first);
    let e = step(&mut port, &mut x, first);
    let f = step(&mut port, &mut x, first);
    Some([a, b, c, d, e, f])
}

// The step that makes a call with this reply and tag.
fn won(v: u32, tag: u64) -> Option<Step> {
    Some(Step::Won {
        reply: Reply::Done { v },
        tag,
    })
}

// An attempt that a look overtakes wins. One that an addition overtakes is lost, and wins at its second attempt.
#[test]
fn lost_attempt(rt: HostRuntime) -> Result<(), Fail> {
    let opened = match table_of(rt.alloc(), part(Kind::Cell, 1), 2, 0) {
        Ok(opened) => opened,
        Err(_) => return Err("no memory".into()),
    };
    let Opened { shared, mut seats } = opened;
    let Some(mut second) = seats.pop() else {
        return Err("no seat".into());
    };
    let Some(mut first) = seats.pop() else {
        return Err("no seat".into());
    };
    let looked = [
        Some(Step::Going),
        Some(Step::Going),
        won(0, 0),
        won(1, 1),
        None,
        None,
    ];
    let steps = overtaken(&shared, &mut first, &mut second, Call::Get);
    assert_eq!(rt; steps, Some(looked));
    let added = [
        Some(Step::Going),
        Some(Step::Going),
        won(2, 2),
        Some(Step::Lost {
            expected: 16_777_217,
            found: 33_554_434,
        }),
        Some(Step::Going),
        won(3, 3),
    ];
    let steps = overtaken(&shared, &mut first, &mut second, Call::Add { v: 1 });
    assert_eq!(rt; steps, Some(added));
    Ok(())
}
