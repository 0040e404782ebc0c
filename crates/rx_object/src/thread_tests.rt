// Two threads that call on one table at once. What each of them recorded is, put in the order of the tags, one legal
// history of each object: the calls that changed nothing stand after the call that gave the tag.
ghost use Rattle.rx_seq.specs.States.{IsState};
ghost use Rattle.rx_seq.specs.Table.{IsPart};
ghost use Rattle.rx_table.specs.Tables.{AreSeats, IsSeatOf};
ghost use Rattle.std.specs.Prelude.{◌≡◌, ◌≤◌, IfOk, IfSome};

use super::*;
use rx_seq::{Call, Kind, NoMemory, Part, Reply, Row, State, apply, fits, quiet, start};
use rx_shape::Layout;
use rx_table::{Closed, Opened, Seat, Shared};
use std::alloc::Global;
use std::process::Abort;
use std::test::Fail;
use std::thread::{Threads, join};

// How many objects there are, and how many calls each thread makes on each of them.
const OBJECTS: u32 = 4;

const CALLS: u32 = 1000;

// A call that a thread made.
#[derive(Clone, Copy)]
struct Record {
    object: u32,
    call: Call,
    reply: Reply,
    tag: u64,
    retries: u64,
}

// A thread's seat, the runner that makes its calls, the number of its script, and what it has recorded.
#[derive(Drop)]
struct Worker {
    seat: Seat,
    runner: Runner,
    script: u32,
    records: Vec<Record>,
}

// A table with an object of each kind, and its two seats.
fn open(alloc: Global) -> Result<Opened, NoMemory>
    ensures two { IfOk result (λ opened. opened.shared.layout.seats ≡ 2) }
    ensures seats { IfOk result (λ opened. AreSeats opened.shared opened.seats.items) }
{
    let kinds = [
        Part {
            kind: Kind::Cell,
            cap: 1,
        },
        Part {
            kind: Kind::Queue,
            cap: 3,
        },
        Part {
            kind: Kind::List,
            cap: 3,
        },
        Part {
            kind: Kind::Registers,
            cap: 4,
        },
    ];
    let layout = Layout::new(alloc, &kinds, 2, 0)?;
    Shared::new(alloc, layout)
}

// The call of a script with this number, on an object of this kind. Each kind of call comes again and again.
fn call_of(script: u32, kind: Kind, number: u32) -> Call {
    let k = number.wrapping_mul(7).wrapping_add(script.wrapping_mul(3));
    match kind {
        Kind::Cell => call_on_cell(number, k),
        Kind::Queue if number % 8 < 4 => Call::Put { v: k },
        Kind::Queue => Call::Take,
        Kind::List => call_on_list(number, k),
        Kind::Registers => call_on_registers(number, k),
    }
}

fn call_on_cell(number: u32, k: u32) -> Call {
    match number % 5 {
        0 => Call::Get,
        1 => Call::Set { v: k % 3 },
        2 => Call::Swap {
            old: k % 3,
            new: k % 100,
        },
        _ => Call::Add { v: 8_388_608 },
    }
}

fn call_on_list(number: u32, k: u32) -> Call {
    match number % 7 {
        0..=3 => Call::Insert { k: k % 5 },
        4 => Call::Has { k: k % 5 },
        _ => Call::Remove { k: k % 5 },
    }
}

fn call_on_registers(number: u32, k: u32) -> Call {
    match number % 3 {
        0 => Call::Read { i: k % 4 },
        1 => Call::Shift {
            from: k % 3,
            to: (k % 3 + 1) % 3,
            n: 1_000_000_000,
        },
        _ => Call::Multi {
            count: 2,
            rows: [
                Row {
                    i: 3,
                    old: k % 3,
                    new: (k % 3 + 1) % 3,
                },
                Row {
                    i: 0,
                    old: 0,
                    new: 4_000_000_000,
                },
                Row::default(),
                Row::default(),
            ],
        },
    }
}

impl Worker {
    // Makes the call of the script with this number, and records it. It makes none where the object is not there.
    fn call(&mut self, shared: &Shared, object: u32, number: u32)
        requires { IsSeatOf shared.now self.old.seat }
        ensures ours { IsSeatOf shared.now self.new.seat }
        ensures number { self.new.seat.view.number ≡ self.old.seat.view.number }
    {
        let parts = shared.layout().parts();
        if object as usize >= parts.len() {
            return;
        }
        let part = parts[object as usize];
        let call = call_of(self.script, part.kind, number);
        if !fits(part, call) {
            return;
        }
        if let Outcome::Done {
            reply,
            tag,
            retries,
        } = self.runner.operate(shared, &mut self.seat, object, call)
        {
            let _ = self.records.push(Record {
                object,
                call,
                reply,
                tag,
                retries,
            });
        }
    }

    // Makes all calls of the script, on one object after the other.
    fn run(mut self, shared: &Shared) -> Worker
        requires { IsSeatOf shared.now self.seat }
        ensures ours { IsSeatOf shared.now result.seat }
        ensures number { result.seat.view.number ≡ self.seat.view.number }
    {
        for step in 0..OBJECTS * CALLS {
            self.call(shared, step % OBJECTS, step / OBJECTS);
        }
        self
    }
}

// Both threads make all their calls.
fn both_run<R: Threads + Sync>(
    rt: &R,
    shared: &Shared,
    first: Worker,
    second: Worker,
) -> (Worker, Worker)
    requires first { IsSeatOf shared.now first.seat }
    requires second { IsSeatOf shared.now second.seat }
    ensures first { IsSeatOf shared.now result.0.seat × (result.0.seat.view.number ≡ first.seat.view.number) }
    ensures second { IsSeatOf shared.now result.1.seat × (result.1.seat.view.number ≡ second.seat.view.number) }
{
    join(
        rt,
        || -> Worker
            requires { IsSeatOf shared.now first.seat }
            ensures { IsSeatOf shared.entry.now result.seat × (result.seat.view.number ≡ first.seat.view.number) }
        { first.run(shared) },
        || -> Worker
            requires { IsSeatOf shared.now second.seat }
            ensures { IsSeatOf shared.entry.now result.seat × (result.seat.view.number ≡ second.seat.view.number) }
        { second.run(shared) },
    )
}

// A worker with room for what it will record.
fn with_room(alloc: Global, seat: Seat, script: u32) -> Option<Worker>
    ensures { IfSome result (λ worker. worker.seat ≡ seat) }
{
    let records = Vec::with_capacity(alloc, (OBJECTS * CALLS) as usize).ok()?;
    Some(Worker {
        seat,
        runner: Runner::new(),
        script,
        records,
    })
}

// The two workers of a new table, after they have run, and the closed table.
fn run_both<R: Threads + Sync>(
    rt: &R,
    alloc: Global,
) -> Option<(Closed, Vec<Record>, Vec<Record>)> {
    let opened = match open(alloc) {
        Ok(opened) => opened,
        Err(_) => return None,
    };
    let Opened { shared, mut seats } = opened;
    let Some(second) = seats.pop() else {
        return None;
    };
    let Some(first) = seats.pop() else {
        return None;
    };
    let second = with_room(alloc, second, 1)?;
    let first = with_room(alloc, first, 0)?;
    let (first, second) = both_run(rt, &shared, first, second);
    let closed = close(alloc, shared, first.seat, second.seat)?;
    Some((closed, first.records, second.records))
}

// Closes a table with its two seats.
fn close(alloc: Global, shared: Shared, first: Seat, second: Seat) -> Option<Closed>
    requires two { shared.layout.seats ≡ 2 }
    requires first { IsSeatOf shared first × (first.view.number ≡ 0) }
    requires second { IsSeatOf shared second × (second.view.number ≡ 1) }
{
    let mut seats = Vec::new(alloc);
    seats.push(first).ok()?;
    seats.push(second).ok()?;
    shared.close(alloc, seats).ok()
}

// Puts the loud calls on an object at the places of their tags, from tag 1, and gathers the quiet ones. It says whether
// each loud one has a place of its own, and each quiet one a tag that is there.
fn put_in_order(
    louds: &mut [Option<Record>],
    quiets: &mut Vec<Record>,
    records: &[Record],
    object: u32,
) -> bool {
    for record in records {
        if record.object == object && quiet(record.call, record.reply) {
            if record.tag > louds.len() as u64 || quiets.push(*record).is_err() {
                return false;
            }
        } else if record.object == object {
            let place = record.tag.wrapping_sub(1) as usize;
            if place >= louds.len() || louds[place].is_some() {
                return false;
            }
            louds[place] = Some(*record);
        }
    }
    true
}

// Makes a call again, and says whether it has the same reply.
fn repeats(part: Part, state: &mut State, record: &Record) -> bool
    requires part { IsPart part }
    requires state { IsState part state.old.items }
    ensures { IsState part state.new.items }
{
    fits(part, record.call) && apply(part, state, record.call) == record.reply
}

// Makes the quiet calls of a tag again, and says whether each has the same reply.
fn looks(part: Part, state: &mut State, quiets: &[Record], tag: u64) -> bool
    requires part { IsPart part }
    requires state { IsState part state.old.items }
    ensures { IsState part state.new.items }
{
    for record in quiets {
        if record.tag == tag && !repeats(part, state, record) {
            return false;
        }
    }
    true
}

// The state after the loud calls, with the quiet ones of a tag after the loud one that has it, or none where a loud call
// is missing or a call has another reply.
fn replay(part: Part, louds: &[Option<Record>], quiets: &[Record]) -> Option<State>
    requires { IsPart part }
{
    let mut state = State::new();
    start(part, &mut state);
    if !looks(part, &mut state, quiets, 0) {
        return None;
    }
    for place in louds {
        let record = (*place)?;
        if !repeats(part, &mut state, &record) || !looks(part, &mut state, quiets, record.tag) {
            return None;
        }
    }
    Some(state)
}

// How many calls on an object there are, how many of them are loud, and how often one of them was lost.
fn calls_and_retries(records: &[Record], object: u32) -> (u64, u64, u64) {
    let mut calls = 0u64;
    let mut louds = 0u64;
    let mut retries = 0u64;
    for record in records {
        if record.object == object {
            calls = calls.saturating_add(1);
            retries = retries.saturating_add(record.retries);
            if !quiet(record.call, record.reply) {
                louds = louds.saturating_add(1);
            }
        }
    }
    (calls, louds, retries)
}

// Checks what both threads recorded of an object against one another and against the closed table.
fn check(
    rt: &impl Abort,
    alloc: Global,
    closed: &Closed,
    object: u32,
    first: &[Record],
    second: &[Record],
) {
    let layout = closed.layout();
    assert!(rt; (object as usize) < layout.parts().len());
    let calls = u64::from(CALLS);
    let (made, loud, lost) = calls_and_retries(first, object);
    let (made_too, loud_too, lost_too) = calls_and_retries(second, object);
    assert_eq!(rt; (made, made_too), (calls, calls), "object {object}");
    assert!(rt; lost <= loud_too && lost_too <= loud, "object {object}");
    let tag = closed.tag(object);
    assert_eq!(rt; tag, loud.saturating_add(loud_too), "object {object}");
    let mut louds = Vec::from_elem(alloc, None, tag as usize).expect(rt, "memory");
    let mut quiets = Vec::new(alloc);
    assert!(rt;
        put_in_order(louds.as_mut_slice(), &mut quiets, first, object),
        "object {object}"
    );
    assert!(rt;
        put_in_order(louds.as_mut_slice(), &mut quiets, second, object),
        "object {object}"
    );
    let part = layout.parts()[object as usize];
    let replayed = replay(part, louds.as_slice(), quiets.as_slice());
    let mut state = State::new();
    closed.state(object, &mut state);
    assert_eq!(rt; replayed, Some(state), "object {object}");
}

#[test]
fn two_threads(rt: HostRuntime) -> Result<(), Fail> {
    let Some((closed, first, second)) = run_both(&rt, rt.alloc()) else {
        return Err("no memory".into());
    };
    for object in 0..OBJECTS {
        check(
            &rt,
            rt.alloc(),
            &closed,
            object,
            first.as_slice(),
            second.as_slice(),
        );
    }
    Ok(())
}
