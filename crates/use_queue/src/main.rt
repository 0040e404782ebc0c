//! Two threads on one queue, without a lock: one puts numbers, and the other takes what it finds. Then the table is closed,
//! and the program prints what is the same whatever the order of the threads' steps.
#![tactic(auto)]

ghost use Rattle.rx_seq.specs.declared.kinds.Kind.TheVariants.{Queue};
ghost use Rattle.rx_table.specs.Tables.{IsSeatOf};
ghost use Rattle.std.specs.Prelude.{◌≡◌, ◌<◌, [], ◌∷◌, IfOk, length};

use rx_object::{Outcome, Runner};
use rx_seq::{Call, Kind, NoMemory, Part, Reply, State};
use rx_shape::Layout;
use rx_table::{Closed, Opened, Seat, Shared};
use std::alloc::Global;
use std::io;
use std::thread::{Threads, join};

/// The number of the queue among the objects of the table, which has no other.
const QUEUE: u32 = 0;

/// How many calls each thread makes. The queue has room for all numbers that are put.
const CALLS: u32 = 64;

/// Puts the numbers from 1 on through a seat. It gives the seat back, with the sum of the numbers that were put.
fn put_numbers(shared: &Shared, mut seat: Seat) -> (Seat, u64)
    requires seat { IsSeatOf shared.now seat }
    requires queue { shared.now.layout.parts ≡ record { kind = Queue; cap = 64 } ∷ [] }
    ensures seat { IsSeatOf shared.now result.0 × (result.0.view.number ≡ seat.view.number) }
{
    let mut runner = Runner::new();
    let mut sum = 0u64;
    for v in 1..=CALLS {
        if let Outcome::Done {
            reply: Reply::Done { .. },
            ..
        } = runner.operate(shared, &mut seat, QUEUE, Call::Put { v })
        {
            sum = sum.saturating_add(u64::from(v));
        }
    }
    (seat, sum)
}

/// Takes numbers through a seat, where there are any. It gives the seat back, with the sum of the numbers that were taken.
fn take_numbers(shared: &Shared, mut seat: Seat) -> (Seat, u64)
    requires seat { IsSeatOf shared.now seat }
    requires queue { shared.now.layout.parts ≡ record { kind = Queue; cap = 64 } ∷ [] }
    ensures seat { IsSeatOf shared.now result.0 × (result.0.view.number ≡ seat.view.number) }
{
    let mut runner = Runner::new();
    let mut sum = 0u64;
    for _ in 0..CALLS {
        if let Outcome::Done {
            reply: Reply::Done { v },
            ..
        } = runner.operate(shared, &mut seat, QUEUE, Call::Take)
        {
            sum = sum.saturating_add(u64::from(v));
        }
    }
    (seat, sum)
}

/// Has one thread put numbers while another takes them.
fn run_both<R: Threads + Sync>(
    rt: &R,
    shared: &Shared,
    first: Seat,
    second: Seat,
) -> ((Seat, u64), (Seat, u64))
    requires seats { IsSeatOf shared.now first × IsSeatOf shared.now second }
    requires queue { shared.now.layout.parts ≡ record { kind = Queue; cap = 64 } ∷ [] }
    ensures first { IsSeatOf shared.now result.0.0 × (result.0.0.view.number ≡ first.view.number) }
    ensures second { IsSeatOf shared.now result.1.0 × (result.1.0.view.number ≡ second.view.number) }
{
    join(
        rt,
        || -> (Seat, u64)
            requires { IsSeatOf shared.now first × (shared.now.layout.parts ≡ record { kind = Queue; cap = 64 } ∷ []) }
            ensures { IsSeatOf shared.entry.now result.0 × (result.0.view.number ≡ first.view.number) }
        { put_numbers(shared, first) },
        || -> (Seat, u64)
            requires { IsSeatOf shared.now second × (shared.now.layout.parts ≡ record { kind = Queue; cap = 64 } ∷ []) }
            ensures { IsSeatOf shared.entry.now result.0 × (result.0.view.number ≡ second.view.number) }
        { take_numbers(shared, second) },
    )
}

/// Has two threads use a new queue, and closes its table. With it come the sums of what was put and of what was taken.
fn use_queue<R: Threads + Sync>(rt: &R, alloc: Global) -> Result<(Closed, u64, u64), NoMemory>
    ensures { IfOk result (λ r. 0 < length r.0.layout.parts) }
{
    let queue = Part {
        kind: Kind::Queue,
        cap: 64,
    };
    let layout = Layout::new(alloc, &[queue], 2, 0)?;
    let Opened { shared, mut seats } = Shared::new(alloc, layout)?;
    let Some(second) = seats.pop() else {
        unreachable!()
    };
    let Some(first) = seats.pop() else {
        unreachable!()
    };
    let ((first, put), (second, taken)) = run_both(rt, &shared, first, second);
    let seats = match vec![in alloc; first, second] {
        Ok(seats) => seats,
        Err(_) => return Err(NoMemory),
    };
    match shared.close(alloc, seats) {
        Ok(closed) => Ok((closed, put, taken)),
        Err(_) => Err(NoMemory),
    }
}

/// Prints how often the queue was changed, which is its tag, with how many numbers are left, and the sum of the numbers
/// that were put beside that of the numbers that were taken and those that are left.
fn report(rt: &impl Print, closed: &Closed, put: u64, taken: u64) -> io::Result<()>
    requires { 0 < length closed.now.layout.parts }
{
    let mut state = State::new();
    closed.state(QUEUE, &mut state);
    let both = state
        .iter()
        .fold(taken, |sum, v| sum.saturating_add(u64::from(*v)));
    let changes = closed.tag(QUEUE).saturating_add(state.len() as u64);
    println!(rt; "changes and left {changes}")?;
    println!(rt; "put {put}")?;
    println!(rt; "taken and left {both}")
}

fn main(rt: HostRuntime) -> io::Result<()> {
    match use_queue(&rt, rt.alloc()) {
        Ok((closed, put, taken)) => report(&rt, &closed, put, taken),
        Err(NoMemory) => println!(rt; "no memory"),
    }
}
