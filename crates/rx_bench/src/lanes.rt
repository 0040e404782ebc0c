// Threads that call on one object on shared words.
ghost use Rattle.rx_bench.specs.Lanes.{AreLanes, HasMade, HasOne};
ghost use Rattle.rx_seq.specs.Table.{fits_part};
ghost use Rattle.rx_table.specs.Tables.{AreSeats, IsSeatOf};
ghost use Rattle.std.specs.List.{sum_by};
ghost use Rattle.std.specs.Prelude.{◌^◌, ◌-◌, min, ◌≡◌, ◌<◌, ◌≤◌, true, IfOk, length};

use crate::plans::Plan;
use crate::scripts::{call_of, fill_call, fill_count};
use rx_object::{Outcome, Runner, operate};
use rx_seq::{NoMemory, Part};
use rx_shape::Layout;
use rx_table::{Opened, Seat, Shared};
use std::alloc::Global;
use std::thread::{Threads, for_each_mut};

/// How many calls were made, and how many attempts of them were lost.
#[derive(Clone, Copy, Debug, PartialEq, Eq)]
pub struct Tally {
    pub made: u64,
    pub retries: u64,
}

/// A thread's seat, and what it has done.
#[derive(Drop)]
pub struct Lane {
    seat: Seat,
    tally: Tally,
}

/// Makes so many calls of the script of a thread, or fewer where the tags are spent. It takes no memory.
fn run(shared: &Shared, seat: &mut Seat, part: Part, thread: usize, calls: u32) -> Tally
    requires ours { IsSeatOf shared.now seat.old }
    requires one { HasOne shared.now part }
    ensures ours { IsSeatOf shared.now seat.new }
    ensures made { HasMade seat.old.view seat.new.view result.made result.retries }
    ensures few { result.made ≤ calls }
{
    let mut runner = Runner::new();
    let mut made = 0;
    let mut retries = 0u64;
    for number in 0..calls {
        match runner.operate(shared, seat, 0, call_of(part, thread, number)) {
            Outcome::Done {
                reply: _,
                tag: _,
                retries: lost,
            } => {
                made += 1;
                retries = retries.saturating_add(lost);
            }
            Outcome::Spent { tag: _ } => return Tally { made, retries },
        }
    }
    Tally { made, retries }
}

/// Makes the calls that stand before those that are measured.
fn fill(shared: &Shared, seat: &mut Seat, part: Part)
    requires ours { IsSeatOf shared.now seat.old }
    requires one { HasOne shared.now part }
    ensures { IsSeatOf shared.now seat.new }
{
    for number in 0..fill_count(part) {
        operate(shared, seat, 0, fill_call(part, number));
    }
}

impl Lane {
    /// Makes the calls of the thread of this number.
    fn run(&mut self, shared: &Shared, part: Part, thread: usize, calls: u32)
        requires ours { IsSeatOf shared.now self.old.seat }
        requires one { HasOne shared.now part }
        ensures ours { IsSeatOf shared.now self.new.seat }
        ensures made { HasMade self.old.seat.view self.new.seat.view self.new.tally.made self.new.tally.retries }
    {
        self.tally = run(shared, &mut self.seat, part, thread, calls);
    }
}

/// A lane for each seat. The seat of the first lane, which is the last seat, has filled the object.
fn lanes_of(
    alloc: Global,
    shared: &Shared,
    mut seats: Vec<Seat>,
    part: Part,
) -> Result<Vec<Lane>, NoMemory>
    requires seats { AreSeats shared.now seats.items }
    requires one { HasOne shared.now part }
    ensures many { IfOk result (λ lanes. length lanes.items ≡ length seats.items) }
    ensures each { IfOk result (λ lanes. AreLanes shared.now lanes.items) }
{
    let mut lanes = Vec::new(alloc);
    while let Some(mut seat) = seats.pop() {
        if lanes.is_empty() {
            fill(shared, &mut seat, part);
        }
        let tally = Tally {
            made: 0,
            retries: 0,
        };
        match lanes.push(Lane { seat, tally }) {
            Ok(()) => {}
            Err(_) => return Err(NoMemory),
        }
    }
    Ok(lanes)
}

/// What all lanes did, as far as a number of 64 bits can tell.
fn total(lanes: &[Lane]) -> Tally
    ensures made { result.made ≡ min (sum_by (λ lane. lane.tally.made) lanes.now) (2 ^ 64 - 1) }
    ensures retries { result.retries ≡ min (sum_by (λ lane. lane.tally.retries) lanes.now) (2 ^ 64 - 1) }
{
    let mut made = 0u64;
    let mut retries = 0u64;
    for lane in lanes {
        made = made.saturating_add(lane.tally.made);
        retries = retries.saturating_add(lane.tally.retries);
    }
    Tally { made, retries }
}

/// Makes the calls of a plan on a new table, each thread with a seat of its own.
pub fn on_table<R: Threads + Sync>(rt: &R, alloc: Global, plan: Plan) -> Result<Tally, NoMemory> {
    let layout = Layout::new(alloc, &[plan.part], plan.threads, 0)?;
    let Opened { shared, seats } = Shared::new(alloc, layout)?;
    let mut lanes = lanes_of(alloc, &shared, seats, plan.part)?;
    let table = &shared;
    for_each_mut(
        rt,
        lanes.as_mut_slice(),
        plan.threads as usize,
        &|thread, lane| lane.run(table, plan.part, thread, plan.calls),
    );
    Ok(total(lanes.as_slice()))
}
