// Lanes, each of which makes the scripts of its tasks with a seat of its own.
ghost use Rattle.rx_set.specs.Operations.{asked, operations_of, repeated};
ghost use Rattle.rx_lanes.specs.Lanes.{Adds, CanMakeAll, HasRoom, IsNew};
ghost use Rattle.rx_lanes.specs.Scripts.{lane_script};
ghost use Rattle.rx_seq.specs.History.{part_at};
ghost use Rattle.rx_seq.specs.Table.{fits_part};
ghost use Rattle.rx_set.specs.System.{parts_of};
ghost use Rattle.rx_table.specs.Tables.{IsSeatOf};
ghost use Rattle.std.specs.Prelude.{◌≡◌, ◌<◌, ◌≤◌, true, [], ◌∷◌, length, IfOk};

use crate::answers::Answer;
use crate::gates::Gate;
use crate::scripts::count_calls;
use rx_object::{Outcome, Runner};
use rx_seq::{Call, NoMemory};
use rx_set::{Item, TaskSet};
use rx_table::{Seat, Shared};
use std::alloc::Global;

/// A lane: its number from 0, its seat, the runner that makes its calls, how many operations it was asked for so far, and
/// the answer to each. It has room for all its answers from the start.
#[derive(Drop)]
pub struct Lane {
    pub number: u32,
    pub seat: Seat,
    pub runner: Runner,
    pub made: u64,
    pub answers: Vec<Answer>,
}

impl Lane {
    /// Passes the gate, and makes an operation. The tags of a run are never spent; where they are, there is no answer.
    fn make<G: Gate>(&mut self, shared: &Shared, gate: &G, object: u32, call: Call)
        requires ours { IsSeatOf shared.now self.old.seat }
        requires exists { object < length shared.now.layout.parts }
        requires fits { fits_part (part_at shared.now.layout.parts object) call ≡ true }
        requires room { HasRoom 1 self.old }
        ensures { Adds shared.now (asked object call ∷ []) self.old self.new }
    {
        self.made += 1;
        gate.pass(self.number, self.made);
        match self.runner.operate(shared, &mut self.seat, object, call) {
            Outcome::Done {
                reply,
                tag,
                retries: _,
            } => self.answers.push_reserved(Answer { reply, tag }),
            Outcome::Spent { tag: _ } => {}
        }
    }

    /// Makes the operations of one job.
    fn make_job<G: Gate>(&mut self, shared: &Shared, gate: &G, items: &[Item])
        requires ours { IsSeatOf shared.now self.old.seat }
        requires items { CanMakeAll shared.now.layout.parts items.now }
        requires room { HasRoom (length (operations_of items.now)) self.old }
        ensures { Adds shared.now (operations_of items.now) self.old self.new }
    {
        for item in items {
            match *item {
                Item::Work { n: _ } => {}
                Item::Op { object, call } => self.make(shared, gate, object, call),
            }
        }
    }

    /// Makes the operations of so many jobs with these items.
    fn make_jobs<G: Gate>(&mut self, shared: &Shared, gate: &G, items: &[Item], jobs: u32)
        requires ours { IsSeatOf shared.now self.old.seat }
        requires items { CanMakeAll shared.now.layout.parts items.now }
        requires room { HasRoom (length (repeated jobs (operations_of items.now))) self.old }
        ensures { Adds shared.now (repeated jobs (operations_of items.now)) self.old self.new }
    {
        for _ in 0..jobs {
            self.make_job(shared, gate, items);
        }
    }

    /// Makes the scripts of its tasks: those whose number, divided by the number of lanes, leaves that of the lane.
    pub fn run<G: Gate>(
        &mut self,
        shared: &Shared,
        gate: &G,
        set: &TaskSet,
        jobs: u32,
        workers: u32,
    )
        requires ours { IsSeatOf shared.now self.old.seat }
        requires parts { shared.now.layout.parts ≡ parts_of set.now }
        requires workers { 1 ≤ workers }
        requires room { HasRoom (length (lane_script set.now jobs workers self.old.number)) self.old }
        ensures { Adds shared.now (lane_script set.now jobs workers self.old.number) self.old self.new }
    {
        let tasks = set.tasks();
        for task in 0..tasks.len() {
            if task % workers as usize == self.number as usize {
                self.make_jobs(shared, gate, tasks[task].body.items(), jobs);
            }
        }
    }
}

/// A lane that was asked for nothing yet, with room for its answers.
pub fn lane_of(
    alloc: Global,
    set: &TaskSet,
    jobs: u32,
    workers: u32,
    number: u32,
    seat: Seat,
) -> Result<Lane, NoMemory>
    requires jobs { jobs ≤ 200 }
    requires workers { 1 ≤ workers }
    ensures number { IfOk result (λ lane. lane.number ≡ number) }
    ensures seat { IfOk result (λ lane. lane.seat ≡ seat) }
    ensures new { IfOk result (IsNew set.now jobs workers) }
{
    let count = count_calls(set, jobs, workers, number, set.tasks().len());
    let answers = match Vec::with_capacity(alloc, count) {
        Ok(answers) => answers,
        Err(_) => return Err(NoMemory),
    };
    Ok(Lane {
        number,
        seat,
        runner: Runner::new(),
        made: 0,
        answers,
    })
}
