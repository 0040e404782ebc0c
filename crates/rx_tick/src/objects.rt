// Operations on shared objects: the bank, and a machine of each task, which makes its attempts.
ghost use Rattle.std.specs.Prelude.{ℕ, ◌≡◌, ◌≤◌, ◌<◌, ◌+◌, ◌++◌, ◌∷◌, [], Some, IfOk, true, length};
ghost use Rattle.arrayvec.specs.ArrayVec.{array_vec_len};
ghost use Rattle.rx_machine.specs.Operations.{fresh};
ghost use Rattle.rx_seq.specs.History.{part_at};
ghost use Rattle.rx_seq.specs.Table.{fits_part};
ghost use Rattle.rx_set.specs.System.{item_at};
ghost use Rattle.rx_set.specs.declared.items.Item.TheVariants.{Op};
ghost use Rattle.rx_shape.specs.Layout.{home};
ghost use Rattle.rx_tick.specs.Banks.{CanStep, HasStepped, HasTicked, IsTicking};
ghost use Rattle.rx_slots.specs.Events.{decision};
ghost use Rattle.rx_slots.specs.Schedule.{slot_at, slots};

use crate::states::{Made, State};
use crate::ticks::MOST_EVENTS;
use arrayvec::ArrayVec;
use rx_ledger::Event;
use rx_machine::laws::steps_on_a_bank;
use rx_machine::{Machine, Step};
use rx_port::Bank;
use rx_seq::{Call, NoMemory};
use rx_set::{Job, TaskSet};
use rx_shape::{Layout, tag_of};
use std::alloc::Global;

/// The bank, and the machine of each task, which is there from the task's first operation on.
#[derive(Drop)]
pub struct Objects {
    pub bank: Bank,
    pub machines: Vec<Option<Machine>>,
}

/// Makes a machine for the first operation of a task. It is a function of its own since a machine is large.
#[cold]
#[inline(never)]
fn set_up(machine: &mut Option<Machine>, layout: &Layout, object: u32, call: &Call)
    requires exists { object < length layout.now.parts }
    requires fits { fits_part (part_at layout.now.parts object) call.now ≡ true }
    ensures { machine.new ≡ Some (fresh (home layout.now object) object call.now) }
{
    *machine = Some(Machine::start(layout, object, *call));
}

/// Makes the machine of a task that of an operation whose attempt has had no tick. One that has had some goes on.
fn take_up(machine: &mut Option<Machine>, layout: &Layout, made: u64, object: u32, call: &Call)
    requires exists { object < length layout.now.parts }
    requires fits { fits_part (part_at layout.now.parts object) call.now ≡ true }
    ensures first { made ≡ 0 → machine.new ≡ Some (fresh (home layout.now object) object call.now) }
    ensures later { 1 ≤ made → machine.new ≡ machine.old }
{
    if made > 0 {
        return;
    }
    match machine {
        Some(machine) => machine.restart(layout, object, *call),
        None => set_up(machine, layout, object, call),
    }
}

/// Makes a step of the machine of a task with its seat.
fn make_step(machine: &mut Option<Machine>, bank: &mut Bank, task: u32) -> Step
    requires { CanStep bank.old task machine.old }
    ensures { HasStepped bank.old bank.new task machine.old machine.new result }
{
    let mut seat = task;
    match machine {
        Some(machine) => machine.step(bank, &mut seat),
        None => unreachable!(),
    }
}

impl Objects {
    /// A bank, and room for a machine of each of so many tasks.
    pub fn new(alloc: Global, tasks: usize, bank: Bank) -> Result<Objects, NoMemory>
        ensures bank { IfOk result (λ objects. objects.bank ≡ bank) }
        ensures machines { IfOk result (λ objects. length objects.machines.items ≡ tasks) }
    {
        let mut machines = match Vec::with_capacity(alloc, tasks) {
            Ok(machines) => machines,
            Err(_) => return Err(NoMemory),
        };
        for _ in 0..tasks {
            match machines.push(None) {
                Ok(()) => {}
                Err(_) => return Err(NoMemory),
            }
        }
        Ok(Objects { bank, machines })
    }

    /// Gives the bank back.
    pub fn into_bank(self) -> Bank
        ensures { result ≡ self.bank }
    {
        self.bank
    }

    /// Makes a tick of an operation of a job, and tells its reply or its retry where it is the last one of an attempt.
    #[inline(always)]
    pub fn operate(
        &mut self,
        set: &TaskSet,
        state: &State,
        job: Job,
        object: u32,
        call: &Call,
        now: u64,
        events: &mut ArrayVec<Event, MOST_EVENTS>,
    ) -> Made
        requires is { IsTicking set.now now job state.now self.old }
        requires item { item_at set.now job state.now.complete ≡ Some (Op object call.now) }
        requires room { array_vec_len events.old < MOST_EVENTS }
        ensures ticked { HasTicked set.now now job state.now result self.old self.new }
        ensures told { events.new.items ≡ events.old.items ++ decision set.now (slots set.now now) (slot_at set.now now) }
        ensures few { array_vec_len events.new ≤ array_vec_len events.old + 1 }
    {
        steps_on_a_bank();
        let task = job.task as usize;
        take_up(
            &mut self.machines[task],
            self.bank.layout(),
            state.made,
            object,
            call,
        );
        match make_step(&mut self.machines[task], &mut self.bank, job.task) {
            Step::Won { reply, tag } => {
                events.push(Event::Reply {
                    at: now,
                    first: state.first,
                    job,
                    item: state.complete as u32 + 1,
                    reply,
                    tag,
                });
                Made::Ended
            }
            Step::Lost { expected, found } => {
                events.push(Event::Retry {
                    at: now,
                    first: state.first,
                    job,
                    item: state.complete as u32 + 1,
                    expected: tag_of(expected),
                    found: tag_of(found),
                });
                Made::Lost
            }
            Step::Going | Step::Idle => Made::On,
            Step::Spent { .. } => unreachable!(),
        }
    }
}
