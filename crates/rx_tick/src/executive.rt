// The executive.
ghost use Rattle.std.specs.Prelude.{ℕ, ◌≡◌, ◌≢◌, ◌≤◌, ◌<◌, ◌+◌, ◌^◌, count_by, IfOk, Some, None, []};
ghost use Rattle.rx_ledger.specs.Counts.{is_miss};
ghost use Rattle.rx_ledger.specs.Intervals.{any_job, preemptions, releases, retries};
ghost use Rattle.rx_port.specs.Seats.{no_counts};
ghost use Rattle.rx_set.specs.Valid.{KeepsCosts};
ghost use Rattle.rx_set.specs.declared.policies.Policy.TheVariants.{Edf};
ghost use Rattle.rx_slots.specs.Admitted.{IsAdmitted};
ghost use Rattle.rx_slots.specs.Charges.{of_rank_below, of_rank_to};
ghost use Rattle.rx_tick.specs.Banks.{IsBankOf, Touches};
ghost use Rattle.rx_tick.specs.Executive.{moment};
ghost use Rattle.rx_tick.specs.Sums.{AreSums};
ghost use Rattle.rx_tick.specs.States.{AreStates, IsTurn, first_state_of};
ghost use Rattle.rx_set.specs.View.{row_of};
ghost use Rattle.rx_slots.specs.Schedule.{slots, slot_at, job_in};
ghost use Rattle.rx_slots.specs.Events.{events, events_of, misses};

use crate::looks::tell_misses;
use crate::objects::Objects;
use crate::slots::make_slot;
use crate::states::State;
use crate::ticks::Tick;
use crate::turns::Turn;
use rx_port::Bank;
use rx_seq::NoMemory;
use rx_set::{Task, TaskSet};
use rx_slots::charges::retries_are_bounded;
use rx_slots::windows::{fitting_spans_miss_nothing, served_sets_miss_nothing};
use std::alloc::Global;
use std::marker::Model;

/// The state of a task before the first slot.
fn first_state(task: &Task) -> State
    ensures { result ≡ first_state_of (row_of task.now) }
{
    State {
        released: 0,
        next: task.offset,
        finished: 0,
        complete: 0,
        made: 0,
        first: 0,
    }
}

/// The states of all tasks before the first slot.
fn first_states(alloc: Global, set: &TaskSet) -> Result<Vec<State>, NoMemory>
    ensures states { IfOk result (λ states. AreStates set.now [] 0 states.items) }
    ensures turn { IfOk result (λ states. IsTurn set.now 0 states.items (record { next_release = 0; next_due = 0; best = None; last = None })) }
{
    let tasks = set.tasks();
    let mut states = match Vec::with_capacity(alloc, tasks.len()) {
        Ok(states) => states,
        Err(_) => return Err(NoMemory),
    };
    for task in tasks {
        match states.push(first_state(task)) {
            Ok(()) => {}
            Err(_) => return Err(NoMemory),
        }
    }
    Ok(states)
}

/// One simulated processor, and a set of tasks that it runs, slot by slot, with the objects that they share. It keeps one
/// started job per task, with a machine for the operation that it has in hand, and counts of released and finished jobs.
/// An operation is a retry loop (after Anderson, Ramamurthy and Jeffay, 1997): an attempt is lost where another one on
/// its object won, and raised its tag, strictly between its first slot and its last. One whose call is quiet
/// raises no tag, and makes no other one repeat.
#[derive(Drop)]
pub struct Executive<'s> {
    set: &'s TaskSet,
    time: u64,
    states: Vec<State>,
    turn: Turn,
    objects: Objects,
}

impl<'s> Model for Executive<'s> {
    ghost use Rattle.rx_tick.specs.Executive.{Moment, IsExecutive, moment};

    ghost Value = { Moment };

    ghost view = { λ e. moment e.set.now e.time e.objects.bank };

    ghost invariant = { λ e. IsExecutive e.set.now e.time e.states.items e.turn e.objects };
}

impl<'s> Executive<'s> {
    /// The executive of a set before its first slot, on a new bank: one with the set's objects, whose tags start at 0, a
    /// seat for each task, and no event yet. It takes memory for each task: about 2,600 bytes for its machine, and little
    /// more.
    pub fn new(alloc: Global, set: &'s TaskSet, bank: Bank) -> Result<Executive<'s>, NoMemory>
        requires bank { IsBankOf set.now [] bank }
        requires counts { bank.core.counts ≡ Some no_counts }
        ensures { IfOk result (λ e. e ≡ moment set.now 0 bank) }
    {
        let states = match first_states(alloc, set) {
            Ok(states) => states,
            Err(error) => return Err(error),
        };
        let objects = match Objects::new(alloc, set.tasks().len(), bank) {
            Ok(objects) => objects,
            Err(error) => return Err(error),
        };
        Ok(Executive {
            set,
            time: 0,
            states,
            turn: Turn {
                next_release: 0,
                next_due: 0,
                best: None,
                last: None,
            },
            objects,
        })
    }

    /// The number of slots so far. Its cost is constant.
    pub fn now(&self) -> u64
        ensures { result ≡ self.now.time }
    {
        self.time
    }

    /// Makes the next slot, and tells it and its events: misses and releases in file order of the tasks, preemption,
    /// reply or retry, finish. The first tick of an attempt makes one load on the bank, the last one an exchange, and each
    /// other one a load, a store or nothing; a slot that belongs to no attempt touches nothing. A store goes into a place
    /// that the seat of the job's task owns, and an exchange to the root of the attempt's object. It wants fewer than 2^40
    /// slots so far, and takes no memory, which no clause says. Where no job is released or finished and none can be
    /// missed, its cost is that of a machine's step, and else it grows with the number of tasks too.
    ///
    /// In each interval the retries so far, with those of this slot, are at most the preemptions, and under fixed
    /// priorities those of the tasks of the first ranks are at most the releases of tasks of lower ranks. Where an
    /// admission test holds for the set, and the costs that it states are kept, no miss is among the events.
    //
    // It is asked for each slot of a run, and so are the functions inside it: each is a part of this one where it has no
    // loop, which saves instructions in every slot.
    #[inline(always)]
    pub fn tick(&mut self, out: &mut Tick)
        requires { self.old.time < 2 ^ 40 }
        ensures at { out.new.at ≡ self.old.time }
        ensures slot { out.new.slot ≡ job_in (slot_at self.old.system self.old.time) }
        ensures events { out.new.events.items ≡ events_of self.old.system (slots self.old.system self.old.time) (slot_at self.old.system self.old.time) }
        ensures next { self.new ≡ moment self.old.system (self.old.time + 1) self.new.bank }
        ensures touches { Touches self.old.system (slots self.old.system self.old.time) (slot_at self.old.system self.old.time) self.old.bank self.new.bank }
        ensures charge { (a b : ℕ) → retries any_job a b (events self.old.system (self.old.time + 1)) ≤ preemptions any_job a b (events self.old.system (self.old.time + 1)) }
        ensures ranks { self.old.system.policy ≢ Edf → (place a b : ℕ) →
            retries (of_rank_to self.old.system place) a b (events self.old.system (self.old.time + 1)) ≤ releases (of_rank_below self.old.system place) a b (events self.old.system (self.old.time + 1)) }
        ensures on_time { KeepsCosts self.old.system → IsAdmitted self.old.system → count_by is_miss out.new.events.items ≡ 0 }
    {
        retries_are_bounded();
        served_sets_miss_nothing();
        fitting_spans_miss_nothing();
        out.at = self.time;
        out.events.clear();
        make_slot(
            self.set,
            &mut self.states,
            &mut self.objects,
            &mut self.turn,
            self.time,
            &mut out.events,
        );
        out.slot = self.turn.last;
        self.time += 1;
    }

    /// Tells the misses of this time alone, with no slot. There is none where an admission test holds for the set, and the
    /// costs that it states are kept. It takes no memory, and its cost grows with the number of tasks.
    pub fn late(&self, out: &mut Tick)
        ensures at { out.new.at ≡ self.now.time }
        ensures slot { out.new.slot ≡ None }
        ensures events { out.new.events.items ≡ misses self.now.system (slots self.now.system self.now.time) }
        ensures on_time { KeepsCosts self.now.system → IsAdmitted self.now.system → out.new.events.items ≡ [] }
    {
        served_sets_miss_nothing();
        fitting_spans_miss_nothing();
        out.at = self.time;
        out.slot = None;
        out.events.clear();
        tell_misses(self.set, self.states.as_slice(), self.time, &mut out.events);
    }

    /// Gives the bank back, which has the set's objects and a seat for each task and stands for the history of the
    /// schedule: the tag of each object is the number of its loud entries, and its state is the replay of its entries. It
    /// made one exchange for each attempt that was decided, at least a load for each that had a slot, and at most one event
    /// in each slot of an attempt. Its cost is constant.
    pub fn into_bank(self) -> Bank
        ensures bank { result ≡ self.entry.bank }
        ensures history { IsBankOf self.entry.system (slots self.entry.system self.entry.time) result }
        ensures sums { AreSums self.entry.system (slots self.entry.system self.entry.time) result.core.counts }
    {
        self.objects.into_bank()
    }
}
