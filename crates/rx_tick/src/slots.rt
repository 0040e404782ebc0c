// A slot: its preemption, the tick of its job, and its finish.
ghost use Rattle.std.specs.Prelude.{ℕ, ◌≡◌, ◌≢◌, ◌≤◌, ◌<◌, ◌+◌, ◌^◌, ◌++◌, ◌∷◌, [], false, not, ◌&&◌, List, length, Some};
ghost use Rattle.std.specs.Option.{ForSome};
ghost use Rattle.arrayvec.specs.ArrayVec.{array_vec_len};
ghost use Rattle.rx_set.specs.Valid.{IsJob, IsWorkAt};
ghost use Rattle.rx_set.specs.System.{System, task_of};
ghost use Rattle.rx_slots.specs.Schedule.{Slot, slots, slot_at, job_in, same, is_finished};
ghost use Rattle.rx_slots.specs.Events.{preempted, finish, events_of, decision};
ghost use Rattle.rx_tick.specs.States.{AreStates, IsTurn, AreBeforeDue, AreBeforeRelease, best_of, after_slot};
ghost use Rattle.rx_tick.specs.Banks.{HasTicked, IsBankOf, IsInHand, IsKept, IsTicking, KeepsMachines, Touches};

use crate::looks::{look_at_dues, look_at_releases, pick};
use crate::objects::Objects;
use crate::states::{Made, State};
use crate::ticks::MOST_EVENTS;
use crate::turns::Turn;
use arrayvec::ArrayVec;
use rx_ledger::Event;
use rx_set::{Item, Job, TaskSet};

/// Whether two jobs are one.
#[inline(always)]
fn is_same(a: Job, b: Job) -> bool
    ensures { result ≡ same a b }
{
    a.task == b.task && a.number == b.number
}

/// Whether a job that had the slot before is unfinished, and another job has this one.
#[inline(always)]
fn preempts(states: &[State], job: Job, by: Job) -> bool
    requires known { job.task < length states.now }
    requires number { 1 ≤ job.number }
    ensures { (system : System) (past : List Slot) (time : ℕ) → AreStates system past time states.now
        → result ≡ (not (same job by) && not (is_finished system past job)) }
{
    if is_same(job, by) {
        return false;
    }
    states[job.task as usize].finished < job.number
}

/// Tells the preemption at a slot, if there is one.
#[inline(always)]
fn tell_preemption(
    set: &TaskSet,
    states: &[State],
    turn: &Turn,
    now: u64,
    events: &mut ArrayVec<Event, MOST_EVENTS>,
)
    requires states { AreStates set.now (slots set.now now) (now + 1) states.now }
    requires last { ForSome turn.now.last (IsJob set.now) }
    requires room { array_vec_len events.old < MOST_EVENTS }
    ensures told { events.new.items ≡ events.old.items ++ preempted set.now (slots set.now now) turn.now.last turn.now.best }
    ensures few { array_vec_len events.new ≤ array_vec_len events.old + 1 }
{
    let job = match turn.last {
        Some(job) => job,
        None => return,
    };
    let by = match turn.best {
        Some(by) => by,
        None => return,
    };
    if !preempts(states, job, by) {
        return;
    }
    events.push(Event::Preempt { at: now, job, by });
}

/// Makes a tick of work of a job, which is the last of its item or not.
#[inline(always)]
fn work(set: &TaskSet, state: &State, job: Job, now: u64, objects: &Objects) -> Made
    requires is { IsTicking set.now now job state.now objects.now }
    requires work { IsWorkAt set.now job state.now.complete }
    ensures ticked { HasTicked set.now now job state.now result objects.now objects.now }
    ensures told { decision set.now (slots set.now now) (slot_at set.now now) ≡ [] }
{
    if state.made + 1 == set.ticks(job, state.complete as u32 + 1) {
        Made::Ended
    } else {
        Made::On
    }
}

/// Makes a tick of the item that a job has in hand, which is one of its body's.
#[inline(always)]
fn make_tick(
    set: &TaskSet,
    objects: &mut Objects,
    items: &[Item],
    state: &State,
    job: Job,
    now: u64,
    events: &mut ArrayVec<Event, MOST_EVENTS>,
) -> Made
    requires is { IsTicking set.now now job state.now objects.old }
    requires items { items.now ≡ (task_of set.now job).items }
    requires room { array_vec_len events.old < MOST_EVENTS }
    ensures ticked { HasTicked set.now now job state.now result objects.old objects.new }
    ensures told { events.new.items ≡ events.old.items ++ decision set.now (slots set.now now) (slot_at set.now now) }
    ensures few { array_vec_len events.new ≤ array_vec_len events.old + 1 }
{
    match &items[state.complete] {
        Item::Work { .. } => work(set, state, job, now, objects),
        Item::Op { object, call } => {
            objects.operate(set, state, job, *object, call, now, events)
        }
    }
}

/// Makes a tick of a job, and notes it in the state of its task.
#[inline(always)]
fn advance(
    set: &TaskSet,
    objects: &mut Objects,
    state: &mut State,
    job: Job,
    now: u64,
    events: &mut ArrayVec<Event, MOST_EVENTS>,
)
    requires is { IsTicking set.now now job state.old objects.old }
    requires finished { state.old.finished < 2 ^ 63 }
    requires room { array_vec_len events.old < MOST_EVENTS }
    ensures state { state.new ≡ after_slot set.now now job (slot_at set.now now) state.old }
    ensures bank { IsBankOf set.now (slot_at set.now now ∷ slots set.now now) objects.new.bank }
    ensures hand { IsInHand set.now (slot_at set.now now ∷ slots set.now now) objects.new job.task state.new }
    ensures machines { KeepsMachines job.task objects.old objects.new }
    ensures touches { Touches set.now (slots set.now now) (slot_at set.now now) objects.old.bank objects.new.bank }
    ensures told { events.new.items ≡ events.old.items ++ decision set.now (slots set.now now) (slot_at set.now now) }
    ensures few { array_vec_len events.new ≤ array_vec_len events.old + 1 }
{
    let items = set.tasks()[job.task as usize].body.items();
    let tick = make_tick(set, objects, items, state, job, now, events);
    state.note(tick, items.len(), now);
}

/// Gives the slot to a job that its task offers, and tells its finish if it is finished by it. Then another job may be
/// the soonest.
#[inline(always)]
fn give_slot(
    set: &TaskSet,
    states: &mut [State],
    objects: &mut Objects,
    turn: &mut Turn,
    job: Job,
    now: u64,
    events: &mut ArrayVec<Event, MOST_EVENTS>,
)
    requires now { now < 2 ^ 40 }
    requires states { AreStates set.now (slots set.now now) (now + 1) states.old }
    requires kept { IsKept set.now (slots set.now now) states.old objects.old }
    requires best { turn.old.best ≡ best_of set.now (length set.now.tasks) states.old }
    requires job { turn.old.best ≡ Some job }
    requires room { array_vec_len events.old < 130 }
    ensures states { AreStates set.now (slots set.now (now + 1)) (now + 1) states.new }
    ensures kept { IsKept set.now (slots set.now (now + 1)) states.new objects.new }
    ensures touches { Touches set.now (slots set.now now) (slot_at set.now now) objects.old.bank objects.new.bank }
    ensures best { turn.new.best ≡ best_of set.now (length set.now.tasks) states.new }
    ensures dues { AreBeforeDue set.now (now + 1) turn.old.next_due states.old → AreBeforeDue set.now (now + 1) turn.new.next_due states.new }
    ensures releases { AreBeforeRelease set.now turn.old.next_release states.old → AreBeforeRelease set.now turn.new.next_release states.new }
    ensures last { turn.new.last ≡ turn.old.last }
    ensures told { events.new.items ≡ events.old.items ++ (decision set.now (slots set.now now) (slot_at set.now now) ++ finish set.now (slots set.now now) (slot_at set.now now)) }
{
    let task = job.task as usize;
    let finished = states[task].finished;
    advance(set, objects, &mut states[task], job, now, events);
    if states[task].finished == finished {
        return;
    }
    events.push(Event::Finish { at: now, job });
    turn.best = pick(set, states);
}

/// Makes the slot of a time whose misses and releases are told: gives it to the soonest job, if there is one.
#[inline(always)]
fn take_slot(
    set: &TaskSet,
    states: &mut [State],
    objects: &mut Objects,
    turn: &mut Turn,
    now: u64,
    events: &mut ArrayVec<Event, MOST_EVENTS>,
)
    requires now { now < 2 ^ 40 }
    requires states { AreStates set.now (slots set.now now) (now + 1) states.old }
    requires kept { IsKept set.now (slots set.now now) states.old objects.old }
    requires best { turn.old.best ≡ best_of set.now (length set.now.tasks) states.old }
    requires dues { AreBeforeDue set.now (now + 1) turn.old.next_due states.old }
    requires releases { AreBeforeRelease set.now turn.old.next_release states.old }
    requires room { array_vec_len events.old < 130 }
    ensures states { AreStates set.now (slots set.now (now + 1)) (now + 1) states.new }
    ensures kept { IsKept set.now (slots set.now (now + 1)) states.new objects.new }
    ensures touches { Touches set.now (slots set.now now) (slot_at set.now now) objects.old.bank objects.new.bank }
    ensures turn { IsTurn set.now (now + 1) states.new turn.new }
    ensures told { events.new.items ≡ events.old.items ++ (decision set.now (slots set.now now) (slot_at set.now now) ++ finish set.now (slots set.now now) (slot_at set.now now)) }
{
    turn.last = turn.best;
    if let Some(job) = turn.best {
        give_slot(set, states, objects, turn, job, now, events);
    }
}

/// Makes the slot of a time, and tells its events.
#[inline(always)]
pub fn make_slot(
    set: &TaskSet,
    states: &mut [State],
    objects: &mut Objects,
    turn: &mut Turn,
    now: u64,
    events: &mut ArrayVec<Event, MOST_EVENTS>,
)
    requires now { now < 2 ^ 40 }
    requires states { AreStates set.now (slots set.now now) now states.old }
    requires turn { IsTurn set.now now states.old turn.old }
    requires kept { IsKept set.now (slots set.now now) states.old objects.old }
    requires empty { events.old.items ≡ [] }
    ensures states { AreStates set.now (slots set.now (now + 1)) (now + 1) states.new }
    ensures turn { IsTurn set.now (now + 1) states.new turn.new }
    ensures kept { IsKept set.now (slots set.now (now + 1)) states.new objects.new }
    ensures touches { Touches set.now (slots set.now now) (slot_at set.now now) objects.old.bank objects.new.bank }
    ensures slot { turn.new.last ≡ job_in (slot_at set.now now) }
    ensures told { events.new.items ≡ events_of set.now (slots set.now now) (slot_at set.now now) }
{
    look_at_dues(set, states, turn, now, events);
    look_at_releases(set, states, turn, now, events);
    tell_preemption(set, states, turn, now, events);
    take_slot(set, states, objects, turn, now, events);
}
