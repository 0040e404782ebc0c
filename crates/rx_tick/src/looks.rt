// What comes at a time before its slot: misses and releases, and then which pending job is the soonest.
ghost use Rattle.std.specs.Prelude.{ℕ, ◌≡◌, ◌≤◌, ◌<◌, ◌+◌, ◌-◌, ◌^◌, ◌++◌, slice_set, ◌∷◌, [], List, length};
ghost use Rattle.std.specs.Option.{ForSome};
ghost use Rattle.arrayvec.specs.ArrayVec.{array_vec_len};
ghost use Rattle.rx_set.specs.Valid.{IsJob, IsValid};
ghost use Rattle.rx_slots.specs.Schedule.{slots, sooner};
ghost use Rattle.rx_slots.specs.Events.{misses, releases};
ghost use Rattle.rx_tick.specs.States.{AreStates, IsState, IsBeforeDue, AreBeforeDue, AreBeforeRelease, AreOffers, offer, with_offer, best_of, in_hand, state_at, misses_at, releases_at, is_late_at};
ghost use Rattle.rx_set.specs.System.{task_at, is_below as key_below};

use crate::states::State;
use crate::ticks::MOST_EVENTS;
use crate::turns::Turn;
use arrayvec::ArrayVec;
use rx_ledger::Event;
use rx_set::{Job, Key, TaskSet};

/// Whether the latest job that a task released is unfinished, and due now.
fn is_late(set: &TaskSet, state: State, task: usize, now: u64) -> bool
    requires valid { IsValid set.now }
    requires known { task < length set.now.tasks }
    requires now { now ≤ 2 ^ 40 }
    requires state { IsState set.now (slots set.now now) now task state }
    ensures { result ≡ is_late_at (task_at set.now task) now state }
{
    let row = &set.tasks()[task];
    state.finished < state.released && state.next + row.deadline == now + row.period
}

/// Tells the miss of a task, if it has one at this time: only the latest job that it released can be due.
fn tell_miss(
    set: &TaskSet,
    state: State,
    task: usize,
    now: u64,
    events: &mut ArrayVec<Event, MOST_EVENTS>,
)
    requires valid { IsValid set.now }
    requires known { task < length set.now.tasks }
    requires now { now ≤ 2 ^ 40 }
    requires state { IsState set.now (slots set.now now) now task state }
    requires room { array_vec_len events.old < MOST_EVENTS }
    ensures told { events.new.items ≡ events.old.items ++ misses_at set.now (slots set.now now) now task }
    ensures few { array_vec_len events.new ≤ array_vec_len events.old + 1 }
{
    if !is_late(set, state, task, now) {
        return;
    }
    let job = Job {
        task: task as u32,
        number: state.released,
    };
    events.push(Event::Miss { at: now, job });
}

/// Tells the misses at a time.
pub fn tell_misses(
    set: &TaskSet,
    states: &[State],
    now: u64,
    events: &mut ArrayVec<Event, MOST_EVENTS>,
)
    requires now { now ≤ 2 ^ 40 }
    requires states { AreStates set.now (slots set.now now) now states.now }
    requires room { array_vec_len events.old ≤ 64 }
    ensures told { events.new.items ≡ events.old.items ++ misses set.now (slots set.now now) }
    ensures few { array_vec_len events.new ≤ array_vec_len events.old + 64 }
{
    for task in 0..states.len() {
        tell_miss(set, states[task], task, now, events);
    }
}

/// When the unfinished job that a task released latest is due, if that is after this time.
fn due_after(set: &TaskSet, state: State, task: usize, now: u64) -> u64
    requires valid { IsValid set.now }
    requires known { task < length set.now.tasks }
    requires now { now ≤ 2 ^ 40 }
    requires state { IsState set.now (slots set.now now) now task state }
    ensures { IsBeforeDue set.now (now + 1) result task state }
{
    let row = &set.tasks()[task];
    if state.finished < state.released && now + row.period < state.next + row.deadline {
        return state.next + row.deadline - row.period;
    }
    u64::MAX
}

/// The first time after this one at which an unfinished job is due.
fn next_due(set: &TaskSet, states: &[State], now: u64) -> u64
    requires now { now < 2 ^ 40 }
    requires states { AreStates set.now (slots set.now now) now states.now }
    ensures { AreBeforeDue set.now (now + 1) result states.now }
{
    let mut watch = u64::MAX;
    for task in 0..states.len() {
        watch = watch.min(due_after(set, states[task], task, now));
    }
    watch
}

/// Tells the misses of a time. Before the next time at which an unfinished job is due there is nothing to do.
#[inline(always)]
pub fn look_at_dues(
    set: &TaskSet,
    states: &[State],
    turn: &mut Turn,
    now: u64,
    events: &mut ArrayVec<Event, MOST_EVENTS>,
)
    requires now { now < 2 ^ 40 }
    requires states { AreStates set.now (slots set.now now) now states.now }
    requires dues { AreBeforeDue set.now now turn.old.next_due states.now }
    requires room { array_vec_len events.old ≤ 64 }
    ensures dues { AreBeforeDue set.now (now + 1) turn.new.next_due states.now }
    ensures others { turn.new ≡ record turn.old { next_due = turn.new.next_due } }
    ensures told { events.new.items ≡ events.old.items ++ misses set.now (slots set.now now) }
    ensures few { array_vec_len events.new ≤ array_vec_len events.old + 64 }
{
    if now < turn.next_due {
        return;
    }
    tell_misses(set, states, now, events);
    turn.next_due = next_due(set, states, now);
}

/// Whether the first key is lower.
fn is_below(a: Key, b: Key) -> bool
    ensures { result ≡ key_below a b }
{
    a.first < b.first
        || a.first == b.first && (a.second < b.second || a.second == b.second && a.third < b.third)
}

/// The sooner of two jobs.
fn sooner_of(set: &TaskSet, best: Option<Job>, job: Job) -> Option<Job>
    requires best { ForSome best (IsJob set.now) }
    requires job { IsJob set.now job }
    ensures { result ≡ sooner set.now best job }
{
    match best {
        None => Some(job),
        Some(other) => {
            if is_below(set.key(job), set.key(other)) {
                return Some(job);
            }
            best
        }
    }
}

/// Tells the release of a task, which has one at this time, and counts it. A job of a task that had none to offer
/// before may be the soonest.
fn count_release(
    set: &TaskSet,
    state: State,
    task: usize,
    turn: &mut Turn,
    now: u64,
    events: &mut ArrayVec<Event, MOST_EVENTS>,
) -> State
    requires valid { IsValid set.now }
    requires known { task < length set.now.tasks }
    requires now { now < 2 ^ 40 }
    requires state { IsState set.now (slots set.now now) now task state }
    requires comes { state.next ≡ now }
    requires best { ForSome turn.old.best (IsJob set.now) }
    requires room { array_vec_len events.old < MOST_EVENTS }
    ensures state { IsState set.now (slots set.now now) (now + 1) task result }
    ensures same { in_hand result ≡ in_hand state }
    ensures released { state.released ≤ result.released }
    ensures due { IsBeforeDue set.now (now + 1) turn.new.next_due task result }
    ensures sooner { turn.new.next_due ≤ turn.old.next_due }
    ensures best { turn.new.best ≡ with_offer set.now turn.old.best task state result }
    ensures last { turn.new.last ≡ turn.old.last }
    ensures told { events.new.items ≡ events.old.items ++ releases_at set.now now task }
    ensures few { array_vec_len events.new ≤ array_vec_len events.old + 1 }
{
    let row = &set.tasks()[task];
    let number = state.released + 1;
    let job = Job {
        task: task as u32,
        number,
    };
    events.push(Event::Release { at: now, job });
    turn.next_due = turn.next_due.min(now + row.deadline);
    if state.finished == state.released {
        turn.best = sooner_of(set, turn.best, job);
    }
    State {
        released: number,
        next: state.next + row.period,
        ..state
    }
}

/// Tells the release of a task, if it has one at this time, and counts it.
fn look_at_release(
    set: &TaskSet,
    states: &mut [State],
    task: usize,
    turn: &mut Turn,
    now: u64,
    events: &mut ArrayVec<Event, MOST_EVENTS>,
)
    requires valid { IsValid set.now }
    requires known { task < length set.now.tasks }
    requires inside { task < length states.old }
    requires now { now < 2 ^ 40 }
    requires state { IsState set.now (slots set.now now) now task (state_at states.old task) }
    requires due { IsBeforeDue set.now (now + 1) turn.old.next_due task (state_at states.old task) }
    requires best { ForSome turn.old.best (IsJob set.now) }
    requires room { array_vec_len events.old < MOST_EVENTS }
    ensures write { states.new ≡ slice_set states.old task (state_at states.new task) }
    ensures state { IsState set.now (slots set.now now) (now + 1) task (state_at states.new task) }
    ensures same { in_hand (state_at states.new task) ≡ in_hand (state_at states.old task) }
    ensures released { (state_at states.old task).released ≤ (state_at states.new task).released }
    ensures due { IsBeforeDue set.now (now + 1) turn.new.next_due task (state_at states.new task) }
    ensures sooner { turn.new.next_due ≤ turn.old.next_due }
    ensures best { turn.new.best ≡ with_offer set.now turn.old.best task (state_at states.old task) (state_at states.new task) }
    ensures last { turn.new.last ≡ turn.old.last }
    ensures told { events.new.items ≡ events.old.items ++ releases_at set.now now task }
    ensures few { array_vec_len events.new ≤ array_vec_len events.old + 1 }
{
    let state = states[task];
    if state.next != now {
        return;
    }
    states[task] = count_release(set, state, task, turn, now, events);
}

/// Tells the releases of a time, counts them, and answers the first time after it at which a job is released.
fn count_releases(
    set: &TaskSet,
    states: &mut [State],
    turn: &mut Turn,
    now: u64,
    events: &mut ArrayVec<Event, MOST_EVENTS>,
) -> u64
    requires now { now < 2 ^ 40 }
    requires states { AreStates set.now (slots set.now now) now states.old }
    requires best { turn.old.best ≡ best_of set.now (length set.now.tasks) states.old }
    requires dues { AreBeforeDue set.now (now + 1) turn.old.next_due states.old }
    requires room { array_vec_len events.old ≤ 64 }
    ensures states { AreStates set.now (slots set.now now) (now + 1) states.new }
    ensures same { (task : ℕ) → in_hand (state_at states.new task) ≡ in_hand (state_at states.old task) }
    ensures best { turn.new.best ≡ best_of set.now (length set.now.tasks) states.new }
    ensures dues { AreBeforeDue set.now (now + 1) turn.new.next_due states.new }
    ensures releases { AreBeforeRelease set.now result states.new }
    ensures last { turn.new.last ≡ turn.old.last }
    ensures told { events.new.items ≡ events.old.items ++ releases set.now now }
    ensures few { array_vec_len events.new ≤ array_vec_len events.old + 64 }
{
    let mut next = u64::MAX;
    for task in 0..states.len() {
        look_at_release(set, states, task, turn, now, events);
        next = next.min(states[task].next);
    }
    next
}

/// Tells the releases of a time, and counts them. Before the next release there is nothing to do.
#[inline(always)]
pub fn look_at_releases(
    set: &TaskSet,
    states: &mut [State],
    turn: &mut Turn,
    now: u64,
    events: &mut ArrayVec<Event, MOST_EVENTS>,
)
    requires now { now < 2 ^ 40 }
    requires states { AreStates set.now (slots set.now now) now states.old }
    requires best { turn.old.best ≡ best_of set.now (length set.now.tasks) states.old }
    requires dues { AreBeforeDue set.now (now + 1) turn.old.next_due states.old }
    requires releases { AreBeforeRelease set.now turn.old.next_release states.old }
    requires room { array_vec_len events.old ≤ 64 }
    ensures states { AreStates set.now (slots set.now now) (now + 1) states.new }
    ensures same { (task : ℕ) → in_hand (state_at states.new task) ≡ in_hand (state_at states.old task) }
    ensures best { turn.new.best ≡ best_of set.now (length set.now.tasks) states.new }
    ensures dues { AreBeforeDue set.now (now + 1) turn.new.next_due states.new }
    ensures releases { AreBeforeRelease set.now turn.new.next_release states.new }
    ensures last { turn.new.last ≡ turn.old.last }
    ensures told { events.new.items ≡ events.old.items ++ releases set.now now }
    ensures few { array_vec_len events.new ≤ array_vec_len events.old + 64 }
{
    if now < turn.next_release {
        return;
    }
    turn.next_release = count_releases(set, states, turn, now, events);
}

/// The sooner of a job and the one that a task offers, which is its first unfinished job if that is released.
fn offer_of(set: &TaskSet, best: Option<Job>, state: State, task: usize) -> Option<Job>
    requires valid { IsValid set.now }
    requires known { task < length set.now.tasks }
    requires best { ForSome best (IsJob set.now) }
    requires few { state.released ≤ 2 ^ 40 }
    ensures { result ≡ offer set.now best task state }
{
    if state.finished < state.released {
        let job = Job {
            task: task as u32,
            number: state.finished + 1,
        };
        return sooner_of(set, best, job);
    }
    best
}

/// The pending job of least key: the soonest of those that the tasks offer.
pub fn pick(set: &TaskSet, states: &[State]) -> Option<Job>
    requires { AreOffers set.now states.now }
    ensures { result ≡ best_of set.now (length set.now.tasks) states.now }
{
    let mut best = None;
    for task in 0..states.len() {
        best = offer_of(set, best, states[task], task);
    }
    best
}
