// Ledgers: events in order, and what is counted of them in an interval.
ghost use Rattle.std.specs.Prelude.{ℕ, Bool, ◌≡◌, ◌≤◌, ◌<◌, ◌++◌, [], ◌∷◌, OnErr, OnOk, count_by, length, slice_index_or};
ghost use Rattle.rx_ledger.specs.Intervals.{any_job, is_preemption_in, is_release_in, is_retry_in, preemptions as preemptions_in, releases as releases_in, retries as retries_in};
ghost use Rattle.rx_ledger.specs.Ledgers.{InOrder, IsWithin, MayFollow, time_of};

use crate::events::Event;
use rx_seq::NoMemory;
use std::alloc::Global;
use std::marker::Model;

/// Whether the event is a retry of an attempt that was begun at `a` or after, and lost before `b`.
fn is_retry_within(event: &Event, a: u64, b: u64) -> bool
    ensures { result ≡ is_retry_in any_job a b event.now }
{
    match event {
        Event::Retry { at, first, .. } => a <= *first && *at < b,
        _ => false,
    }
}

/// Whether the event is a preemption strictly between `a` and `b`.
fn is_preemption_within(event: &Event, a: u64, b: u64) -> bool
    ensures { result ≡ is_preemption_in any_job a b event.now }
{
    match event {
        Event::Preempt { at, .. } => a < *at && *at < b,
        _ => false,
    }
}

/// Whether the event is a release strictly between `a` and `b`.
fn is_release_within(event: &Event, a: u64, b: u64) -> bool
    ensures { result ≡ is_release_in any_job a b event.now }
{
    match event {
        Event::Release { at, .. } => a < *at && *at < b,
        _ => false,
    }
}

/// How many events there are before a time.
fn count_before(events: &[Event], time: u64) -> usize
    requires { InOrder events.now }
    ensures bound { result ≤ length events.now }
    ensures before { (place : ℕ) (d : Event) → place < result → time_of (slice_index_or events.now place d) < time }
    ensures after { (place : ℕ) (d : Event) → result ≤ place → place < length events.now → time ≤ time_of (slice_index_or events.now place d) }
{
    events.partition_point(|event| event.at() < time)
}

/// The events with times from `a` to `b` - 1. A test that no other event passes, passes as many of them as of all.
fn between(events: &[Event], a: u64, b: u64) -> &[Event]
    requires order { InOrder events.now }
    requires ends { a ≤ b }
    ensures { (test : Event → Bool) → IsWithin test a b → count_by test result.now ≡ count_by test events.now }
{
    let (start, end) = (count_before(events, a), count_before(events, b));
    &events[start..end]
}

/// The events of a schedule, one after another, whose times never fall.
#[derive(Drop)]
pub struct Ledger {
    events: Vec<Event>,
}

impl Model for Ledger {
    ghost use Rattle.std.specs.Prelude.{List};
    ghost use Rattle.rx_ledger.specs.declared.events.Event.{Event};
    ghost use Rattle.rx_ledger.specs.Ledgers.{InOrder};

    ghost Value = { List Event };

    ghost view = { λ ledger. ledger.events.items };

    ghost invariant = { λ ledger. InOrder ledger.events.items };
}

impl Ledger {
    /// A ledger with no event, which takes no memory yet. Its cost is constant.
    pub fn new(alloc: Global) -> Ledger
        ensures { result ≡ [] }
    {
        Ledger {
            events: Vec::new(alloc),
        }
    }

    /// Appends an event, whose time is not below that of the last one. After `NoMemory`, its one refusal, nothing has
    /// changed. No clause says when that is answered. It takes memory only where what it has is full, and its cost is
    /// constant, spread over all pushes.
    pub fn push(&mut self, event: Event) -> Result<(), NoMemory>
        requires { MayFollow self.old event }
        ensures appended { OnOk result (self.new ≡ self.old ++ event ∷ []) }
        ensures same { OnErr result (self.new ≡ self.old) }
    {
        match self.events.push(event) {
            Ok(()) => Ok(()),
            Err(_) => Err(NoMemory),
        }
    }

    /// The events so far, the oldest first. Its cost is constant.
    pub fn events(&self) -> &[Event]
        ensures all { result.now ≡ self.now }
        ensures order { InOrder self.now }
    {
        self.events.as_slice()
    }

    /// How many retries there are of attempts whose first slot is `a` or later, and whose last one is before `b`. Each is
    /// a failed compare-and-exchange. It looks at each event before `b` once, and finds the end of these by halving.
    pub fn retries(&self, a: u64, b: u64) -> u64
        requires { a ≤ b }
        ensures { result ≡ retries_in any_job a b self.now }
    {
        between(self.events.as_slice(), 0, b)
            .iter()
            .filter(|event| is_retry_within(event, a, b))
            .count() as u64
    }

    /// How many preemptions there are strictly between `a` and `b`. It finds the events from `a` to `b` by halving, and
    /// looks at each of these once.
    pub fn preemptions(&self, a: u64, b: u64) -> u64
        requires { a ≤ b }
        ensures { result ≡ preemptions_in any_job a b self.now }
    {
        between(self.events.as_slice(), a, b)
            .iter()
            .filter(|event| is_preemption_within(event, a, b))
            .count() as u64
    }

    /// How many releases there are strictly between `a` and `b`, which the field calls arrivals of jobs. It finds the
    /// events from `a` to `b` by halving, and looks at each of these once.
    pub fn releases(&self, a: u64, b: u64) -> u64
        requires { a ≤ b }
        ensures { result ≡ releases_in any_job a b self.now }
    {
        between(self.events.as_slice(), a, b)
            .iter()
            .filter(|event| is_release_within(event, a, b))
            .count() as u64
    }
}
