// Totals of a run.
ghost use Rattle.std.specs.Prelude.{◌≡◌, ◌<◌, ◌+◌, ◌^◌, ◌++◌, [], ◌∷◌};
ghost use Rattle.rx_ledger.specs.Counts.{AreBelow, counted, with_slot, zeros};

use crate::events::Event;

/// How many there were, of slots and of events.
#[derive(Clone, Copy, Debug, Default, PartialEq, Eq)]
pub struct Totals {
    pub ticks: u64,
    pub idle: u64,
    pub released: u64,
    pub finished: u64,
    pub replies: u64,
    pub retries: u64,
    pub preempted: u64,
    pub missed: u64,
}

impl Totals {
    /// All numbers are 0. Its cost is constant, as that of `count` and of `slot`.
    pub fn new() -> Totals
        ensures { result ≡ zeros }
    {
        Totals::default()
    }

    /// Raises the one number of the event's kind. Each number is below 2^63 before.
    pub fn count(&mut self, event: &Event)
        requires { AreBelow (2 ^ 63) self.old }
        ensures { self.new ≡ counted self.old event.now }
    {
        match event {
            Event::Miss { .. } => self.missed += 1,
            Event::Release { .. } => self.released += 1,
            Event::Preempt { .. } => self.preempted += 1,
            Event::Reply { .. } => self.replies += 1,
            Event::Retry { .. } => self.retries += 1,
            Event::Finish { .. } => self.finished += 1,
        }
    }

    /// Raises the number of slots, and that of idle ones where the slot is not busy. Each number is below 2^63 before.
    pub fn slot(&mut self, busy: bool)
        requires { AreBelow (2 ^ 63) self.old }
        ensures { self.new ≡ with_slot self.old busy }
    {
        self.ticks += 1;
        if !busy {
            self.idle += 1;
        }
    }
}
