// One tick, as it is told.
ghost use Rattle.std.specs.Prelude.{◌≡◌, [], None};

use arrayvec::ArrayVec;
use rx_ledger::Event;
use rx_set::Job;

/// The most events of a slot: a miss and a release of each of 64 tasks, a preemption, a reply or a retry, and a finish.
pub const MOST_EVENTS: usize = 131;

/// A slot of the schedule: its number, the job that has it, and its events in order.
#[derive(Debug, Drop)]
pub struct Tick {
    pub at: u64,
    pub slot: Option<Job>,
    pub events: ArrayVec<Event, MOST_EVENTS>,
}

impl Tick {
    /// An empty tick, to be filled in. It takes no memory.
    pub fn new() -> Tick
        ensures at { result.at ≡ 0 }
        ensures slot { result.slot ≡ None }
        ensures events { result.events.items ≡ [] }
    {
        Tick {
            at: 0,
            slot: None,
            events: ArrayVec::new(),
        }
    }
}
