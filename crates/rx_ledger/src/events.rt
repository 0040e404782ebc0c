// Events of a schedule.
ghost use Rattle.std.specs.Prelude.{◌≡◌};
ghost use Rattle.rx_ledger.specs.Ledgers.{time_of};

use rx_seq::Reply;
use rx_set::Job;

/// One event. Times and slots are in ticks from 0, items are numbered from 1.
#[derive(Clone, Copy, Debug, PartialEq, Eq)]
pub enum Event {
    /// The job's absolute deadline is now, and its slots so far do not finish it.
    Miss {
        at: u64,
        job: Job,
    },
    /// The job is released.
    Release {
        at: u64,
        job: Job,
    },
    /// The job had the slot before, is unfinished after it, and another job has the slot now.
    Preempt {
        at: u64,
        job: Job,
        by: Job,
    },
    /// An attempt won in this slot, which made the item's call: its first slot, the reply, and the object's tag after it.
    Reply {
        at: u64,
        first: u64,
        job: Job,
        item: u32,
        reply: Reply,
        tag: u64,
    },
    /// An attempt was lost in this slot: its first slot, the tag that it had loaded, and the one that it found.
    Retry {
        at: u64,
        first: u64,
        job: Job,
        item: u32,
        expected: u64,
        found: u64,
    },
    /// The job's last item is complete.
    Finish {
        at: u64,
        job: Job,
    },
}

impl Event {
    /// Its slot or its time: for a reply and a retry the last slot of the attempt. Its cost is constant.
    pub fn at(&self) -> u64
        ensures { result ≡ time_of self.now }
    {
        match self {
            Event::Miss { at, .. } => *at,
            Event::Release { at, .. } => *at,
            Event::Preempt { at, .. } => *at,
            Event::Reply { at, .. } => *at,
            Event::Retry { at, .. } => *at,
            Event::Finish { at, .. } => *at,
        }
    }
}

impl Default for Event {
    ghost use Rattle.std.specs.Prelude.{◌≡◌};
    ghost use Rattle.rx_ledger.specs.declared.events.Event.TheVariants.{Miss};

    ghost is_default = { λ event. event ≡ Miss 0 (record { task = 0; number = 0 }) };

    fn default() -> Self {
        Event::Miss {
            at: 0,
            job: Job { task: 0, number: 0 },
        }
    }
}
