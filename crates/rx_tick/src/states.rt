// What the executive keeps of a task.
ghost use Rattle.std.specs.Prelude.{◌≡◌, ◌<◌, ◌+◌, ◌^◌};
ghost use Rattle.rx_slots.specs.Schedule.{completed};
ghost use Rattle.rx_tick.specs.States.{with_progress, progress_made, progress_of};

/// What is kept of a task: how many jobs were released, when the next one is, how many are finished, and how far the
/// one after these has come: complete items, and of the work or the attempt in hand how many ticks and its first slot.
#[derive(Clone, Copy, Debug, Default, PartialEq, Eq)]
pub struct State {
    pub released: u64,
    pub next: u64,
    pub finished: u64,
    pub complete: usize,
    pub made: u64,
    pub first: u64,
}

/// What a tick did to the item in hand.
#[derive(Clone, Copy, Debug, PartialEq, Eq)]
pub enum Made {
    /// It brought the item further.
    On,
    /// It completed the item.
    Ended,
    /// It lost an attempt, which is to be made again.
    Lost,
}

impl State {
    /// Notes a tick of the job in hand, whose body has so many items.
    #[inline(always)]
    pub fn note(&mut self, tick: Made, items: usize, now: u64)
        requires made { self.old.made < 2 ^ 63 }
        requires finished { self.old.finished < 2 ^ 63 }
        requires complete { self.old.complete < items }
        ensures { self.new ≡ with_progress items self.old (progress_made tick now (progress_of self.old)) }
    {
        match tick {
            Made::On => {
                self.first = if self.made == 0 { now } else { self.first };
                self.made += 1;
            }
            Made::Lost => {
                self.made = 0;
                self.first = 0;
            }
            Made::Ended => self.complete_item(items),
        }
    }

    /// The item in hand is complete, which may be the last of its job.
    fn complete_item(&mut self, items: usize)
        requires finished { self.old.finished < 2 ^ 63 }
        requires complete { self.old.complete < items }
        ensures { self.new ≡ with_progress items self.old (completed (progress_of self.old)) }
    {
        self.made = 0;
        self.first = 0;
        if self.complete + 1 < items {
            self.complete += 1;
            return;
        }
        self.complete = 0;
        self.finished += 1;
    }
}
