// What the executive keeps of all tasks together.

use rx_set::Job;

/// What is kept of all tasks together: before which time no job is released, before which time no unfinished job is
/// due, the pending job of least key, and the job of the latest slot.
#[derive(Clone, Copy, Debug, Default, PartialEq, Eq)]
pub struct Turn {
    pub next_release: u64,
    pub next_due: u64,
    pub best: Option<Job>,
    pub last: Option<Job>,
}
