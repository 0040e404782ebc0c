// Tasks.

use crate::items::Body;
use arrayvec::ArrayString;

/// A name: 1 to 16 bytes, the first an ASCII letter, the others ASCII letters, digits or `_`.
pub type Name = ArrayString<16>;

/// A periodic task. Times are in ticks.
#[derive(Debug, Drop)]
pub struct Task {
    pub name: Name,
    /// The time between two releases: 1 to 1,000,000.
    pub period: u64,
    /// The time from a release to the job's deadline: 1 to the period.
    pub deadline: u64,
    /// The time of the first release: 0 to 1,000,000.
    pub offset: u64,
    /// What each job does: 1 to 64 items.
    pub body: Body,
}
