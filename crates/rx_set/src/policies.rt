// Policies.

/// How jobs are put in order of priority. The first and the last are those of Liu and Layland (1973).
#[derive(Clone, Copy, Debug, Default, PartialEq, Eq)]
pub enum Policy {
    /// Rate monotonic: the shorter the period, the higher the priority.
    #[default]
    Rm,
    /// Deadline monotonic: the shorter the deadline, the higher the priority.
    Dm,
    /// Earliest deadline first.
    Edf,
}
