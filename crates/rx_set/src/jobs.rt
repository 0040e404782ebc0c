// Jobs and their keys.

/// One job: a task, by its number from 0, and which of the task's jobs it is, from 1.
#[derive(Clone, Copy, Debug, Default, PartialEq, Eq)]
pub struct Job {
    pub task: u32,
    pub number: u64,
}

/// The priority of a job, compared part by part: the lower key has the higher priority.
#[derive(Clone, Copy, Debug, Default, PartialEq, Eq)]
pub struct Key {
    pub first: u64,
    pub second: u64,
    pub third: u64,
}
