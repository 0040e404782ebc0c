// What a step answers.

use rx_seq::Reply;

/// What a step of a machine did.
#[derive(Clone, Copy, Debug, PartialEq, Eq)]
pub enum Step {
    /// It loaded a root, read a place or wrote one, and the attempt goes on.
    Going,
    /// It made no memory event, and the attempt goes on.
    Idle,
    /// Its exchange found the root that the attempt expected: the call is made, with this reply and the object's tag after
    /// it.
    Won { reply: Reply, tag: u64 },
    /// Its exchange found another root word, and nothing has changed: the word that the attempt expected, and the one
    /// that it found. The next step begins another attempt.
    Lost { expected: u64, found: u64 },
    /// It loaded a root with the last tag, so the call cannot be made.
    Spent { tag: u64 },
}
