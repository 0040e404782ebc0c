// Entries of a history.

use crate::calls::Call;
use crate::replies::Reply;

/// One call in a history: who made it, which of the caller's calls it is (from 1), on which object (from 0), the
/// reply, and the object's version tag after it.
#[derive(Clone, Copy, Debug, Default, PartialEq, Eq)]
pub struct Entry {
    pub caller: u32,
    pub index: u64,
    pub object: u32,
    pub call: Call,
    pub reply: Reply,
    pub tag: u64,
}
