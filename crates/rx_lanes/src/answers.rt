// What is kept of a call until all lanes have ended.

use rx_seq::Reply;

/// The reply to a call, and the object's version tag after it.
#[derive(Clone, Copy, Debug, PartialEq, Eq)]
pub struct Answer {
    pub reply: Reply,
    pub tag: u64,
}
