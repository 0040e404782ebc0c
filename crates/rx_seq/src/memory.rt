// Want of memory.

/// There is no memory.
#[derive(Clone, Copy, Debug, Default, PartialEq, Eq)]
pub struct NoMemory;
