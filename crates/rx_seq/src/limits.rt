// Limits of the numbers of a state.

/// The greatest value of a cell, which has 24 bits: it shares a word of 64 bits with a version tag of 40.
pub const MOST_CELL: u32 = 16_777_215;

/// The greatest number of a state of any other kind, which has 32 bits.
pub const MOST_VALUE: u32 = 4_294_967_295;
