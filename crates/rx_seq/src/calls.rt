// Calls on an object.

/// One register of a transaction: its number, the value that it must have, and the one that it is given.
#[derive(Clone, Copy, Debug, Default, PartialEq, Eq)]
pub struct Row {
    pub i: u32,
    pub old: u32,
    pub new: u32,
}

/// A call on an object. Which calls fit a part, and what each does and answers, is the table of the sequential
/// objects.
#[derive(Clone, Copy, Debug, Default, PartialEq, Eq)]
pub enum Call {
    /// The value of a cell.
    #[default]
    Get,
    /// Writes a cell.
    Set { v: u32 },
    /// Adds to a cell, unless the sum has more than 24 bits.
    Add { v: u32 },
    /// Writes `new` into a cell that has `old`.
    Swap { old: u32, new: u32 },
    /// Appends to a queue, unless it is full.
    Put { v: u32 },
    /// Takes the first number of a queue.
    Take,
    /// Puts a number into an ordered list.
    Insert { k: u32 },
    /// Takes a number out of an ordered list.
    Remove { k: u32 },
    /// Whether an ordered list has a number.
    Has { k: u32 },
    /// The value of a register.
    Read { i: u32 },
    /// Moves an amount from one register to another.
    Shift { from: u32, to: u32, n: u32 },
    /// Writes up to four registers if each of them has its old value. The rows after the first `count` are zeros.
    Multi { count: u32, rows: [Row; 4] },
}
