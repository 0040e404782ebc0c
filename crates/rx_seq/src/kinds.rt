// Kinds of object, and the parts that a set of tasks shares.
ghost use Rattle.rx_seq.specs.Table.{IsPart, attempt_steps as steps_of};
ghost use Rattle.std.specs.Prelude.{◌≡◌, ◌≤◌};

/// A kind of sequential object.
#[derive(Clone, Copy, Debug, Default, PartialEq, Eq)]
pub enum Kind {
    /// One number of 24 bits.
    #[default]
    Cell,
    /// Numbers, first in, first out.
    Queue,
    /// Numbers in rising order, each once.
    List,
    /// A fixed count of numbers.
    Registers,
}

/// One object: its kind, and how many numbers it holds at most. The capacity is 1 for a cell, 1 to 64 for a queue
/// or a list, and 1 to 16 for registers.
#[derive(Clone, Copy, Debug, Default, PartialEq, Eq)]
pub struct Part {
    pub kind: Kind,
    pub cap: u32,
}

/// How many steps an attempt on an object has, from the load of its root to the exchange: 2 on a cell, and twice the
/// capacity and 6 more on any other. It depends on the part alone, so that the cost of an operation is known before it
/// runs. It takes constant time.
pub fn attempt_steps(part: Part) -> u32
    requires { IsPart part }
    ensures value { result ≡ steps_of part }
    ensures bound { (2 ≤ result) × (result ≤ 134) }
{
    match part.kind {
        Kind::Cell => 2,
        _ => 2 * part.cap + 6,
    }
}
