// Where an object stands.

use rx_seq::Part;

/// An object's part, the number of its first place, and how many places it has. Both numbers are 0 for a cell.
#[derive(Clone, Copy, Debug, Default, PartialEq, Eq)]
pub struct Home {
    pub part: Part,
    pub first: u32,
    pub count: u32,
}
