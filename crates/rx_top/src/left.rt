//! What a call hands out.
use rx_port::Bank;
use rx_table::Closed;

/// The words on which a call of `top` made the operations whose report it wrote.
#[derive(Drop)]
pub enum Left {
    /// No report of a run or of lanes was written whole.
    Nothing,
    /// The bank of the run whose report was written.
    Bank {
        /// It has the objects of the set, a seat for each task, and the counts of the events.
        bank: Bank,
    },
    /// The closed table of the lanes whose report was written.
    Closed {
        /// It has the objects of the set, a seat for each lane, and its words stand for the history of the lanes.
        closed: Closed,
    },
}
