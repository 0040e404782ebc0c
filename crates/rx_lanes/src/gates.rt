// Gates, which lanes pass.

/// What a lane passes before each operation. It may count, look at what other lanes did, or spend time; it returns. No
/// clause speaks of gates: that each lane passes it before each of its operations is tested.
pub trait Gate {
    /// A lane, by its number from 0, is about to make its operation with this number, from 1.
    fn pass(&self, lane: u32, index: u64);
}

/// A gate that does nothing.
#[derive(Clone, Copy, Debug, Default)]
pub struct NoGate;

impl Gate for NoGate {
    fn pass(&self, _lane: u32, _index: u64) {}
}
