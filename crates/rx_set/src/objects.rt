// Objects.

use crate::tasks::Name;
use rx_seq::Part;

/// An object that tasks share. Its name differs from those of the other objects of a set.
#[derive(Debug, Drop)]
pub struct Object {
    pub name: Name,
    pub part: Part,
}
