// What is wrong with a task file.

/// A part of a task file.
#[derive(Clone, Copy, Debug, PartialEq, Eq)]
pub enum Section {
    /// The keys at the top.
    Top,
    /// The rows of `object`.
    Object,
    /// The rows of `task`.
    Task,
    /// The rows of `demand`.
    Demand,
}

/// What in a row a fault is about: the key of that name, or one of two more.
#[derive(Clone, Copy, Debug, PartialEq, Eq)]
pub enum Label {
    Policy,
    Object,
    Task,
    Demand,
    /// The row itself.
    Whole,
    Name,
    Kind,
    Capacity,
    Period,
    Deadline,
    Offset,
    Body,
    Job,
    Item,
    Ticks,
    /// A key that has no meaning there.
    Other,
}

/// The first fault of a task file. Rows, tasks and items are numbered from 1; the keys at the top have the number 0 in place of a row's.
#[derive(Clone, Copy, Debug, PartialEq, Eq)]
pub enum FileFault {
    /// Fault 1: the bytes are no TOML document.
    NotToml,
    /// Fault 2: what must stand is left out, what must not stand is there, or a value is of another type.
    Field {
        section: Section,
        row: u32,
        label: Label,
    },
    /// Fault 3: a name is not 1 to 16 ASCII letters, digits and `_`, the first a letter.
    Name {
        section: Section,
        row: u32,
    },
    /// Fault 4: an earlier row of the section has this name, or, of `demand`, names the same item of the same job.
    Repeat {
        section: Section,
        row: u32,
    },
    /// Fault 5: a number, a word or the length of an array is out of its range.
    Range {
        section: Section,
        row: u32,
        label: Label,
    },
    /// Fault 6: an item is no string, has none of the shapes, or has a number of ticks that is out of range.
    Item {
        task: u32,
        item: u32,
    },
    /// Fault 7: an item names an object that is not there.
    Unknown {
        task: u32,
        item: u32,
    },
    /// Fault 8: a call does not fit its object.
    Misfit {
        task: u32,
        item: u32,
    },
    /// Fault 9: a section has more rows than it may have.
    TooMany {
        section: Section,
        count: u64,
    },
    /// There was not enough memory, which says nothing of the file.
    NoMemory,
}
