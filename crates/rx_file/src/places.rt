// Places in a task file, and the keys there.
ghost use Rattle.std.specs.Prelude.{◌≡◌};
ghost use Rattle.rx_file.specs.Fields.{field, range, repeat, key_of};

use crate::faults::{FileFault, Label, Section};

/// A row of a section.
#[derive(Clone, Copy, Debug, PartialEq, Eq)]
pub(crate) struct Place {
    pub(crate) section: Section,
    pub(crate) row: u32,
}

/// The place of the keys at the top.
pub(crate) const TOP: Place = Place {
    section: Section::Top,
    row: 0,
};

impl Place {
    /// What is left out, must not stand or is of another type.
    pub(crate) fn field(self, label: Label) -> FileFault
        ensures { result ≡ field self label }
    {
        FileFault::Field {
            section: self.section,
            row: self.row,
            label,
        }
    }

    /// What is out of range.
    pub(crate) fn range(self, label: Label) -> FileFault
        ensures { result ≡ range self label }
    {
        FileFault::Range {
            section: self.section,
            row: self.row,
            label,
        }
    }

    /// What an earlier row of the section has already: a name, or an item of a job.
    pub(crate) fn repeat(self) -> FileFault
        ensures { result ≡ repeat self }
    {
        FileFault::Repeat {
            section: self.section,
            row: self.row,
        }
    }
}

impl Label {
    /// The key that the label stands for.
    pub(crate) fn key(self) -> &'static str
        ensures { result.now ≡ key_of self }
    {
        match self {
            Label::Policy => "policy",
            Label::Object => "object",
            Label::Task => "task",
            Label::Demand => "demand",
            Label::Name => "name",
            Label::Kind => "kind",
            Label::Capacity => "capacity",
            Label::Period => "period",
            Label::Deadline => "deadline",
            Label::Offset => "offset",
            Label::Body => "body",
            Label::Job => "job",
            Label::Item => "item",
            Label::Ticks => "ticks",
            Label::Whole | Label::Other => "",
        }
    }
}
