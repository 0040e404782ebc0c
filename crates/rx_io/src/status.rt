//! How a call ends.
ghost use Rattle.std.specs.Prelude.{◌≡◌};
ghost use Rattle.rx_io.specs.Statuses.{code_of};

/// How a call of the program ends. `code` gives each its exit status.
#[derive(Clone, Copy, Debug, PartialEq, Eq)]
pub enum Status {
    /// The whole report was written: of `run`, one that tells no miss, and of `admit`, that the test says yes.
    Done,
    /// The whole report was written: of `run`, one that tells a miss, and of `admit`, that the test says no.
    Adverse,
    /// The words have no shape; the line `words` was written.
    Words,
    /// The source failed; nothing was written.
    ReadFault,
    /// The input has more than 1,048,576 bytes; the line `too large` was written.
    TooLarge,
    /// The input is no TOML document; the line `not toml` was written.
    NotToml,
    /// The input is a TOML document and no set of tasks; the line of its first fault was written.
    BadSet,
    /// The sink failed; what it took is the front of what was to be written.
    WriteFault,
    /// The memory was refused; nothing was written.
    NoMemory,
    /// `admit`: the least common multiple of the periods is 2^96 or more, too wide for the test for earliest deadlines
    /// first; its line was written.
    Wide,
    /// `admit`: the test for earliest deadlines first would have to look at the times of more than 1,000,000 jobs; its line
    /// was written.
    Long,
}

impl Status {
    /// The exit status of the program: 0 to 10, in the order of the variants.
    pub fn code(self) -> u8
        ensures { result ≡ code_of self }
    {
        match self {
            Status::Done => 0,
            Status::Adverse => 1,
            Status::Words => 2,
            Status::ReadFault => 3,
            Status::TooLarge => 4,
            Status::NotToml => 5,
            Status::BadSet => 6,
            Status::WriteFault => 7,
            Status::NoMemory => 8,
            Status::Wide => 9,
            Status::Long => 10,
        }
    }
}
