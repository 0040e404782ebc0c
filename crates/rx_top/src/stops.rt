//! What stops a call before its answer is given.
ghost use Rattle.std.specs.Prelude.{◌≡◌, Err};
ghost use Rattle.rx_top.specs.Stops.{ending_of, status_of, stop_of};
ghost use Rattle.rx_top.specs.declared.stops.Stop.TheVariants.{Memory, Write};

use rx_io::{Failed, ReadError, Status};
use rx_seq::NoMemory;

/// Why no answer was given, or only a front of it.
#[derive(Clone, Copy, Debug, PartialEq, Eq)]
pub(crate) enum Stop {
    /// The source failed.
    Read,
    /// The sink failed.
    Write,
    /// Memory was refused.
    Memory,
}

impl Stop {
    /// The status of a call that was stopped so.
    pub(crate) fn status(self) -> Status
        ensures status { result ≡ status_of self }
        ensures ending { ending_of result ≡ Err self }
    {
        match self {
            Stop::Read => Status::ReadFault,
            Stop::Write => Status::WriteFault,
            Stop::Memory => Status::NoMemory,
        }
    }
}

impl From<ReadError> for Stop {
    ghost from_gives = { λ error stop. stop ≡ stop_of error };

    fn from(error: ReadError) -> Stop {
        match error {
            ReadError::Fault => Stop::Read,
            ReadError::Memory => Stop::Memory,
        }
    }
}

impl From<Failed> for Stop {
    ghost from_gives = { λ _ stop. stop ≡ Write };

    fn from(_: Failed) -> Stop {
        Stop::Write
    }
}

impl From<NoMemory> for Stop {
    ghost from_gives = { λ _ stop. stop ≡ Memory };

    fn from(_: NoMemory) -> Stop {
        Stop::Memory
    }
}
