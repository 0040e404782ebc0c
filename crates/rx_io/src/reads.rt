//! Reading all that a source gives.
ghost use Rattle.std.specs.Prelude.{◌≡◌, ◌<◌, ◌≤◌, ◌^◌, ◌+◌, length, IfErr, IfOk, OnOk};
ghost use Rattle.rx_io.specs.States.{MayBeCalled, MayBeTold};
ghost use Rattle.rx_io.specs.Causes.{ErrCause, GotPiece, IsInput, StopsReading};
ghost use Rattle.rx_io.specs.declared.reads.ReadError.TheVariants.{Fault, Memory};

use crate::traits::{Failed, Source};
use std::alloc::{AllocError, Global};

// How many bytes one call of the source is asked for at most.
const STEP: usize = 4096;

/// Why a reading ended early.
#[derive(Clone, Copy, Debug, PartialEq, Eq)]
pub enum ReadError {
    /// The source failed, and its count of faults has risen.
    Fault,
    /// The memory for the bytes was refused, and the count of faults stays.
    Memory,
}

impl From<Failed> for ReadError {
    ghost from_gives = { λ _ error. error ≡ Fault };

    fn from(_: Failed) -> ReadError {
        ReadError::Fault
    }
}

impl From<AllocError> for ReadError {
    ghost from_gives = { λ _ error. error ≡ Memory };

    fn from(_: AllocError) -> ReadError {
        ReadError::Memory
    }
}

// Reads one piece, and appends it.
fn read_piece<S: Source>(
    source: &mut S,
    buf: &mut [u8],
    bytes: &mut Vec<u8>,
) -> Result<usize, ReadError>
    requires up { MayBeCalled (S.tells source.old).failures }
    requires room { 0 < length buf.old }
    ensures piece { IfOk result (GotPiece (S.tells source.old).left (S.tells source.new).left
        bytes.old.items bytes.new.items) }
    ensures bound { IfOk result (λ n. n ≤ length buf.old) }
    ensures call { MayBeTold (S.tells source.old).calls (S.tells source.new).calls (length buf.old) result }
    ensures kept { OnOk result ((S.tells source.new).failures ≡ (S.tells source.old).failures) }
    ensures cause { IfErr result (ErrCause (S.tells source.old).failures (S.tells source.new).failures) }
{
    let count = source.read(buf)?;
    bytes.extend_from_slice(&buf[..count])?;
    Ok(count)
}

/// Reads to the end of the input, or until one byte more than `most` was read, and answers all bytes that were read.
///
/// An answer of at most `most` bytes is the whole input. One of `most + 1` bytes says that the input is longer than
/// `most`, and how much of it is left is not looked at. `Fault` comes only where the source failed in this call, and
/// `Memory` only where it did not; how many bytes were read before is then left open. Time and memory are in
/// proportion to the bytes read. Each call of the source asks for 4,096 bytes, or for as many as are left up to
/// `most + 1`; none is made after one that failed. Wants a source whose latest call did not fail, with a count of faults
/// below 2^63, and a `most` below 2^64 - 1.
pub fn read_all<S: Source>(alloc: Global, source: &mut S, most: usize) -> Result<Vec<u8>, ReadError>
    requires up { MayBeCalled (S.tells source.old).failures }
    requires most { most + 1 < 2 ^ 64 }
    ensures input { IfOk result (λ v. IsInput most (S.tells source.old) (S.tells source.new) v.items) }
    ensures stopped { IfErr result (StopsReading most (S.tells source.old) (S.tells source.new)) }
{
    let mut bytes = Vec::new(alloc);
    let mut buffer = [0; STEP];
    while bytes.len() <= most {
        let room = (most + 1 - bytes.len()).min(STEP);
        if read_piece(source, &mut buffer[..room], &mut bytes)? == 0 {
            return Ok(bytes);
        }
    }
    Ok(bytes)
}
