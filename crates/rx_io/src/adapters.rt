//! A reader and a writer of std as a source and a sink.
ghost use Rattle.std.specs.Prelude.{◌≡◌, ◌<◌, ◌≤◌, false, length, IfOk, OnErr};
ghost use Rattle.std.specs.Io.{ReadsAtMost, WritesAtMost};
ghost use Rattle.std.specs.Io.KnownBytes.{ReadConsumes, WriteAppends};
ghost use Rattle.rx_io.specs.States.{IsCalled, MayBeCalled, failures_of};
ghost use Rattle.rx_io.specs.Causes.{HasCause};
ghost use Rattle.rx_io.specs.Adapters.{in_down, in_inner, out_down, out_inner};

use crate::traits::{Failed, Sink, Source};
use std::io::{Read, Write};

/// A source over a reader of std, until an error of the reader.
///
/// Over a reader in memory it tells the bytes left, as the reader does. Over standard input it tells nothing of them.
#[derive(Drop)]
pub struct InSource<R: Read> {
    inner: R,
    down: bool,
}

impl<R: Read> InSource<R> {
    /// A source over `inner`, none of whose calls has failed. Takes no memory.
    pub fn new(inner: R) -> InSource<R>
        ensures inner { in_inner result ≡ inner }
        ensures up { in_down result ≡ false }
    {
        InSource { inner, down: false }
    }

    /// Gives the reader back.
    pub fn into_inner(self) -> R
        ensures { result ≡ in_inner self }
    {
        self.inner
    }
}

impl<R: Read> Source for InSource<R> {
    ghost tells = { λ s. record {
      left = R.remaining (in_inner s);
      calls = λ past. Unit {0};
      failures = failures_of (in_down s);
    } };

    /// One call of the reader. It fails at an error of the reader.
    fn read(&mut self, buf: &mut [u8]) -> Result<usize, Failed>
        requires { MayBeCalled (failures_of (in_down self.old)) }
        ensures bound { ReadsAtMost result buf.new }
        ensures bytes { ReadConsumes (R.remaining (in_inner self.old)) (R.remaining (in_inner self.new))
            result buf.new }
        ensures call { IsCalled (λ past. Unit {0}) (λ past. Unit {0}) (length buf.old) result }
        ensures cause { HasCause (failures_of (in_down self.old)) (failures_of (in_down self.new)) result }
    {
        match self.inner.read(buf) {
            Ok(count) => Ok(count),
            Err(_) => {
                self.down = true;
                Err(Failed)
            }
        }
    }
}

/// A sink over a writer of std, until an error of the writer.
///
/// Over a writer in memory it tells the bytes taken, as the writer does. Over standard output it tells nothing of them.
/// A writer that keeps bytes in a buffer, as `BufWriter`, is to be flushed by who made it: hand in `&mut writer`, or
/// take it back by `into_inner`.
#[derive(Drop)]
pub struct OutSink<W: Write> {
    inner: W,
    down: bool,
}

impl<W: Write> OutSink<W> {
    /// A sink over `inner`, none of whose calls has failed. Takes no memory.
    pub fn new(inner: W) -> OutSink<W>
        ensures inner { out_inner result ≡ inner }
        ensures up { out_down result ≡ false }
    {
        OutSink { inner, down: false }
    }

    /// Gives the writer back. It is not flushed.
    pub fn into_inner(self) -> W
        ensures { result ≡ out_inner self }
    {
        self.inner
    }
}

impl<W: Write> Sink for OutSink<W> {
    ghost tells = { λ s. record {
      taken = W.contents (out_inner s);
      calls = λ past. Unit {0};
      refuses = λ piece. Unit {0};
      failures = failures_of (out_down s);
    } };

    /// One call of the writer. It fails at an error of the writer, and where it took 0 bytes of a piece that has a byte.
    fn write(&mut self, piece: &[u8]) -> Result<usize, Failed>
        requires { MayBeCalled (failures_of (out_down self.old)) }
        ensures bound { WritesAtMost result piece.now }
        ensures some { 0 < length piece.now → IfOk result (λ n. 1 ≤ n) }
        ensures bytes { WriteAppends (W.contents (out_inner self.old)) (W.contents (out_inner self.new))
            result piece.now }
        ensures call { IsCalled (λ past. Unit {0}) (λ past. Unit {0}) (length piece.now) result }
        ensures refusal { OnErr result Unit }
        ensures cause { HasCause (failures_of (out_down self.old)) (failures_of (out_down self.new)) result }
    {
        match self.inner.write(piece) {
            Ok(count) if count > 0 || piece.is_empty() => Ok(count),
            _ => {
                self.down = true;
                Err(Failed)
            }
        }
    }
}
