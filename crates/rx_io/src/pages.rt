//! A sink over a writer of std that gathers bytes in a page.
ghost use Rattle.std.specs.Prelude.{◌≡◌, ◌<◌, ◌≤◌, [], false, length, take, IfOk, OnErr, OnOk};
ghost use Rattle.std.specs.Io.{WritesAtMost};
ghost use Rattle.std.specs.Io.KnownBytes.{Appends, Keeps, WriteAppends};
ghost use Rattle.rx_io.specs.States.{IsCalled, MayBeCalled, failures_of};
ghost use Rattle.rx_io.specs.Causes.{HasCause};
ghost use Rattle.rx_io.specs.Pages.{page_contents, page_state};

use crate::traits::{Failed, NoMemory, Sink};
use rx_text::place_text;
use std::alloc::Global;
use std::io::{ErrorKind, Write};
use std::marker::Model;

// How many bytes a page has.
const PAGE: usize = 65_536;

/// A sink over a writer of std, until an error of the writer. It gathers bytes in a page of 65,536, and hands them to the
/// writer when the next piece does not fit into what is left of the page.
///
/// Over a writer in memory it tells the bytes taken: the writer's, and behind them those that are gathered. The last of
/// these are handed on by `flush` alone, which is to be called by who made the sink. Takes memory once, in `new`.
#[derive(Drop)]
pub struct PageSink<W: Write> {
    inner: W,
    page: Vec<u8>,
    // The writer has taken the bytes of the page before `at`: none, but after a call that failed.
    at: usize,
    // The bytes from `at` to `len` are gathered.
    len: usize,
    down: bool,
}

impl<W: Write> Model for PageSink<W> {
    ghost use Rattle.std.specs.Prelude.{◌≡◌, ◌≤◌, drop, take, vec_len};
    ghost use Rattle.rx_io.specs.Pages.{Pages};

    ghost Value = { Pages W };

    ghost view = { λ s. record {
      inner = s.inner;
      gathered = drop s.at (take s.len s.page.items);
      down = s.down;
    } };

    ghost invariant = { λ s. (s.at ≤ s.len) × (s.len ≤ 65536) × (vec_len s.page ≡ 65536) };
}

// One call of the writer, made again where a signal interrupts it.
fn write_some<W: Write>(inner: &mut W, bytes: &[u8]) -> Result<usize, Failed>
    requires { 0 < length bytes.now }
    ensures bound { WritesAtMost result bytes.now }
    ensures some { IfOk result (λ n. 1 ≤ n) }
    ensures bytes { WriteAppends (W.contents inner.old) (W.contents inner.new) result bytes.now }
{
    for _ in 0..u64::MAX {
        match inner.write(bytes) {
            Ok(count) if count > 0 => return Ok(count),
            Ok(_) => return Err(Failed),
            Err(error) => {
                if error.kind() != ErrorKind::Interrupted {
                    return Err(Failed);
                }
            }
        }
    }
    Err(Failed)
}

// Hands bytes to the writer, call by call, and answers how many it took: fewer than there are only where a call failed.
fn write_out<W: Write>(inner: &mut W, bytes: &[u8]) -> usize
    ensures bound { result ≤ length bytes.now }
    ensures bytes { Appends (W.contents inner.old) (W.contents inner.new) (take result bytes.now) }
{
    let mut at = 0;
    while at < bytes.len() {
        match write_some(inner, &bytes[at..]) {
            Ok(count) => at += count,
            Err(Failed) => return at,
        }
    }
    at
}

impl<W: Write> PageSink<W> {
    /// A sink over `inner` with an empty page, none of whose calls has failed. Takes the memory for the page at once, and
    /// clears it; where that was refused it answers `NoMemory`, and `inner` is let go.
    pub fn new(alloc: Global, inner: W) -> Result<PageSink<W>, NoMemory>
    where
        W: Drop,
        ensures { IfOk result (λ sink. sink ≡ record { inner = inner; gathered = []; down = false }) }
    {
        let mut page = Vec::new(alloc);
        match page.resize(PAGE, 0) {
            Ok(()) => Ok(PageSink {
                inner,
                page,
                at: 0,
                len: 0,
                down: false,
            }),
            Err(_) => Err(NoMemory),
        }
    }

    /// Gives the writer back. What is gathered is not handed on.
    pub fn into_inner(self) -> W
        ensures { result ≡ self.inner }
    {
        let PageSink { inner, page: _, .. } = self;
        inner
    }

    /// Hands what is gathered to the writer, and flushes the writer.
    ///
    /// At `Ok` nothing is gathered any more. `Failed` comes only where a call of the writer failed, or took nothing of the
    /// bytes that it was handed; what it did not take stays gathered. In both cases the bytes taken stay the same, the
    /// writer's and those gathered together. Takes no memory; one call of the writer for each part that it takes, again
    /// where a signal interrupted it, and one that flushes it. Wants a sink whose latest call did not fail: nothing is
    /// written after a failure.
    pub fn flush(&mut self) -> Result<(), Failed>
        requires { MayBeCalled (failures_of self.old.down) }
        ensures empty { OnOk result (self.new.gathered ≡ []) }
        ensures bytes { Keeps (page_contents W.contents self.old) (page_contents W.contents self.new) }
        ensures cause { HasCause (failures_of self.old.down) (failures_of self.new.down) result }
    {
        self.hand_over()?;
        if self.inner.flush().is_err() {
            self.down = true;
            return Err(Failed);
        }
        Ok(())
    }

    // Hands what is gathered to the writer.
    fn hand_over(&mut self) -> Result<(), Failed>
        requires { MayBeCalled (failures_of self.old.down) }
        ensures empty { OnOk result (self.new.gathered ≡ []) }
        ensures bytes { Keeps (page_contents W.contents self.old) (page_contents W.contents self.new) }
        ensures cause { HasCause (failures_of self.old.down) (failures_of self.new.down) result }
    {
        self.at += write_out(&mut self.inner, &self.page[self.at..self.len]);
        if self.at < self.len {
            self.down = true;
            return Err(Failed);
        }
        self.at = 0;
        self.len = 0;
        Ok(())
    }

    // Takes a piece that leaves no byte of the page free. It stands apart, so that the test for room is inlined.
    #[cold]
    #[inline(never)]
    fn write_cold(&mut self, piece: &[u8]) -> Result<usize, Failed>
        requires { MayBeCalled (failures_of self.old.down) }
        ensures bound { WritesAtMost result piece.now }
        ensures some { 0 < length piece.now → IfOk result (λ n. 1 ≤ n) }
        ensures bytes { WriteAppends (page_contents W.contents self.old) (page_contents W.contents self.new)
            result piece.now }
        ensures cause { HasCause (failures_of self.old.down) (failures_of self.new.down) result }
    {
        self.hand_over()?;
        if piece.len() < PAGE {
            self.at = 0;
            self.len = place_text(self.page.as_mut_slice(), 0, piece);
            return Ok(piece.len());
        }
        match self.inner.write(piece) {
            Ok(count) if count > 0 => Ok(count),
            _ => {
                self.down = true;
                Err(Failed)
            }
        }
    }
}

impl<W: Write> Sink for PageSink<W> {
    ghost tells = { λ s. page_state W.contents s };

    /// Copies the piece into the page, all of it. Where it does not fit there, what is gathered is handed to the writer
    /// first, in a call for each part that it takes, again where a signal interrupted it. A piece of 65,536 bytes or more
    /// is then handed to the writer in one call, which may take a part of it.
    ///
    /// It fails where a call of the writer failed, or took nothing of the bytes that it was handed. What the writer did not
    /// take of the page stays gathered. Takes no memory, and time that grows with the piece, beside that of the writer.
    #[inline(always)]
    fn write(&mut self, piece: &[u8]) -> Result<usize, Failed>
        requires { MayBeCalled (failures_of self.old.down) }
        ensures bound { WritesAtMost result piece.now }
        ensures some { 0 < length piece.now → IfOk result (λ n. 1 ≤ n) }
        ensures bytes { WriteAppends (page_contents W.contents self.old) (page_contents W.contents self.new)
            result piece.now }
        ensures call { IsCalled (λ past. Unit {0}) (λ past. Unit {0}) (length piece.now) result }
        ensures refusal { OnErr result Unit }
        ensures cause { HasCause (failures_of self.old.down) (failures_of self.new.down) result }
    {
        if piece.len() <= PAGE - self.len {
            self.len = place_text(self.page.as_mut_slice(), self.len, piece);
            return Ok(piece.len());
        }
        self.write_cold(piece)
    }
}
