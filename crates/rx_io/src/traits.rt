//! What a source and a sink promise.
ghost use Rattle.std.specs.Prelude.{◌<◌, ◌≤◌, length, IfOk, OnErr};
ghost use Rattle.std.specs.Io.{ReadsAtMost, WritesAtMost};
ghost use Rattle.std.specs.Io.KnownBytes.{ReadConsumes, WriteAppends};
ghost use Rattle.rx_io.specs.States.{IsCalled, MayBeCalled, SinkState, SourceState};
ghost use Rattle.rx_io.specs.Causes.{HasCause};

/// A call of a source or a sink failed, and its count of faults has risen.
#[derive(Clone, Copy, Debug, PartialEq, Eq)]
pub struct Failed;

/// The memory that a call wanted was refused.
#[derive(Clone, Copy, Debug, PartialEq, Eq)]
pub struct NoMemory;

/// Gives bytes in order, until a call of it fails.
pub trait Source {
    // The bytes left, where the source tells them; the calls made; how many have failed, which never falls; and whether
    // the latest has.
    ghost tells: { Self → SourceState };

    /// Moves the first bytes left to the front of `buf`, and answers how many, at most the length of `buf`.
    ///
    /// The answer is 0 for a buffer of one byte or more only at the end of the input. What stands in `buf` behind
    /// those bytes is left open. `Failed` comes only where the count of faults rose; then no byte was consumed, and
    /// what stands in `buf` is left open. Wants a count of faults below 2^63, and that the latest call did not fail: a
    /// source that failed is called no more.
    fn read(&mut self, buf: &mut [u8]) -> Result<usize, Failed>
        requires { MayBeCalled (tells self.old).failures }
        ensures bound { ReadsAtMost result buf.new }
        ensures bytes { ReadConsumes (tells self.old).left (tells self.new).left result buf.new }
        ensures call { IsCalled (tells self.old).calls (tells self.new).calls (length buf.old) result }
        ensures cause { HasCause (tells self.old).failures (tells self.new).failures result };
}

/// Takes bytes in order, until a call of it fails.
pub trait Sink {
    // The bytes taken, where the sink tells them; the calls made; why a piece was refused, where the sink tells that; how
    // many calls have failed, which never falls; and whether the latest has.
    ghost tells: { Self → SinkState };

    /// Takes the first bytes of `piece` behind those taken before, and answers how many, at most the length of `piece`.
    ///
    /// The answer is 1 or more where `piece` has a byte. `Failed` comes only where the count of faults rose; then no
    /// byte of `piece` was taken. Wants a count of faults below 2^63, and that the latest call did not fail: a sink that
    /// failed is called no more.
    fn write(&mut self, piece: &[u8]) -> Result<usize, Failed>
        requires { MayBeCalled (tells self.old).failures }
        ensures bound { WritesAtMost result piece.now }
        ensures some { 0 < length piece.now → IfOk result (λ n. 1 ≤ n) }
        ensures bytes { WriteAppends (tells self.old).taken (tells self.new).taken result piece.now }
        ensures call { IsCalled (tells self.old).calls (tells self.new).calls (length piece.now) result }
        ensures refusal { OnErr result ((tells self.new).refuses piece.now) }
        ensures cause { HasCause (tells self.old).failures (tells self.new).failures result };
}
