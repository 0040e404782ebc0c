//! A source and a sink in memory.
ghost use Rattle.std.specs.Prelude.{◌≡◌, ◌<◌, ◌≤◌, [], ◌++◌, ◌||◌, false, length, take, drop, is_err, IfOk, OnErr, Some};
ghost use Rattle.std.specs.Io.{ReadsAtMost, WritesAtMost};
ghost use Rattle.std.specs.Io.KnownBytes.{ReadConsumes, WriteAppends};
ghost use Rattle.rx_io.specs.States.{IsCalled, MayBeCalled, failures_of};
ghost use Rattle.rx_io.specs.Causes.{HasCause};
ghost use Rattle.rx_io.specs.Memory.{AreCounted, source_state, sink_state, next_call, is_listed, is_full, given_count, after_read, after_failed_read, taken_count, after_write, after_failed_write};

use crate::traits::{Failed, NoMemory, Sink, Source};
use std::alloc::Global;
use std::marker::Model;

/// A source that gives bytes from memory, and fails in the calls that it was told to fail in.
#[derive(Drop)]
pub struct MemorySource {
    bytes: Vec<u8>,
    at: usize,
    step: usize,
    fails: Vec<u64>,
    calls: u64,
    down: bool,
}

impl Model for MemorySource {
    ghost use Rattle.std.specs.Prelude.{◌≤◌, drop, vec_len};
    ghost use Rattle.rx_io.specs.Memory.{MemoryIn};

    ghost Value = { MemoryIn };

    ghost view = { λ s. record {
      left = drop s.at s.bytes.items;
      step = s.step;
      fails = s.fails.items;
      calls = s.calls;
      down = s.down;
    } };

    ghost invariant = { λ s. (s.at ≤ vec_len s.bytes) × (1 ≤ s.step) };
}

impl MemorySource {
    /// A source of these bytes that gives at most `step` bytes a call, and fails exactly in its calls whose numbers,
    /// from 1, are in `fails`. A call that fails gives nothing and counts as a call.
    ///
    /// A source that failed is called no more, so of several numbers the least from 1 on has a meaning alone. The number
    /// of the call stands still at 2^64 - 1. Takes no memory. Wants a `step` of 1 or more. A call of `read`
    /// copies what it gives and looks through all of `fails`.
    pub fn new(bytes: Vec<u8>, step: usize, fails: Vec<u64>) -> MemorySource
        requires { 1 ≤ step }
        ensures { result ≡ record {
          left = bytes.items;
          step = step;
          fails = fails.items;
          calls = 0;
          down = false;
        } }
    {
        MemorySource {
            bytes,
            at: 0,
            step,
            fails,
            calls: 0,
            down: false,
        }
    }

    /// How many calls were made so far, those that failed among them. It stands still at 2^64 - 1. Costs nothing.
    pub fn calls(&self) -> u64
        ensures { result ≡ self.now.calls }
    {
        self.calls
    }
}

impl Source for MemorySource {
    ghost tells = { source_state };

    /// Gives as many bytes as the least of the step, the buffer's length and the bytes left.
    fn read(&mut self, buf: &mut [u8]) -> Result<usize, Failed>
        requires { MayBeCalled (failures_of self.old.down) }
        ensures bound { ReadsAtMost result buf.new }
        ensures bytes { ReadConsumes (Some self.old.left) (Some self.new.left) result buf.new }
        ensures call { IsCalled (AreCounted self.old.calls) (AreCounted self.new.calls) (length buf.old) result }
        ensures cause { HasCause (failures_of self.old.down) (failures_of self.new.down) result }

        // It fails exactly in the calls that are listed.
        ensures listed { is_err result ≡ is_listed (next_call self.old.calls) self.old.fails }
        ensures failed { OnErr result (self.new ≡ after_failed_read self.old) }
        ensures untouched { OnErr result (buf.new ≡ buf.old) }

        // Otherwise it gives as much as it can.
        ensures count { IfOk result (λ n. n ≡ given_count self.old (length buf.old)) }
        ensures given { IfOk result (λ n. self.new ≡ after_read self.old n) }
        ensures copied { IfOk result (λ n. buf.new ≡ take n self.old.left ++ drop n buf.old) }
    {
        self.calls = self.calls.saturating_add(1);
        if self.fails.contains(&self.calls) {
            self.down = true;
            return Err(Failed);
        }
        let count = self.step.min(buf.len()).min(self.bytes.len() - self.at);
        buf[..count].copy_from_slice(&self.bytes[self.at..self.at + count]);
        self.at += count;
        Ok(count)
    }
}

/// A sink that keeps the bytes in memory, up to a room, and fails in the calls that it was told to fail in.
#[derive(Drop)]
pub struct MemorySink {
    bytes: Vec<u8>,
    room: usize,
    step: usize,
    fails: Vec<u64>,
    calls: u64,
    down: bool,
}

impl Model for MemorySink {
    ghost use Rattle.std.specs.Prelude.{◌≤◌, vec_len, vec_capacity};
    ghost use Rattle.rx_io.specs.Memory.{MemoryOut};

    ghost Value = { MemoryOut };

    ghost view = { λ s. record {
      taken = s.bytes.items;
      room = s.room;
      step = s.step;
      fails = s.fails.items;
      calls = s.calls;
      down = s.down;
    } };

    ghost invariant = { λ s. (vec_len s.bytes ≤ s.room) × (s.room ≤ vec_capacity s.bytes) × (1 ≤ s.step) };
}

impl MemorySink {
    /// A sink that takes at most `room` bytes in all and at most `step` bytes a call, and fails exactly in its calls
    /// whose numbers, from 1, are in `fails`, and in those with a piece of a byte or more once `room` bytes are taken.
    /// A call that fails takes nothing and counts as a call.
    ///
    /// A sink that failed is called no more, so of several numbers the least from 1 on has a meaning alone. The number of
    /// the call stands still at 2^64 - 1. Takes the memory for `room` bytes at once, so that `write`
    /// takes none, and answers `NoMemory` where it was refused. Wants a `step` of 1 or more. A call of `write` copies
    /// what it takes and looks through all of `fails`.
    pub fn new(
        alloc: Global,
        room: usize,
        step: usize,
        fails: Vec<u64>,
    ) -> Result<MemorySink, NoMemory>
        requires { 1 ≤ step }
        ensures { IfOk result (λ sink. sink ≡ record {
          taken = [];
          room = room;
          step = step;
          fails = fails.items;
          calls = 0;
          down = false;
        }) }
    {
        match Vec::with_capacity(alloc, room) {
            Ok(bytes) => Ok(MemorySink {
                bytes,
                room,
                step,
                fails,
                calls: 0,
                down: false,
            }),
            Err(_) => Err(NoMemory),
        }
    }

    /// All bytes taken so far, in order. Costs nothing.
    pub fn taken(&self) -> &[u8]
        ensures { result.now ≡ self.now.taken }
    {
        self.bytes.as_slice()
    }

    /// How many calls were made so far, those that failed among them. It stands still at 2^64 - 1. Costs nothing.
    pub fn calls(&self) -> u64
        ensures { result ≡ self.now.calls }
    {
        self.calls
    }
}

impl Sink for MemorySink {
    ghost tells = { sink_state };

    /// Takes as many bytes as the least of the step, the room left and the piece's length. Takes no memory.
    fn write(&mut self, piece: &[u8]) -> Result<usize, Failed>
        requires { MayBeCalled (failures_of self.old.down) }
        ensures bound { WritesAtMost result piece.now }
        ensures some { 0 < length piece.now → IfOk result (λ n. 1 ≤ n) }
        ensures bytes { WriteAppends (Some self.old.taken) (Some self.new.taken) result piece.now }
        ensures call { IsCalled (AreCounted self.old.calls) (AreCounted self.new.calls) (length piece.now) result }
        ensures refusal { OnErr result Unit }
        ensures cause { HasCause (failures_of self.old.down) (failures_of self.new.down) result }

        // It fails exactly in the calls that are listed, and where there is no room.
        ensures refused { is_err result
            ≡ (is_listed (next_call self.old.calls) self.old.fails || is_full self.old piece.now) }
        ensures failed { OnErr result (self.new ≡ after_failed_write self.old) }

        // Otherwise it takes as much as it can.
        ensures count { IfOk result (λ n. n ≡ taken_count self.old (length piece.now)) }
        ensures taken { IfOk result (λ n. self.new ≡ after_write self.old (take n piece.now)) }
    {
        self.calls = self.calls.saturating_add(1);
        let room = self.room - self.bytes.len();
        if self.fails.contains(&self.calls) || (room == 0 && !piece.is_empty()) {
            self.down = true;
            return Err(Failed);
        }
        let count = self.step.min(room).min(piece.len());
        match self.bytes.extend_from_slice(&piece[..count]) {
            Ok(()) => Ok(count),
            Err(_) => unreachable!(),
        }
    }
}
