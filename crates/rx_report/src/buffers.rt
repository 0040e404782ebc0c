// The buffer in which a line is made.
ghost use Rattle.std.specs.Prelude.{◌≡◌, ◌≤◌, ◌+◌, ◌++◌, [], length, take, decimal};

use crate::lines::Line;
use crate::wordings::{Long, Short};
use rx_text::{place_four, place_number, place_part, place_text};
use std::marker::Model;

/// A buffer in which lines are made, one after the other, as `event_line` and the like make them in a `Line`, and in less
/// time: nothing is cleared, and a line of an event whose time differs from the last one's in its last four digits alone
/// writes these four anew. It is plain data of about a thousand bytes, and takes no memory.
#[derive(Drop)]
pub struct LineBuffer {
    bytes: [u8; 1040],
    len: usize,
    time: u64,
    base: u64,
    digits: usize,
}

impl Model for LineBuffer {
    ghost use Rattle.rx_report.specs.Buffers.{KeepsTime, LineText};
    ghost use Rattle.std.specs.Prelude.{◌≤◌, take};

    ghost Value = { LineText };

    ghost view = { λ b. record { items = take b.len b.bytes } };

    ghost invariant = { λ b. (b.len ≤ 1024) × KeepsTime b.bytes b.len b.digits b.time b.base };
}

impl LineBuffer {
    /// An empty one. It clears its bytes.
    pub fn new() -> LineBuffer
        ensures { result.items ≡ [] }
    {
        LineBuffer {
            bytes: [0; 1040],
            len: 0,
            time: 0,
            base: 0,
            digits: 0,
        }
    }

    /// The line that was made last, with its line feed. It takes constant time.
    #[inline(always)]
    pub fn as_slice(&self) -> &[u8]
        ensures value { result.now ≡ self.now.items }
        ensures few { length result.now ≤ 1024 }
    {
        &self.bytes[..self.len]
    }

    /// Empties it. It takes constant time.
    #[inline(always)]
    pub fn clear(&mut self)
        ensures { self.new.items ≡ [] }
    {
        self.len = 0;
        self.digits = 0;
    }

    /// Makes `out` the line.
    pub(crate) fn copy_to(&self, out: &mut Line)
        ensures { out.new.items ≡ self.now.items }
    {
        out.clear();
        match out.try_extend_from_slice(self.as_slice()) {
            Ok(()) => {}
            Err(_) => unreachable!(),
        }
    }
}

/// Appends a text.
#[inline(always)]
pub(crate) fn push_text(line: &mut LineBuffer, text: &[u8])
    requires { length line.old.items + length text.now ≤ 1024 }
    ensures { line.new.items ≡ line.old.items ++ text.now }
{
    line.len = place_text(&mut line.bytes, line.len, text);
}

/// Appends a kept text of at most 32 bytes.
#[inline(always)]
pub(crate) fn push_short(line: &mut LineBuffer, text: &Short)
    requires room { length line.old.items + 32 ≤ 1024 }
    requires few { (text.now.len ≤ 32) × (length text.now.bytes ≡ 32) }
    ensures { line.new.items ≡ line.old.items ++ take text.now.len text.now.bytes }
{
    line.len = place_part::<32>(&mut line.bytes, line.len, &text.bytes, text.len);
}

/// Appends a text of any length, out of line: where lines are made it would take registers.
#[inline(never)]
fn push_far(line: &mut LineBuffer, text: &[u8])
    requires { length line.old.items + length text.now ≤ 1024 }
    ensures { line.new.items ≡ line.old.items ++ text.now }
{
    push_text(line, text);
}

/// Appends a kept text of at most 192 bytes.
#[inline(always)]
pub(crate) fn push_long(line: &mut LineBuffer, text: &Long)
    requires room { length line.old.items + 192 ≤ 1024 }
    requires few { (text.now.len ≤ 192) × (length text.now.bytes ≡ 192) }
    ensures { line.new.items ≡ line.old.items ++ take text.now.len text.now.bytes }
{
    if text.len <= 32 {
        line.len = place_part::<32>(&mut line.bytes, line.len, &text.bytes, text.len);
    } else {
        push_far(line, &text.bytes[..text.len]);
    }
}

/// Appends a number, which has at most 20 digits.
#[inline(always)]
pub(crate) fn push_number(line: &mut LineBuffer, n: u64)
    requires { length line.old.items + 20 ≤ 1024 }
    ensures text { line.new.items ≡ line.old.items ++ decimal n }
    ensures few { length line.new.items ≤ length line.old.items + 20 }
{
    line.len = place_number(&mut line.bytes, line.len, n);
}

/// Appends a number of 32 bits, which has at most 10 digits.
#[inline(always)]
pub(crate) fn push_small(line: &mut LineBuffer, n: u32)
    requires { length line.old.items + 10 ≤ 1024 }
    ensures text { line.new.items ≡ line.old.items ++ decimal n }
    ensures few { length line.new.items ≤ length line.old.items + 10 }
{
    line.len = place_number(&mut line.bytes, line.len, u64::from(n));
}

/// Writes all digits of a time.
#[inline(never)]
fn write_digits(line: &mut LineBuffer, time: u64)
    ensures text { line.new.items ≡ decimal time }
    ensures few { length line.new.items ≤ 20 }
{
    line.digits = place_number(&mut line.bytes, 0, time);
    line.base = time / 10_000 * 10_000;
    line.time = time;
    line.len = line.digits;
}

/// Writes the text of a time in the place of the one that is kept: its last four digits alone, where the others are the
/// same.
#[inline(always)]
fn write_time(line: &mut LineBuffer, time: u64)
    ensures text { line.new.items ≡ decimal time }
    ensures few { length line.new.items ≤ 20 }
{
    if line.digits > 4 && time >= line.base && time - line.base < 10_000 {
        let last = (time - line.base) as u32;
        line.digits = place_four(&mut line.bytes, line.digits - 4, last);
        line.time = time;
        line.len = line.digits;
    } else {
        write_digits(line, time);
    }
}

/// Makes it the text of a time, whatever it was.
#[inline(always)]
pub(crate) fn begin(line: &mut LineBuffer, time: u64)
    ensures text { line.new.items ≡ decimal time }
    ensures few { length line.new.items ≤ 20 }
{
    if time == line.time && line.digits > 0 {
        line.len = line.digits;
    } else {
        write_time(line, time);
    }
}
