// Appending to a line.
ghost use Rattle.std.specs.List.{flat_map};
ghost use Rattle.std.specs.Prelude.{◌≡◌, ◌≤◌, ◌+◌, ◌*◌, ◌++◌, length};
ghost use Rattle.rx_report.specs.Lines.{spaced};

use crate::buffers::{LineBuffer, push_number, push_small, push_text};
use arrayvec::ArrayVec;

/// One line with its line feed. No line of a report is longer than 1,024 bytes.
pub type Line = ArrayVec<u8, 1024>;

/// Appends a space and a number.
#[inline(always)]
pub(crate) fn push_spaced(line: &mut LineBuffer, n: u64)
    requires { length line.old.items + 21 ≤ 1024 }
    ensures text { line.new.items ≡ line.old.items ++ spaced n }
    ensures few { length line.new.items ≤ length line.old.items + 21 }
{
    push_text(line, b" ");
    push_number(line, n);
}

/// Appends a text, a space and a number.
#[inline(always)]
pub(crate) fn push_field(line: &mut LineBuffer, text: &[u8], n: u64)
    requires { length line.old.items + length text.now + 21 ≤ 1024 }
    ensures text { line.new.items ≡ line.old.items ++ text.now ++ spaced n }
    ensures few { length line.new.items ≤ length line.old.items + length text.now + 21 }
{
    push_text(line, text);
    push_spaced(line, n);
}

/// Appends a space and a number of 32 bits, which has at most 10 digits.
fn push_value(line: &mut LineBuffer, value: u32)
    requires { length line.old.items + 11 ≤ 1024 }
    ensures text { line.new.items ≡ line.old.items ++ spaced value }
    ensures few { length line.new.items ≤ length line.old.items + 11 }
{
    push_text(line, b" ");
    push_small(line, value);
}

/// Appends numbers of 32 bits, and a space before each.
pub(crate) fn push_values(line: &mut LineBuffer, values: &[u32])
    requires { length line.old.items + 11 * length values.now ≤ 1024 }
    ensures text { line.new.items ≡ line.old.items ++ flat_map spaced values.now }
    ensures few { length line.new.items ≤ length line.old.items + 11 * length values.now }
{
    for value in values {
        push_value(line, *value);
    }
}
