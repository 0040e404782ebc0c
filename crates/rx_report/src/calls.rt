// The text of a call.
ghost use Rattle.std.specs.List.{flat_map};
ghost use Rattle.std.specs.Prelude.{◌≡◌, ◌≤◌, ◌+◌, ◌*◌, ◌++◌, length, take, true};
ghost use Rattle.rx_seq.specs.Table.{fits_part};
ghost use Rattle.rx_report.specs.Lines.{call_text, row_text, spaced};

use crate::buffers::{LineBuffer, push_text};
use crate::lines::push_values;
use rx_seq::{Call, Row};
use rx_set::Object;

/// Appends the word of a call, the name of its object, and its numbers. A name has at most 16 bytes.
fn push_named(line: &mut LineBuffer, word: &[u8], object: &Object, values: &[u32])
    requires { length line.old.items + length word.now + 16 + 11 * length values.now ≤ 1024 }
    ensures text { line.new.items ≡ line.old.items ++ word.now ++ object.now.name.bytes ++ flat_map spaced values.now }
    ensures few { length line.new.items ≤ length line.old.items + length word.now + 16 + 11 * length values.now }
{
    push_text(line, word);
    push_text(line, object.name.as_str().as_bytes());
    push_values(line, values);
}

/// Appends the first rows, at most 4: of each its register, and the old and the new value.
fn push_rows(line: &mut LineBuffer, rows: &[Row; 4], count: u32)
    requires room { length line.old.items + 132 ≤ 1024 }
    requires some { count ≤ 4 }
    ensures text { line.new.items ≡ line.old.items ++ flat_map row_text (take count rows.now) }
    ensures few { length line.new.items ≤ length line.old.items + 132 }
{
    for row in &rows[..count as usize] {
        push_values(line, &[row.i, row.old, row.new]);
    }
}

/// Appends a call on its object, which is at most 155 bytes. The call fits the object, so it has at most 4 rows.
pub(crate) fn push_call(line: &mut LineBuffer, object: &Object, call: &Call)
    requires room { length line.old.items + 155 ≤ 1024 }
    requires fits { fits_part object.now.part call.now ≡ true }
    ensures text { line.new.items ≡ line.old.items ++ call_text object.now.name.bytes call.now }
    ensures few { length line.new.items ≤ length line.old.items + 155 }
{
    match *call {
        Call::Get => push_named(line, b"get ", object, &[]),
        Call::Set { v } => push_named(line, b"set ", object, &[v]),
        Call::Add { v } => push_named(line, b"add ", object, &[v]),
        Call::Swap { old, new } => push_named(line, b"swap ", object, &[old, new]),
        Call::Put { v } => push_named(line, b"put ", object, &[v]),
        Call::Take => push_named(line, b"take ", object, &[]),
        Call::Insert { k } => push_named(line, b"insert ", object, &[k]),
        Call::Remove { k } => push_named(line, b"remove ", object, &[k]),
        Call::Has { k } => push_named(line, b"has ", object, &[k]),
        Call::Read { i } => push_named(line, b"read ", object, &[i]),
        Call::Shift { from, to, n } => push_named(line, b"shift ", object, &[from, to, n]),
        Call::Multi { count, ref rows } => {
            push_named(line, b"multi ", object, &[]);
            push_rows(line, rows, count);
        }
    }
}
