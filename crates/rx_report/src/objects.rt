// The line of an object.
ghost use Rattle.std.specs.Prelude.{◌≡◌, ◌≤◌, ◌<◌, ◌+◌, ◌++◌, length};
ghost use Rattle.rx_set.specs.View.{object_row};
ghost use Rattle.rx_report.specs.Lines.{kind_word, object_at, object_line};

use crate::buffers::{LineBuffer, push_text};
use crate::lines::{Line, push_field, push_values};
use rx_seq::{Kind, State};
use rx_set::{Object, TaskSet};

/// An object of the set, by its number from 0.
pub(crate) fn object_at(set: &TaskSet, object: u32) -> &Object
    requires { object < length set.now.objects }
    ensures { object_row result.now ≡ object_at set.now object }
{
    &set.objects()[object as usize]
}

/// Appends the word of a kind.
fn push_kind(line: &mut LineBuffer, kind: Kind)
    requires { length line.old.items + 9 ≤ 1024 }
    ensures text { line.new.items ≡ line.old.items ++ kind_word kind }
    ensures few { length line.new.items ≤ length line.old.items + 9 }
{
    match kind {
        Kind::Cell => push_text(line, b"cell"),
        Kind::Queue => push_text(line, b"queue"),
        Kind::List => push_text(line, b"list"),
        Kind::Registers => push_text(line, b"registers"),
    }
}

/// Makes `out` the line of an object of the set, which is named by its number from 0: `object O K tag G state`, then a
/// space and a number for each number of the state, and a line feed. `O` is its name, and `K` the word of its kind: `cell`,
/// `queue`, `list` or `registers`. What stood in `out` is gone. There is room for every tag and every state. It takes no
/// memory, and its cost is that of the bytes written.
pub fn object_line(set: &TaskSet, object: u32, tag: u64, state: &State, out: &mut Line)
    requires { object < length set.now.objects }
    ensures { out.new.items ≡ object_line set.now object tag state.now.items }
{
    let shared = object_at(set, object);
    let mut line = LineBuffer::new();
    push_text(&mut line, b"object ");
    push_text(&mut line, shared.name.as_str().as_bytes());
    push_text(&mut line, b" ");
    push_kind(&mut line, shared.part.kind);
    push_field(&mut line, b" tag", tag);
    push_text(&mut line, b" state");
    push_values(&mut line, state.as_slice());
    push_text(&mut line, b"\n");
    line.copy_to(out);
}
