// The line of a fault of a task file.
ghost use Rattle.std.specs.Prelude.{◌≡◌, ◌≢◌, ◌≤◌, ◌+◌, ◌++◌, length};
ghost use Rattle.rx_file.specs.declared.faults.FileFault.TheVariants.{NoMemory};
ghost use Rattle.rx_report.specs.Lines.{fault_line, fault_text, item_fault, key_fault, label_word, row_fault, section_word};

use crate::buffers::{LineBuffer, push_text};
use crate::lines::{Line, push_spaced};
use rx_file::{FileFault, Label, Section};

/// Appends the word of a section.
fn push_section(line: &mut LineBuffer, section: Section)
    requires { length line.old.items + 6 ≤ 1024 }
    ensures text { line.new.items ≡ line.old.items ++ section_word section }
    ensures few { length line.new.items ≤ length line.old.items + 6 }
{
    match section {
        Section::Top => push_text(line, b"top"),
        Section::Object => push_text(line, b"object"),
        Section::Task => push_text(line, b"task"),
        Section::Demand => push_text(line, b"demand"),
    }
}

/// Appends the word of a label.
fn push_label(line: &mut LineBuffer, label: Label)
    requires { length line.old.items + 8 ≤ 1024 }
    ensures text { line.new.items ≡ line.old.items ++ label_word label }
    ensures few { length line.new.items ≤ length line.old.items + 8 }
{
    match label {
        Label::Policy => push_text(line, b"policy"),
        Label::Object => push_text(line, b"object"),
        Label::Task => push_text(line, b"task"),
        Label::Demand => push_text(line, b"demand"),
        Label::Whole => push_text(line, b"whole"),
        Label::Name => push_text(line, b"name"),
        Label::Kind => push_text(line, b"kind"),
        Label::Capacity => push_text(line, b"capacity"),
        Label::Period => push_text(line, b"period"),
        Label::Deadline => push_text(line, b"deadline"),
        Label::Offset => push_text(line, b"offset"),
        Label::Body => push_text(line, b"body"),
        Label::Job => push_text(line, b"job"),
        Label::Item => push_text(line, b"item"),
        Label::Ticks => push_text(line, b"ticks"),
        Label::Other => push_text(line, b"other"),
    }
}

/// Appends what is wrong, the section, and the number of its row or of all its rows.
fn push_row_fault(line: &mut LineBuffer, what: &[u8], section: Section, number: u64)
    requires { length line.old.items + length what.now + 27 ≤ 1024 }
    ensures text { line.new.items ≡ line.old.items ++ row_fault what.now section number }
    ensures few { length line.new.items ≤ length line.old.items + length what.now + 27 }
{
    push_text(line, what);
    push_section(line, section);
    push_spaced(line, number);
}

/// Appends what is wrong, the section, the number of its row, and what in the row it is.
fn push_key_fault(line: &mut LineBuffer, what: &[u8], section: Section, row: u32, label: Label)
    requires { length line.old.items + length what.now + 36 ≤ 1024 }
    ensures text { line.new.items ≡ line.old.items ++ key_fault what.now section row label }
    ensures few { length line.new.items ≤ length line.old.items + length what.now + 36 }
{
    push_row_fault(line, what, section, u64::from(row));
    push_text(line, b" ");
    push_label(line, label);
}

/// Appends what is wrong, and the numbers of a task and of its item.
fn push_item_fault(line: &mut LineBuffer, what: &[u8], task: u32, item: u32)
    requires { length line.old.items + length what.now + 42 ≤ 1024 }
    ensures text { line.new.items ≡ line.old.items ++ item_fault what.now task item }
    ensures few { length line.new.items ≤ length line.old.items + length what.now + 42 }
{
    push_text(line, what);
    push_spaced(line, u64::from(task));
    push_spaced(line, u64::from(item));
}

/// Appends what a fault tells, which is at most 55 bytes.
fn push_fault(line: &mut LineBuffer, fault: &FileFault)
    requires room { length line.old.items + 55 ≤ 1024 }
    requires fault { fault.now ≢ NoMemory }
    ensures text { line.new.items ≡ line.old.items ++ fault_text fault.now }
    ensures few { length line.new.items ≤ length line.old.items + 55 }
{
    match *fault {
        FileFault::NotToml => push_text(line, b"not toml"),
        FileFault::Field {
            section,
            row,
            label,
        } => push_key_fault(line, b"set 2 field ", section, row, label),
        FileFault::Name { section, row } => {
            push_row_fault(line, b"set 3 name ", section, u64::from(row));
        }
        FileFault::Repeat { section, row } => {
            push_row_fault(line, b"set 4 repeat ", section, u64::from(row));
        }
        FileFault::Range {
            section,
            row,
            label,
        } => push_key_fault(line, b"set 5 range ", section, row, label),
        FileFault::Item { task, item } => push_item_fault(line, b"set 6 item", task, item),
        FileFault::Unknown { task, item } => push_item_fault(line, b"set 7 unknown", task, item),
        FileFault::Misfit { task, item } => push_item_fault(line, b"set 8 misfit", task, item),
        FileFault::TooMany { section, count } => {
            push_row_fault(line, b"set 9 many ", section, count);
        }
        FileFault::NoMemory => unreachable!(),
    }
}

/// Makes `out` the line of a fault of a task file, with its line feed. What stood in `out` is gone. `S` is the word of the
/// section, `top`, `object`, `task` or `demand`, and `LABEL` that of the key that it is about, `whole` for the row itself and
/// `other` for a key without a meaning; rows, tasks and items are numbered from 1, and 0 stands for the keys at the top:
///
/// - `not toml`,
/// - `set 2 field S ROW LABEL`, `set 3 name S ROW`, `set 4 repeat S ROW` and `set 5 range S ROW LABEL`,
/// - `set 6 item TASK ITEM`, `set 7 unknown TASK ITEM` and `set 8 misfit TASK ITEM`,
/// - `set 9 many S COUNT`.
///
/// Want of memory is no fault of a file, and has no line. It takes no memory, and its cost is that of the bytes written.
pub fn fault_line(fault: &FileFault, out: &mut Line)
    requires { fault.now ≢ NoMemory }
    ensures { out.new.items ≡ fault_line fault.now }
{
    let mut line = LineBuffer::new();
    push_fault(&mut line, fault);
    push_text(&mut line, b"\n");
    line.copy_to(out);
}

#[cfg(test)]
mod tests {
    use super::*;

    /// Whether the line of a fault of a file is this one.
    fn has_line(fault: FileFault, text: &[u8]) -> bool {
        let mut line = Line::new();
        if fault == FileFault::NoMemory {
            return false;
        }
        fault_line(&fault, &mut line);
        line.as_slice() == text
    }

    #[test]
    fn writes_faults(rt: HostRuntime) {
        let section = Section::Demand;
        let label = Label::Capacity;
        let most = u32::MAX;
        let cases: [(FileFault, &[u8]); 9] = [
            (FileFault::NotToml, b"not toml\n"),
            (
                FileFault::Field {
                    section,
                    row: most,
                    label,
                },
                b"set 2 field demand 4294967295 capacity\n",
            ),
            (
                FileFault::Name {
                    section: Section::Object,
                    row: 16,
                },
                b"set 3 name object 16\n",
            ),
            (
                FileFault::Repeat { section, row: 1000 },
                b"set 4 repeat demand 1000\n",
            ),
            (
                FileFault::Range {
                    section: Section::Top,
                    row: 0,
                    label: Label::Policy,
                },
                b"set 5 range top 0 policy\n",
            ),
            (FileFault::Item { task: 1, item: 2 }, b"set 6 item 1 2\n"),
            (
                FileFault::Unknown { task: 3, item: 4 },
                b"set 7 unknown 3 4\n",
            ),
            (
                FileFault::Misfit { task: 5, item: 6 },
                b"set 8 misfit 5 6\n",
            ),
            (
                FileFault::TooMany {
                    section: Section::Task,
                    count: u64::MAX,
                },
                b"set 9 many task 18446744073709551615\n",
            ),
        ];
        for (fault, text) in cases {
            assert!(rt; has_line(fault, text));
        }
    }
}
