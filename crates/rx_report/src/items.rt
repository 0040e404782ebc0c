// The text of an item.
ghost use Rattle.std.specs.Prelude.{◌≡◌, ◌≤◌, ◌+◌, ◌++◌, length, Some, None, IfSome, IfNone};
ghost use Rattle.rx_set.specs.Valid.{IsItem};
ghost use Rattle.rx_report.specs.Lines.{item_of, item_text, object_text};

use crate::buffers::{LineBuffer, push_number, push_text};
use crate::calls::push_call;
use crate::jobs::task_of;
use crate::objects::object_at;
use rx_set::{Item, Job, TaskSet};

/// An item of a job, by its number from 1. If it is an operation, it calls an object of the set, and the call fits.
fn item_of(set: &TaskSet, job: Job, item: u32) -> Option<&Item>
    ensures found { IfSome result (λ found. item_of set.now job item ≡ Some found.now) }
    ensures none { IfNone result (item_of set.now job item ≡ None) }
    ensures valid { IfSome result (λ found. IsItem set.now found.now) }
{
    match task_of(set, job) {
        Some(task) => task.body.items().get(item.saturating_sub(1) as usize),
        None => None,
    }
}

/// Appends what an item asks for, which is at most 155 bytes, and nothing where there is no such item.
pub(crate) fn push_item(set: &TaskSet, job: Job, item: u32, line: &mut LineBuffer)
    requires { length line.old.items + 155 ≤ 1024 }
    ensures text { line.new.items ≡ line.old.items ++ item_text set.now (item_of set.now job item) }
    ensures few { length line.new.items ≤ length line.old.items + 155 }
{
    match item_of(set, job, item) {
        Some(Item::Work { n }) => {
            push_text(line, b"work ");
            push_number(line, *n);
        }
        Some(Item::Op { object, call }) => push_call(line, object_at(set, *object), call),
        None => {}
    }
}

/// Appends the name of the object that an item calls, and nothing where it calls none. A name has at
/// most 16 bytes.
#[inline(never)]
pub(crate) fn push_object(set: &TaskSet, job: Job, item: u32, line: &mut LineBuffer)
    requires { length line.old.items + 16 ≤ 1024 }
    ensures text { line.new.items ≡ line.old.items ++ object_text set.now (item_of set.now job item) }
    ensures few { length line.new.items ≤ length line.old.items + 16 }
{
    match item_of(set, job, item) {
        Some(Item::Op { object, .. }) => {
            push_text(line, object_at(set, *object).name.as_str().as_bytes());
        }
        Some(Item::Work { .. }) | None => {}
    }
}
