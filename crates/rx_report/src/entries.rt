// The lines of what the tasks did on threads.
ghost use Rattle.std.specs.Prelude.{◌≡◌, ◌≤◌, ◌+◌, ◌++◌, length};
ghost use Rattle.rx_report.specs.LaneLines.{calls_line, entry_item, entry_job, entry_line, entry_text, item_after, lanes_line, operations};
ghost use Rattle.rx_report.specs.Wordings.{AreWords, IsWordingOf};
ghost use Rattle.rx_set.specs.System.{task_at};

use crate::buffers::{LineBuffer, push_text};
use crate::jobs::push_job;
use crate::lines::{Line, push_field};
use crate::replies::push_reply;
use crate::wordings::{TaskWords, Wording, push_request};
use rx_seq::Entry;
use rx_set::{Item, Job, TaskSet};

/// The number, from 1, of the item that is the operation of this number, from 0.
fn item_after(number: u64, items: &[Item]) -> u32
    requires { length items.now ≤ 64 }
    ensures { result ≡ item_after number items.now }
{
    let mut left = number;
    let mut place = 1;
    for item in items {
        match item {
            Item::Work { n: _ } => {}
            Item::Op { object: _, call: _ } => {
                if left == 0 {
                    return place;
                }
                left -= 1;
            }
        }
        place += 1;
    }
    place
}

/// How many operations a job of a task makes, and the items of its body. Where the set has no such task, these are none.
fn body_of(set: &TaskSet, task: u32) -> (u64, &[Item])
    ensures operations { result.0 ≡ operations set.now task }
    ensures items { result.1.now ≡ (task_at set.now task).items }
    ensures few { length result.1.now ≤ 64 }
{
    match set.tasks().get(task as usize) {
        Some(task) => ((task.body.operations() as u64).max(1), task.body.items()),
        None => (1, &[]),
    }
}

/// The job that made an entry, and the number of its item.
fn made_by(set: &TaskSet, entry: &Entry) -> (Job, u32)
    ensures job { result.0 ≡ entry_job set.now entry.now }
    ensures item { result.1 ≡ entry_item set.now entry.now }
{
    let (operations, items) = body_of(set, entry.caller);
    let before = entry.index.saturating_sub(1);
    let job = Job {
        task: entry.caller,
        number: before / operations + 1,
    };
    (job, item_after(before % operations, items))
}

/// Appends what an entry tells, which is at most 282 bytes.
#[inline(always)]
fn push_entry(set: &TaskSet, words: &[TaskWords], entry: &Entry, line: &mut LineBuffer)
    requires words { AreWords set.now words.now }
    requires room { length line.old.items + 282 ≤ 1024 }
    ensures text { line.new.items ≡ line.old.items ++ entry_text set.now entry.now }
    ensures few { length line.new.items ≤ length line.old.items + 282 }
{
    let (job, item) = made_by(set, entry);
    push_job(set, words, job, line);
    push_request(set, words, job, item, line);
    push_reply(line, entry.reply);
    push_field(line, b" tag", entry.tag);
}

/// Makes it the line of an entry, with its line feed.
#[inline(always)]
fn make_line(set: &TaskSet, words: &[TaskWords], entry: &Entry, line: &mut LineBuffer)
    requires { AreWords set.now words.now }
    ensures { line.new.items ≡ entry_line set.now entry.now }
{
    line.clear();
    push_entry(set, words, entry, line);
    push_text(line, b"\n");
}

impl LineBuffer {
    /// Makes it the line of an entry, as `entry_line` does, with the set's wording. It takes no memory, and its cost is that
    /// of the bytes written and of looking at each item of the body.
    pub fn make_entry(&mut self, set: &TaskSet, wording: &Wording, entry: &Entry)
        requires { IsWordingOf set.now wording.now }
        ensures { self.new.items ≡ entry_line set.now entry.now }
    {
        make_line(set, wording.words(), entry, self);
    }
}

/// Makes `out` the first line of what several lanes did, with its line feed: `lanes W jobs J`, where W is how many lanes
/// there were, and J how many jobs each task made. What stood in `out` is gone. It takes no memory, and its cost is that
/// of the bytes written.
pub fn lanes_line(workers: u32, jobs: u32, out: &mut Line)
    ensures { out.new.items ≡ lanes_line workers jobs }
{
    let mut line = LineBuffer::new();
    push_field(&mut line, b"lanes", u64::from(workers));
    push_field(&mut line, b" jobs", u64::from(jobs));
    push_text(&mut line, b"\n");
    line.copy_to(out);
}

/// Makes `out` the line of an entry whose caller is a task of the set, with its line feed: `T J I C -> Y tag G`, the name
/// of the task, the number of the job, that of the item and what it asks for, the reply, and the object's tag after it.
/// What stood in `out` is gone. The job and the item follow from the entry's index, which counts the operations of all
/// jobs of the task from 1: each job makes those of its body in order.
///
/// It can be asked of every entry: the text of a task that the set has not is empty, so is that of an item where the body
/// has no operation, and index 0 stands for 1. It takes no memory, and its cost is that of the bytes written and of
/// looking at each item of the body.
pub fn entry_line(set: &TaskSet, entry: &Entry, out: &mut Line)
    ensures { out.new.items ≡ entry_line set.now entry.now }
{
    let mut line = LineBuffer::new();
    make_line(set, &[], entry, &mut line);
    line.copy_to(out);
}

/// Makes `out` the last line of what several lanes did, with its line feed: `total calls N`. What stood in `out` is gone.
/// It takes no memory, and its cost is that of the bytes written.
pub fn calls_line(count: u64, out: &mut Line)
    ensures { out.new.items ≡ calls_line count }
{
    let mut line = LineBuffer::new();
    push_field(&mut line, b"total calls", count);
    push_text(&mut line, b"\n");
    line.copy_to(out);
}
