// The line of an event.
ghost use Rattle.std.specs.Prelude.{◌≡◌, ◌≤◌, ◌+◌, ◌++◌, length};
ghost use Rattle.rx_report.specs.Lines.{event_line, event_text};
ghost use Rattle.rx_report.specs.Wordings.{AreWords, IsWordingOf};

use crate::buffers::{LineBuffer, push_text};
use crate::items::push_object;
use crate::jobs::{begin_told, push_job};
use crate::lines::{Line, push_field, push_spaced};
use crate::replies::push_reply;
use crate::wordings::{TaskWords, Wording, push_request};
use rx_ledger::Event;
use rx_set::TaskSet;

/// Makes it what an event tells, which is at most 298 bytes.
#[inline(always)]
fn begin_event(set: &TaskSet, words: &[TaskWords], event: &Event, line: &mut LineBuffer)
    requires { AreWords set.now words.now }
    ensures text { line.new.items ≡ event_text set.now event.now }
    ensures few { length line.new.items ≤ 298 }
{
    match *event {
        Event::Miss { at, job } => begin_told(set, words, at, b" miss ", job, line),
        Event::Release { at, job } => begin_told(set, words, at, b" release ", job, line),
        Event::Preempt { at, job, by } => {
            begin_told(set, words, at, b" preempt ", job, line);
            push_text(line, b" by ");
            push_job(set, words, by, line);
        }
        Event::Reply {
            at,
            job,
            item,
            reply,
            tag,
            ..
        } => {
            begin_told(set, words, at, b" reply ", job, line);
            push_request(set, words, job, item, line);
            push_reply(line, reply);
            push_field(line, b" tag", tag);
        }
        Event::Retry {
            at,
            job,
            item,
            expected,
            found,
            ..
        } => {
            begin_told(set, words, at, b" retry ", job, line);
            push_spaced(line, u64::from(item));
            push_text(line, b" ");
            push_object(set, job, item, line);
            push_field(line, b" tag", expected);
            push_field(line, b" now", found);
        }
        Event::Finish { at, job } => begin_told(set, words, at, b" finish ", job, line),
    }
}

/// Makes it the line of an event, with its line feed.
#[inline(always)]
fn make_line(set: &TaskSet, words: &[TaskWords], event: &Event, line: &mut LineBuffer)
    requires { AreWords set.now words.now }
    ensures { line.new.items ≡ event_line set.now event.now }
{
    begin_event(set, words, event, line);
    push_text(line, b"\n");
}

impl LineBuffer {
    /// Makes it the line of an event, as `event_line` does, with the set's wording. It takes no memory, and its cost is that
    /// of the bytes written.
    #[inline(always)]
    pub fn make_event(&mut self, set: &TaskSet, wording: &Wording, event: &Event)
        requires { IsWordingOf set.now wording.now }
        ensures { self.new.items ≡ event_line set.now event.now }
    {
        make_line(set, wording.words(), event, self);
    }
}

/// Makes `out` the line of an event, with its line feed. What stood in `out` is gone. `T J` is the name of a task and
/// the number of a job, times are in ticks, and items are numbered from 1:
///
/// - `N miss T J`, `N release T J` and `N finish T J`,
/// - `N preempt T J by T J`, the preempted job first,
/// - `N reply T J I C -> Y tag G`: the item and what it asks for, the reply, and the object's tag after it,
/// - `N retry T J I O tag E now F`: the item and its object, the tag that was expected, and the one that was found.
///
/// It can be asked of every event: the text of a task or an item that the set has not is empty, and so is the object of an
/// item of work, and item 0 stands for item 1. It takes no memory, and its cost is that of the bytes written.
pub fn event_line(set: &TaskSet, event: &Event, out: &mut Line)
    ensures { out.new.items ≡ event_line set.now event.now }
{
    let mut line = LineBuffer::new();
    make_line(set, &[], event, &mut line);
    line.copy_to(out);
}
