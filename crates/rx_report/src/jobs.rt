// The text of a job.
ghost use Rattle.std.specs.Prelude.{◌≡◌, ◌≤◌, ◌+◌, ◌++◌, length, All, IfSome, IfNone};
ghost use Rattle.rx_set.specs.System.{no_task, task_of};
ghost use Rattle.rx_set.specs.Valid.{IsItem};
ghost use Rattle.rx_set.specs.View.{row_of};
ghost use Rattle.rx_report.specs.Lines.{job_text, told};
ghost use Rattle.rx_report.specs.Wordings.{AreWords};

use crate::buffers::{LineBuffer, begin, push_number, push_text};
use crate::wordings::{TaskWords, push_name};
use rx_set::{Job, Task, TaskSet};

/// The task of a job, if the set has it. Each of its items is one of the set, which is valid.
pub(crate) fn task_of(set: &TaskSet, job: Job) -> Option<&Task>
    ensures found { IfSome result (λ task. row_of task.now ≡ task_of set.now job) }
    ensures none { IfNone result (task_of set.now job ≡ no_task) }
    ensures valid { IfSome result (λ task. All (IsItem set.now) task.now.body) }
{
    set.tasks().get(job.task as usize)
}

/// Appends the name of a job's task, a space and the job's number. A name has at most 16 bytes.
#[inline(always)]
pub(crate) fn push_job(set: &TaskSet, words: &[TaskWords], job: Job, line: &mut LineBuffer)
    requires words { AreWords set.now words.now }
    requires room { length line.old.items + 37 ≤ 1024 }
    ensures text { line.new.items ≡ line.old.items ++ job_text set.now job }
    ensures few { length line.new.items ≤ length line.old.items + 37 }
{
    push_name(set, words, job, line);
    push_number(line, job.number);
}

/// Makes it a time, what happens then, and the job that it happens to.
#[inline(always)]
pub(crate) fn begin_told(
    set: &TaskSet,
    words: &[TaskWords],
    at: u64,
    what: &[u8],
    job: Job,
    line: &mut LineBuffer,
)
    requires words { AreWords set.now words.now }
    requires few { length what.now ≤ 20 }
    ensures text { line.new.items ≡ told set.now at what.now job }
    ensures few { length line.new.items ≤ length what.now + 57 }
{
    begin(line, at);
    push_text(line, what);
    push_job(set, words, job, line);
}
