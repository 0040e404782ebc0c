// Texts of lines that stay the same for a whole run.
ghost use Rattle.rx_report.specs.Wordings.{AreRequests, AreWords, AreWordsOf, IsText, IsWordingOf, request_text};
ghost use Rattle.rx_set.specs.System.{task_of};
ghost use Rattle.std.specs.Prelude.{ℕ, ◌≡◌, ◌≤◌, ◌<◌, ◌+◌, ◌++◌, codes, [], ◌∷◌, ◌-◌, length, slice_get, IfOk, OnOk, IfSome, Some};

use crate::buffers::{LineBuffer, push_long, push_short, push_text};
use crate::items::push_item;
use crate::jobs::task_of;
use crate::lines::push_spaced;
use rx_seq::NoMemory;
use rx_set::{Job, TaskSet};
use rx_text::place_text;
use std::alloc::Global;

/// A text of at most 32 bytes.
#[derive(Clone, Copy)]
pub(crate) struct Short {
    pub bytes: [u8; 32],
    pub len: usize,
}

/// A text of at most 192 bytes.
#[derive(Clone, Copy)]
pub(crate) struct Long {
    pub bytes: [u8; 192],
    pub len: usize,
}

/// The name of a task and a space, and for each item of its body the item's number and what it asks for.
#[derive(Drop)]
pub(crate) struct TaskWords {
    pub name: Short,
    pub requests: Vec<Long>,
}

/// The texts of a set's lines that stay the same: for each task its name, and for each of its items the number and what it
/// asks for. Lines that are made with it are the same, and cost less. It has some 40 bytes a task and 200 an item, so below
/// a mebibyte for the largest set.
#[derive(Drop)]
pub struct Wording {
    tasks: Vec<TaskWords>,
}

/// The text of a line of at most 32 bytes.
fn short_of(line: &LineBuffer) -> Short
    requires { length line.now.items ≤ 32 }
    ensures { IsText 32 result.bytes result.len line.now.items }
{
    let mut bytes = [0; 32];
    let len = place_text(&mut bytes, 0, line.as_slice());
    Short { bytes, len }
}

/// The text of a line of at most 192 bytes.
fn long_of(line: &LineBuffer) -> Long
    requires { length line.now.items ≤ 192 }
    ensures { IsText 192 result.bytes result.len line.now.items }
{
    let mut bytes = [0; 192];
    let len = place_text(&mut bytes, 0, line.as_slice());
    Long { bytes, len }
}

/// Appends the name of a job's task and a space, from the set. A name has at most 16 bytes.
#[inline(never)]
fn push_set_name(set: &TaskSet, job: Job, line: &mut LineBuffer)
    requires { length line.old.items + 17 ≤ 1024 }
    ensures text { line.new.items ≡ line.old.items ++ (task_of set.now job).name ++ codes " " }
    ensures few { length line.new.items ≤ length line.old.items + 17 }
{
    if let Some(task) = task_of(set, job) {
        push_text(line, task.name.as_str().as_bytes());
    }
    push_text(line, b" ");
}

/// Appends the number of a job's item, what it asks for, and the arrow before its reply, from the set.
#[inline(never)]
fn push_set_request(set: &TaskSet, job: Job, item: u32, line: &mut LineBuffer)
    requires { length line.old.items + 181 ≤ 1024 }
    ensures text { line.new.items ≡ line.old.items ++ request_text set.now job item }
    ensures few { length line.new.items ≤ length line.old.items + 181 }
{
    push_spaced(line, u64::from(item));
    push_text(line, b" ");
    push_item(set, job, item, line);
    push_text(line, b" -> ");
}

/// Appends the name of a job's task and a space: the words that are kept of the task, and else from the set.
#[inline(always)]
pub(crate) fn push_name(set: &TaskSet, words: &[TaskWords], job: Job, line: &mut LineBuffer)
    requires words { AreWords set.now words.now }
    requires room { length line.old.items + 32 ≤ 1024 }
    ensures text { line.new.items ≡ line.old.items ++ (task_of set.now job).name ++ codes " " }
    ensures few { length line.new.items ≤ length line.old.items + 17 }
{
    match words.get(job.task as usize) {
        Some(one) => push_short(line, &one.name),
        None => push_set_name(set, job, line),
    }
}

/// The words that are kept of a job's item, by its number from 1.
#[inline(always)]
fn request_of(words: &[TaskWords], job: Job, item: u32) -> Option<&Long>
    ensures { IfSome result (λ text. (one : TaskWords) × (slice_get words.now job.task ≡ Some one) × (1 ≤ item) × (slice_get one.requests.items (item - 1) ≡ Some text.now)) }
{
    if item == 0 {
        return None;
    }
    match words.get(job.task as usize) {
        Some(one) => one.requests.get(item as usize - 1),
        None => None,
    }
}

/// Appends the number of a job's item, what it asks for, and the arrow before its reply: the words that are kept of the
/// item, and else from the set.
#[inline(always)]
pub(crate) fn push_request(
    set: &TaskSet,
    words: &[TaskWords],
    job: Job,
    item: u32,
    line: &mut LineBuffer,
)
    requires words { AreWords set.now words.now }
    requires room { length line.old.items + 192 ≤ 1024 }
    ensures text { line.new.items ≡ line.old.items ++ request_text set.now job item }
    ensures few { length line.new.items ≤ length line.old.items + 181 }
{
    match request_of(words, job, item) {
        Some(text) => push_long(line, text),
        None => push_set_request(set, job, item, line),
    }
}

/// Keeps one more text.
fn add_request(requests: &mut Vec<Long>, text: Long) -> Result<(), NoMemory>
    ensures { OnOk result (requests.new.items ≡ requests.old.items ++ text ∷ []) }
{
    match requests.push(text) {
        Ok(()) => Ok(()),
        Err(_) => Err(NoMemory),
    }
}

/// The words of the items of a task.
fn requests_of(alloc: Global, set: &TaskSet, task: u32, count: usize) -> Result<Vec<Long>, NoMemory>
    requires { count ≤ 64 }
    ensures { IfOk result (λ requests. AreRequests set.now task requests.items) }
{
    let job = Job { task, number: 0 };
    let mut requests = match Vec::with_capacity(alloc, count) {
        Ok(requests) => requests,
        Err(_) => return Err(NoMemory),
    };
    let mut line = LineBuffer::new();
    for place in 0..count {
        line.clear();
        push_set_request(set, job, place as u32 + 1, &mut line);
        add_request(&mut requests, long_of(&line))?;
    }
    Ok(requests)
}

/// The words of a task.
fn words_of(alloc: Global, set: &TaskSet, task: u32, count: usize) -> Result<TaskWords, NoMemory>
    requires { count ≤ 64 }
    ensures { IfOk result (λ words. AreWordsOf set.now task words) }
{
    let mut line = LineBuffer::new();
    push_set_name(set, Job { task, number: 0 }, &mut line);
    let requests = requests_of(alloc, set, task, count)?;
    Ok(TaskWords {
        name: short_of(&line),
        requests,
    })
}

/// Keeps the words of one more task.
fn add_words(tasks: &mut Vec<TaskWords>, words: TaskWords) -> Result<(), NoMemory>
    ensures { OnOk result (tasks.new.items ≡ tasks.old.items ++ words ∷ []) }
{
    match tasks.push(words) {
        Ok(()) => Ok(()),
        Err(_) => Err(NoMemory),
    }
}

impl Wording {
    /// The wording of a set. It takes memory, some 40 bytes a task and 200 an item, and answers `NoMemory` where there is
    /// none. Its cost is that of the texts.
    pub fn new(alloc: Global, set: &TaskSet) -> Result<Wording, NoMemory>
        ensures { IfOk result (IsWordingOf set.now) }
    {
        let mut tasks = match Vec::with_capacity(alloc, set.tasks().len()) {
            Ok(tasks) => tasks,
            Err(_) => return Err(NoMemory),
        };
        for task in 0..set.tasks().len() {
            let count = set.tasks()[task].body.items().len();
            add_words(&mut tasks, words_of(alloc, set, task as u32, count)?)?;
        }
        Ok(Wording { tasks })
    }

    /// The words of the tasks.
    #[inline(always)]
    pub(crate) fn words(&self) -> &[TaskWords]
        ensures { result.now ≡ self.now.tasks.items }
    {
        self.tasks.as_slice()
    }
}
