// The entries of each task, from its script and the answers of its lane.
ghost use Rattle.rx_set.specs.Operations.{Asked, operations_of, repeated, script_of};
ghost use Rattle.rx_lanes.specs.Lists.{IsTold};
ghost use Rattle.rx_lanes.specs.Runs.{answers_at, items_of};
ghost use Rattle.rx_lanes.specs.Scripts.{calls_to, lane_script};
ghost use Rattle.rx_lanes.specs.declared.answers.Answer.{Answer as AnAnswer};
ghost use Rattle.rx_merge.specs.Merged.{list_at, lists_of as plain_lists};
ghost use Rattle.std.specs.Prelude.{ℕ, ◌≡◌, ◌+◌, ◌≤◌, ◌<◌, ◌%◌, ◌++◌, List, IfOk, drop, take, length, vec_capacity};

use crate::answers::Answer;
use crate::scripts::{count_calls, count_script};
use rx_seq::{Entry, NoMemory};
use rx_set::{Item, TaskSet};
use std::alloc::Global;

/// Adds the entries of one job.
fn add_job(list: &mut Vec<Entry>, caller: u32, items: &[Item], answers: &[Answer])
    requires answers { length list.old.items + length (operations_of items.now) ≤ length answers.now }
    requires few { length answers.now ≤ 12800 }
    requires room { length answers.now ≤ vec_capacity list.old }
    ensures many { length list.new.items ≡ length list.old.items + length (operations_of items.now) }
    ensures room { vec_capacity list.new ≡ vec_capacity list.old }
    ensures told { (script : List Asked) → IsTold caller script (take (length list.old.items) answers.now) list.old.items
        → IsTold caller (script ++ operations_of items.now) (take (length list.new.items) answers.now) list.new.items }
{
    for item in items {
        match *item {
            Item::Work { n: _ } => {}
            Item::Op { object, call } => {
                let Answer { reply, tag } = answers[list.len()];
                list.push_reserved(Entry {
                    caller,
                    index: list.len() as u64 + 1,
                    object,
                    call,
                    reply,
                    tag,
                });
            }
        }
    }
}

/// The entries of a task with these items, made in so many jobs, with these answers.
fn list_of(
    alloc: Global,
    caller: u32,
    items: &[Item],
    jobs: u32,
    answers: &[Answer],
) -> Result<Vec<Entry>, NoMemory>
    requires many { length answers.now ≡ length (repeated jobs (operations_of items.now)) }
    requires few { length answers.now ≤ 12800 }
    ensures { IfOk result (λ list. IsTold caller (repeated jobs (operations_of items.now)) answers.now list.items) }
{
    let mut list = match Vec::with_capacity(alloc, answers.len()) {
        Ok(list) => list,
        Err(_) => return Err(NoMemory),
    };
    for _ in 0..jobs {
        add_job(&mut list, caller, items, answers);
    }
    Ok(list)
}

/// The answers of a task among those of its lane.
fn answers_of<'a>(
    set: &TaskSet,
    jobs: u32,
    workers: u32,
    task: usize,
    answers: &'a [Vec<Answer>],
) -> &'a [Answer]
    requires task { task < length set.now.tasks }
    requires limits { (1 ≤ workers) × (jobs ≤ 200) }
    requires many { length answers.now ≡ workers }
    requires each { (lane : ℕ) → lane < workers → length (answers_at (items_of answers.now) lane) ≡ length (lane_script set.now jobs workers lane) }
    ensures value { result.now ≡ take (length (script_of set.now jobs task)) (drop (length (calls_to set.now jobs workers (task % workers) task)) (answers_at (items_of answers.now) (task % workers))) }
    ensures many { length result.now ≡ length (script_of set.now jobs task) }
    ensures few { length result.now ≤ 12800 }
{
    let lane = task % workers as usize;
    let start = count_calls(set, jobs, workers, lane as u32, task);
    let (_, rest) = answers[lane].as_slice().split_at(start);
    let (mine, _) = rest.split_at(count_script(set, jobs, task));
    mine
}

/// The entries of each task.
pub fn lists_of(
    alloc: Global,
    set: &TaskSet,
    jobs: u32,
    workers: u32,
    answers: &[Vec<Answer>],
) -> Result<Vec<Vec<Entry>>, NoMemory>
    requires limits { (1 ≤ workers) × (jobs ≤ 200) }
    requires many { length answers.now ≡ workers }
    requires each { (lane : ℕ) → lane < workers → length (answers_at (items_of answers.now) lane) ≡ length (lane_script set.now jobs workers lane) }
    ensures many { IfOk result (λ lists. length lists.items ≡ length set.now.tasks) }
    ensures each { IfOk result (λ lists. (task : ℕ) → task < length set.now.tasks → IsTold task (script_of set.now jobs task)
        (take (length (script_of set.now jobs task)) (drop (length (calls_to set.now jobs workers (task % workers) task)) (answers_at (items_of answers.now) (task % workers))))
        (list_at (plain_lists lists.items) task)) }
{
    let tasks = set.tasks();
    let mut lists = Vec::new(alloc);
    for task in 0..tasks.len() {
        let told = answers_of(set, jobs, workers, task, answers);
        let list = list_of(alloc, task as u32, tasks[task].body.items(), jobs, told)?;
        match lists.push(list) {
            Ok(()) => {}
            Err(_) => return Err(NoMemory),
        }
    }
    Ok(lists)
}
