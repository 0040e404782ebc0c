// Whole runs.
ghost use Rattle.rx_lanes.specs.Histories.{HaveSameEnds, HaveSameObjects, IsMade, made_of};
ghost use Rattle.rx_lanes.specs.Runs.{AreKept, AreLists, AreShared, items_of, lists_in, table_of};
ghost use Rattle.rx_merge.specs.Merged.{lists_of as plain_lists, merged};
ghost use Rattle.rx_set.specs.System.{parts_of};
ghost use Rattle.rx_table.specs.Closings.{HasEnded};
ghost use Rattle.std.specs.Prelude.{◌≡◌, ◌≤◌, IfOk, length, reverse};

use crate::answers::Answer;
use crate::gates::Gate;
use crate::lists::lists_of;
use crate::tables::{close, lanes_of, open, room_for};
use crate::threads::run_all;
use rx_merge::laws::merges_are_histories;
use rx_merge::merge;
use rx_seq::{Entry, NoMemory};
use rx_set::TaskSet;
use rx_table::{Closed, Opened};
use std::alloc::Global;
use std::thread::Threads;

/// What a run left: for each task the entries of its calls in order, the merged order of all of them, and the closed table
/// on which they were made.
#[derive(Drop)]
pub struct Run {
    pub lists: Vec<Vec<Entry>>,
    pub merged: Vec<Entry>,
    pub closed: Closed,
}

/// Makes the scripts of all tasks on a new table, each lane those of its tasks.
fn make_all<R: Threads + Sync, G: Gate + Sync>(
    rt: &R,
    alloc: Global,
    set: &TaskSet,
    workers: u32,
    jobs: u32,
    gate: &G,
) -> Result<(Closed, Vec<Vec<Answer>>), NoMemory>
    requires workers { (1 ≤ workers) × (workers ≤ 16) }
    requires jobs { jobs ≤ 200 }
    ensures layout { IfOk result (λ r. r.0.layout ≡ table_of set.now workers) }
    ensures ended { IfOk result (λ r. HasEnded r.0) }
    ensures many { IfOk result (λ r. length r.1.items ≡ workers) }
    ensures kept { IfOk result (λ r. AreKept set.now jobs workers r.0.history (items_of r.1.items)) }
{
    let Opened { shared, seats } = open(alloc, set, workers)?;
    let mut lanes = lanes_of(alloc, set, jobs, workers, seats)?;
    let room = room_for(alloc, workers)?;
    run_all(rt, &shared, gate, set, jobs, workers, lanes.as_mut_slice());
    close(alloc, set, jobs, workers, shared, lanes, room)
}

/// The lists of all tasks and their merged order, from the answers of the lanes.
fn put_together(
    alloc: Global,
    set: &TaskSet,
    workers: u32,
    jobs: u32,
    closed: Closed,
    answers: &[Vec<Answer>],
) -> Result<Run, NoMemory>
    requires limits { (1 ≤ workers) × (jobs ≤ 200) }
    requires layout { closed.layout ≡ table_of set.now workers }
    requires ended { HasEnded closed }
    requires many { length answers.now ≡ workers }
    requires kept { AreKept set.now jobs workers closed.history (items_of answers.now) }
    ensures lists { IfOk result (λ run. AreLists set.now jobs (plain_lists run.lists.items)) }
    ensures closed { IfOk result (λ run. run.closed ≡ closed) }
    ensures lanes { IfOk result (λ run. AreShared set.now workers (plain_lists run.lists.items) run.closed.history) }
    ensures merged { IfOk result (λ run. run.merged.items ≡ reverse (merged (plain_lists run.lists.items))) }
    ensures own { IfOk result (λ run. lists_in set.now (reverse run.merged.items) ≡ plain_lists run.lists.items) }
    ensures made { IfOk result (λ run. IsMade (made_of set.now workers jobs (reverse run.merged.items))) }
    ensures objects { IfOk result (λ run. HaveSameObjects (reverse run.merged.items) run.closed.history) }
    ensures ends { IfOk result (λ run. HaveSameEnds (parts_of set.now) (reverse run.merged.items) run.closed.history) }
{
    merges_are_histories();
    let lists = lists_of(alloc, set, jobs, workers, answers)?;
    let objects = set.objects().len() as u32;
    let merged = merge(alloc, objects, lists.as_slice())?;
    Ok(Run {
        lists,
        merged,
        closed,
    })
}

/// Makes the scripts of all tasks of a set on one shared table of its objects, by 1 to 16 lanes, for 1 to 200 jobs. The
/// callers are the tasks, numbered from 0. The script of a task is the operations of its body, in order, once for each job;
/// work is passed over. A lane makes the whole scripts of its tasks, one after the other, with its own seat: lane w, counted
/// from 0, those of the tasks w, w + workers and so on. Before each operation it passes the gate, with its number and the
/// number of this operation in the lane from 1. The lanes are halved until each part is one lane, and two halves are run by
/// the library's join, one after the other where no thread can be made.
///
/// The lists have each task's calls with their replies and tags. All lists are one legal history, whatever the threads did:
/// they are merged into one order, which has of each task its list, and on each object the entries of the closed table:
/// those that raised its tag in the same order, and between two of them the same that changed nothing. So each object ends
/// with the same tag and in the same state. The words of that table stand for its own history.
///
/// It refuses want of memory alone, and no clause says when. Before the first lane starts it takes the words of the table
/// with its seats, about 2,600 bytes for each lane, which are its machine, and 16 bytes for each operation; after the last
/// one has ended a copy of the words, and for each operation an entry in a list, one in the merged order, and 4 bytes where
/// it raised a tag. Its cost is that of all operations, and of the merged order, which grows with their number times that
/// of the tasks.
pub fn run_lanes<R: Threads + Sync, G: Gate + Sync>(
    rt: &R,
    alloc: Global,
    set: &TaskSet,
    workers: u32,
    jobs: u32,
    gate: &G,
) -> Result<Run, NoMemory>
    requires workers { (1 ≤ workers) × (workers ≤ 16) }
    requires jobs { (1 ≤ jobs) × (jobs ≤ 200) }
    ensures lists { IfOk result (λ run. AreLists set.now jobs (plain_lists run.lists.items)) }
    ensures table { IfOk result (λ run. run.closed.layout ≡ table_of set.now workers) }
    ensures ended { IfOk result (λ run. HasEnded run.closed) }
    ensures lanes { IfOk result (λ run. AreShared set.now workers (plain_lists run.lists.items) run.closed.history) }
    ensures merged { IfOk result (λ run. run.merged.items ≡ reverse (merged (plain_lists run.lists.items))) }
    ensures own { IfOk result (λ run. lists_in set.now (reverse run.merged.items) ≡ plain_lists run.lists.items) }
    ensures made { IfOk result (λ run. IsMade (made_of set.now workers jobs (reverse run.merged.items))) }
    ensures objects { IfOk result (λ run. HaveSameObjects (reverse run.merged.items) run.closed.history) }
    ensures ends { IfOk result (λ run. HaveSameEnds (parts_of set.now) (reverse run.merged.items) run.closed.history) }
{
    let (closed, answers) = make_all(rt, alloc, set, workers, jobs, gate)?;
    put_together(alloc, set, workers, jobs, closed, answers.as_slice())
}
