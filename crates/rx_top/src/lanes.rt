//! Having lanes make the operations of a set, and writing what they made.
ghost use Rattle.std.specs.Prelude.{◌≡◌, ◌≤◌, [], ◌∷◌, ◌++◌, map, length, reverse};
ghost use Rattle.rx_io.specs.States.{MayBeCalled};
ghost use Rattle.rx_io.specs.Causes.{Puts};
ghost use Rattle.rx_report.specs.Wordings.{IsWordingOf};
ghost use Rattle.rx_report.specs.LaneLines.{calls_line, entry_line};
ghost use Rattle.rx_set.specs.System.{parts_of};
ghost use Rattle.rx_set.specs.Valid.{IsValid};
ghost use Rattle.rx_lanes.specs.Histories.{HaveSameEnds};
ghost use Rattle.rx_top.specs.declared.left.Left.TheVariants.{Nothing};
ghost use Rattle.rx_top.specs.LaneReport.{history_lines, lanes_report};
ghost use Rattle.rx_top.specs.Outcome.{WritesOneAnswer, lanes_answer};
ghost use Rattle.rx_trace.specs.Report.{first_objects};

use crate::left::Left;
use crate::stops::Stop;
use rx_io::{Failed, Sink, Status, put};
use rx_lanes::{Gate, Run, run_lanes};
use rx_report::{Line, LineBuffer, Wording, calls_line, lanes_line};
use rx_seq::Entry;
use rx_set::TaskSet;
use rx_table::Closed;
use rx_trace::put_objects;
use std::alloc::Global;
use std::thread::Threads;

/// Hands in the line of each entry.
fn put_entries<K: Sink>(
    set: &TaskSet,
    wording: &Wording,
    entries: &[Entry],
    sink: &mut K,
) -> Result<(), Failed>
    requires up { MayBeCalled (K.tells sink.old).failures }
    requires wording { IsWordingOf set.now wording.now }
    ensures { Puts (K.tells sink.old) (K.tells sink.new) result (map (entry_line set.now) entries.now) }
{
    let mut line = LineBuffer::new();
    for entry in entries {
        line.make_entry(set, wording, entry);
        put(sink, line.as_slice())?;
    }
    Ok(())
}

/// Hands in the lines of the objects, and how many entries there are.
fn put_end<K: Sink>(
    set: &TaskSet,
    count: u64,
    closed: &Closed,
    line: &mut Line,
    sink: &mut K,
) -> Result<(), Failed>
    requires up { MayBeCalled (K.tells sink.old).failures }
    requires layout { (closed.now.layout.parts ≡ parts_of set.now) × (closed.now.layout.first ≡ 0) }
    ensures { Puts (K.tells sink.old) (K.tells sink.new) result
        (first_objects set.now closed.now.history (length set.now.objects) ++ calls_line count ∷ []) }
{
    put_objects(set, closed, line, sink)?;
    calls_line(count, line);
    put(sink, line.as_slice())
}

/// Hands in the lines of a history: its entries, the objects after them, as they stand in the closed table, and how many
/// entries there are.
fn put_history<K: Sink>(
    set: &TaskSet,
    wording: &Wording,
    entries: &[Entry],
    closed: &Closed,
    line: &mut Line,
    sink: &mut K,
) -> Result<(), Failed>
    requires up { MayBeCalled (K.tells sink.old).failures }
    requires layout { (closed.now.layout.parts ≡ parts_of set.now) × (closed.now.layout.first ≡ 0) }
    requires ends { HaveSameEnds (parts_of set.now) (reverse entries.now) closed.now.history }
    requires wording { IsWordingOf set.now wording.now }
    ensures { Puts (K.tells sink.old) (K.tells sink.new) result (history_lines set.now (reverse entries.now)) }
{
    put_entries(set, wording, entries, sink)?;
    put_end(set, entries.len() as u64, closed, line, sink)
}

/// Hands in the report of what lanes made: their entries, oldest first, and the objects as they stand in the closed
/// table, which are those after the entries. It takes no memory.
fn write_lanes<K: Sink>(
    set: &TaskSet,
    wording: &Wording,
    workers: u32,
    jobs: u32,
    entries: &[Entry],
    closed: &Closed,
    sink: &mut K,
) -> Result<(), Failed>
    requires up { MayBeCalled (K.tells sink.old).failures }
    requires layout { (closed.now.layout.parts ≡ parts_of set.now) × (closed.now.layout.first ≡ 0) }
    requires ends { HaveSameEnds (parts_of set.now) (reverse entries.now) closed.now.history }
    requires wording { IsWordingOf set.now wording.now }
    ensures { Puts (K.tells sink.old) (K.tells sink.new) result (lanes_report set.now workers jobs (reverse entries.now)) }
{
    let mut line = Line::new();
    lanes_line(workers, jobs, &mut line);
    put(sink, line.as_slice())?;
    put_history(set, wording, entries, closed, &mut line, sink)
}

/// Has lanes make the operations of a set, tells what they made, and leaves their table.
pub(crate) fn share_set<R: Threads + Sync, K: Sink, G: Gate + Sync>(
    rt: &R,
    alloc: Global,
    workers: u32,
    jobs: u32,
    set: &TaskSet,
    sink: &mut K,
    gate: &G,
    left: &mut Left,
) -> Result<Status, Stop>
    requires valid { IsValid set.now }
    requires up { MayBeCalled (K.tells sink.old).failures }
    requires limits { ((1 ≤ workers) × (workers ≤ 16)) × ((1 ≤ jobs) × (jobs ≤ 200)) }
    requires nothing { left.old ≡ Nothing }
    ensures { WritesOneAnswer (λ history. lanes_answer workers jobs history set.now)
        (K.tells sink.old) (K.tells sink.new) left.new result }
{
    let wording = Wording::new(alloc, set)?;
    let Run {
        lists: _,
        merged,
        closed,
    } = run_lanes(rt, alloc, set, workers, jobs, gate)?;
    write_lanes(
        set,
        &wording,
        workers,
        jobs,
        merged.as_slice(),
        &closed,
        sink,
    )?;
    *left = Left::Closed { closed };
    Ok(Status::Done)
}
