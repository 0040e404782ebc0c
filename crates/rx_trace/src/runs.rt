//! Running an executive, and writing its schedule.
ghost use Rattle.std.specs.Prelude.{◌≡◌, ◌≤◌, ◌<◌, ◌+◌, ◌^◌, [], ◌∷◌, Some, length, fold, IfOk, OnOk};
ghost use Rattle.rx_io.specs.States.{MayBeCalled};
ghost use Rattle.rx_io.specs.Causes.{Puts};
ghost use Rattle.rx_ledger.specs.Counts.{AreBelow, counted, zeros};
ghost use Rattle.rx_port.specs.Seats.{no_counts};
ghost use Rattle.rx_tick.specs.Banks.{IsBankOf};
ghost use Rattle.rx_tick.specs.Executive.{moment};
ghost use Rattle.rx_slots.specs.Schedule.{slots, slot_at};
ghost use Rattle.rx_slots.specs.Events.{events, events_of, misses};
ghost use Rattle.rx_report.specs.Lines.{total_line};
ghost use Rattle.rx_report.specs.Wordings.{IsWordingOf};
ghost use Rattle.rx_trace.specs.Report.{report, schedule_lines, run_totals, reported_misses};
ghost use Rattle.rx_trace.specs.RunBanks.{IsBankLeft};
ghost use Rattle.rx_trace.specs.Runs.{lines_of, AreCounts, end_lines};

use crate::objects::put_objects;
use crate::verdicts::put_test;
use arrayvec::ArrayVec;
use rx_io::{Failed, Sink, put};
use rx_ledger::{Event, Totals};
use rx_port::Bank;
use rx_report::{Line, LineBuffer, Wording, total_line};
use rx_seq::NoMemory;
use rx_set::TaskSet;
use rx_shape::Layout;
use rx_tick::laws::replies_and_retries_are_told;
use rx_tick::{Executive, MOST_EVENTS, Tick};
use std::alloc::Global;

/// Counts events, and hands in the line of each.
fn put_events<K: Sink>(
    set: &TaskSet,
    wording: &Wording,
    events: &[Event],
    totals: &mut Totals,
    line: &mut LineBuffer,
    sink: &mut K,
) -> Result<(), Failed>
    requires up { MayBeCalled (K.tells sink.old).failures }
    requires few { length events.now ≤ MOST_EVENTS }
    requires small { AreBelow (2 ^ 62) totals.old }
    requires wording { IsWordingOf set.now wording.now }
    ensures puts { Puts (K.tells sink.old) (K.tells sink.new) result (lines_of set.now events.now) }
    ensures totals { OnOk result (totals.new ≡ fold counted totals.old events.now) }
{
    for event in events {
        totals.count(event);
        line.make_event(set, wording, event);
        put(sink, line.as_slice())?;
    }
    Ok(())
}

/// Hands in the line of the totals: how many ticks there were and how many of them were idle, and how many events of each
/// kind, as `rx_report::total_line` makes it.
///
/// `line` is room to make it in, whatever it holds. At `Failed` the sink failed in this call, and a front of the line was
/// taken. It takes no memory. Wants a sink whose latest call did not fail, with a count of faults below 2^63.
pub fn put_totals<K: Sink>(totals: &Totals, line: &mut Line, sink: &mut K) -> Result<(), Failed>
    requires { MayBeCalled (K.tells sink.old).failures }
    ensures { Puts (K.tells sink.old) (K.tells sink.new) result (total_line totals.now ∷ []) }
{
    total_line(totals, line);
    put(sink, line.as_slice())
}

/// Makes the next slot, counts it, and hands in the lines of its events.
fn write_slot<K: Sink>(
    set: &TaskSet,
    wording: &Wording,
    executive: &mut Executive,
    tick: &mut Tick,
    totals: &mut Totals,
    line: &mut LineBuffer,
    sink: &mut K,
) -> Result<(), Failed>
    requires up { MayBeCalled (K.tells sink.old).failures }
    requires system { executive.old.system ≡ set.now }
    requires time { executive.old.time < 1000000 }
    requires counts { AreCounts set.now executive.old.time totals.old }
    requires wording { IsWordingOf set.now wording.now }
    ensures next { executive.new ≡ moment set.now (executive.old.time + 1) executive.new.bank }
    ensures puts { Puts (K.tells sink.old) (K.tells sink.new) result (lines_of set.now
        (events_of set.now (slots set.now executive.old.time) (slot_at set.now executive.old.time))) }
    ensures counts { OnOk result (AreCounts set.now (executive.old.time + 1) totals.new) }
{
    executive.tick(tick);
    totals.slot(tick.slot.is_some());
    if tick.events.is_empty() {
        return Ok(());
    }
    put_events(set, wording, tick.events.as_slice(), totals, line, sink)
}

/// Makes the slots before the last time, and hands in the lines of their events.
fn write_slots<K: Sink>(
    set: &TaskSet,
    wording: &Wording,
    executive: &mut Executive,
    ticks: u64,
    tick: &mut Tick,
    totals: &mut Totals,
    line: &mut LineBuffer,
    sink: &mut K,
) -> Result<(), Failed>
    requires up { MayBeCalled (K.tells sink.old).failures }
    requires ticks { ticks ≤ 1000000 }
    requires start { executive.old ≡ moment set.now 0 executive.old.bank }
    requires zeros { totals.old ≡ zeros }
    requires wording { IsWordingOf set.now wording.now }
    ensures end { OnOk result (executive.new ≡ moment set.now ticks executive.new.bank) }
    ensures puts { Puts (K.tells sink.old) (K.tells sink.new) result (lines_of set.now (events set.now ticks)) }
    ensures counts { OnOk result (AreCounts set.now ticks totals.new) }
{
    while executive.now() < ticks {
        write_slot(set, wording, executive, tick, totals, line, sink)?;
    }
    Ok(())
}

/// Hands in the lines of the last misses, of the objects and of the totals.
fn write_end<K: Sink>(
    set: &TaskSet,
    wording: &Wording,
    bank: &Bank,
    ticks: u64,
    late: &[Event],
    totals: &mut Totals,
    buffer: &mut LineBuffer,
    line: &mut Line,
    sink: &mut K,
) -> Result<(), Failed>
    requires up { MayBeCalled (K.tells sink.old).failures }
    requires bank { IsBankOf set.now (slots set.now ticks) bank.now }
    requires ticks { ticks ≤ 1000000 }
    requires few { length late.now ≤ MOST_EVENTS }
    requires late { late.now ≡ misses set.now (slots set.now ticks) }
    requires counts { AreCounts set.now ticks totals.old }
    requires wording { IsWordingOf set.now wording.now }
    ensures puts { Puts (K.tells sink.old) (K.tells sink.new) result (end_lines set.now ticks) }
    ensures totals { OnOk result (totals.new ≡ run_totals set.now ticks) }
{
    put_events(set, wording, late, totals, buffer, sink)?;
    put_objects(set, bank, line, sink)?;
    put_totals(totals, line, sink)
}

/// What a run leaves.
#[derive(Drop)]
pub struct Ended {
    /// How many misses its report tells.
    pub missed: u64,
    /// The bank on which it made its attempts: it stands for the history of the schedule.
    pub bank: Bank,
}

/// Runs an executive from its start for so many slots, hands in the lines of its schedule, and answers how many misses
/// they tell, with the bank.
fn write_schedule<K: Sink>(
    set: &TaskSet,
    wording: &Wording,
    mut executive: Executive,
    ticks: u64,
    line: &mut Line,
    sink: &mut K,
) -> Result<Ended, Failed>
    requires up { MayBeCalled (K.tells sink.old).failures }
    requires ticks { ticks ≤ 1000000 }
    requires start { executive ≡ moment set.now 0 executive.bank }
    requires wording { IsWordingOf set.now wording.now }
    ensures puts { Puts (K.tells sink.old) (K.tells sink.new) result (schedule_lines set.now ticks) }
    ensures misses { IfOk result (λ ended. ended.missed ≡ reported_misses set.now ticks) }
    ensures bank { IfOk result (λ ended. IsBankLeft set.now ticks ended.bank) }
{
    let mut tick = Tick::new();
    let mut totals = Totals::new();
    let mut buffer = LineBuffer::new();
    write_slots(
        set,
        wording,
        &mut executive,
        ticks,
        &mut tick,
        &mut totals,
        &mut buffer,
        sink,
    )?;
    executive.late(&mut tick);
    replies_and_retries_are_told();
    let bank = executive.into_bank();
    write_end(
        set,
        wording,
        &bank,
        ticks,
        tick.events.as_slice(),
        &mut totals,
        &mut buffer,
        line,
        sink,
    )?;
    Ok(Ended {
        missed: totals.missed,
        bank,
    })
}

/// Hands in the report of a run: the line of the set's admission test, and then, while it runs `executive` from its start
/// for so many slots, a line for each event, for each miss at the time `ticks`, for each object and for the totals.
/// Answers how many misses they tell, with the bank.
///
/// A slot is one tick. Each line is handed in by a call of the sink of its own, and all that the sink left of it by
/// another. At `Failed` the sink failed in this call, which is its last one, and a front of the report was taken; the bank
/// is gone. It takes no memory, and the time of `put_test`, for each slot that of `Executive::tick` and of its lines, and
/// that of `put_objects`. Wants a wording of this set, an executive of it before its first slot, as `new_executive` makes
/// it, at most 1,000,000 ticks, and a sink whose latest call did not fail, with a count of faults below 2^63.
pub fn write_run<K: Sink>(
    set: &TaskSet,
    wording: &Wording,
    executive: Executive,
    ticks: u64,
    sink: &mut K,
) -> Result<Ended, Failed>
    requires up { MayBeCalled (K.tells sink.old).failures }
    requires ticks { ticks ≤ 1000000 }
    requires start { executive ≡ moment set.now 0 executive.bank }
    requires wording { IsWordingOf set.now wording.now }
    ensures puts { Puts (K.tells sink.old) (K.tells sink.new) result (report set.now ticks) }
    ensures misses { IfOk result (λ ended. ended.missed ≡ reported_misses set.now ticks) }
    ensures bank { IfOk result (λ ended. IsBankLeft set.now ticks ended.bank) }
{
    let mut line = Line::new();
    put_test(set, &mut line, sink)?;
    write_schedule(set, wording, executive, ticks, &mut line, sink)
}

/// The bank of a set before its first slot: its objects with the tag 0, and a seat for each task.
fn new_bank(alloc: Global, set: &TaskSet) -> Result<Bank, NoMemory>
    ensures bank { IfOk result (IsBankOf set.now []) }
    ensures counts { IfOk result (λ bank. bank.core.counts ≡ Some no_counts) }
{
    let mut parts = ArrayVec::new();
    set.parts(&mut parts);
    let layout = Layout::new(alloc, parts.as_slice(), set.tasks().len() as u32, 0)?;
    Bank::new(alloc, layout)
}

/// The executive of a set before its first slot, on a new bank that has the set's objects with the tag 0, a seat for each
/// task, and no events so far.
///
/// It takes memory for each word of the bank, and for a state and a machine a task; at `NoMemory` there was none, and
/// nothing is kept. The time grows with the number of words.
pub fn new_executive<'s>(alloc: Global, set: &'s TaskSet) -> Result<Executive<'s>, NoMemory>
    ensures start { IfOk result (λ executive. executive ≡ moment set.now 0 executive.bank) }
    ensures counts { IfOk result (λ executive. executive.bank.core.counts ≡ Some no_counts) }
{
    let bank = new_bank(alloc, set)?;
    Executive::new(alloc, set, bank)
}
