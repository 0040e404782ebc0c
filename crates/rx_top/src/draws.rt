//! Drawing a set and running it, and writing what is told of its intervals.
ghost use Rattle.std.specs.Prelude.{ℕ, ◌≡◌, ◌≤◌, ◌<◌, ◌+◌, ◌^◌, ◌++◌, [], ◌∷◌, length, fold, IfOk, OnOk};
ghost use Rattle.std.specs.List.{All};
ghost use Rattle.rx_io.specs.States.{MayBeCalled};
ghost use Rattle.rx_io.specs.Causes.{Puts};
ghost use Rattle.rx_ledger.specs.Counts.{AreBelow, counted, zeros};
ghost use Rattle.rx_ledger.specs.Ledgers.{time_of};
ghost use Rattle.rx_tick.specs.Executive.{moment};
ghost use Rattle.rx_top.specs.declared.left.Left.TheVariants.{Nothing};
ghost use Rattle.rx_top.specs.Outcome.{WritesAnswer, draw_answer};
ghost use Rattle.rx_top.specs.Drawn.{drawn_report, first_windows, window_line_after, window_report};
ghost use Rattle.rx_trace.specs.RunBanks.{IsBankLeft};
ghost use Rattle.rx_top.specs.Noted.{AreNoted, IsRun};

use crate::left::Left;
use crate::stops::Stop;
use rx_io::{Failed, Sink, Status, put};
use rx_ledger::{Event, Ledger, Totals};
use rx_port::Bank;
use rx_report::{Line, window_line};
use rx_seq::NoMemory;
use rx_set::{TaskSet, generate};
use rx_tick::laws::{events_have_their_time, replies_and_retries_are_told};
use rx_tick::{Executive, MOST_EVENTS, Tick};
use rx_trace::{new_executive, put_objects, put_test, put_totals};
use std::alloc::Global;

// How many ticks an interval has, and how many intervals there are.
const WINDOW_TICKS: u64 = 10_000;

const WINDOWS: u64 = 10;

/// Notes the events of one time, and counts them.
fn note_events(
    events: &[Event],
    now: u64,
    ledger: &mut Ledger,
    totals: &mut Totals,
) -> Result<(), NoMemory>
    requires few { length events.now ≤ MOST_EVENTS }
    requires small { AreBelow (2 ^ 62) totals.old }
    requires times { All (λ event. time_of event ≡ now) events.now }
    requires earlier { All (λ event. time_of event ≤ now) ledger.old }
    ensures noted { OnOk result (ledger.new ≡ ledger.old ++ events.now) }
    ensures totals { OnOk result (totals.new ≡ fold counted totals.old events.now) }
{
    for event in events {
        totals.count(event);
        ledger.push(*event)?;
    }
    Ok(())
}

/// Makes the next slot, counts it, and notes its events.
fn note_slot(
    set: &TaskSet,
    executive: &mut Executive,
    tick: &mut Tick,
    ledger: &mut Ledger,
    totals: &mut Totals,
) -> Result<(), NoMemory>
    requires system { executive.old.system ≡ set.now }
    requires time { executive.old.time < 1000000 }
    requires noted { AreNoted set.now executive.old.time ledger.old totals.old }
    ensures next { executive.new ≡ moment set.now (executive.old.time + 1) executive.new.bank }
    ensures noted { OnOk result (AreNoted set.now (executive.old.time + 1) ledger.new totals.new) }
{
    events_have_their_time();
    let now = executive.now();
    executive.tick(tick);
    totals.slot(tick.slot.is_some());
    note_events(tick.events.as_slice(), now, ledger, totals)
}

/// Makes the slots before the last time, and notes their events.
fn note_slots(
    set: &TaskSet,
    executive: &mut Executive,
    ticks: u64,
    tick: &mut Tick,
    ledger: &mut Ledger,
    totals: &mut Totals,
) -> Result<(), NoMemory>
    requires ticks { ticks ≤ 1000000 }
    requires start { executive.old ≡ moment set.now 0 executive.old.bank }
    requires empty { ledger.old ≡ [] }
    requires zeros { totals.old ≡ zeros }
    ensures end { OnOk result (executive.new ≡ moment set.now ticks executive.new.bank) }
    ensures noted { OnOk result (AreNoted set.now ticks ledger.new totals.new) }
{
    while executive.now() < ticks {
        note_slot(set, executive, tick, ledger, totals)?;
    }
    Ok(())
}

/// What is noted of a run: its events, their totals, and the bank on which the attempts were made.
#[derive(Drop)]
struct Noted {
    ledger: Ledger,
    totals: Totals,
    bank: Bank,
}

/// Runs an executive from its start for so many slots, and notes all events and the misses of the last time.
fn note_run(
    alloc: Global,
    set: &TaskSet,
    mut executive: Executive,
    ticks: u64,
) -> Result<Noted, NoMemory>
    requires ticks { ticks ≤ 1000000 }
    requires start { executive ≡ moment set.now 0 executive.bank }
    ensures run { IfOk result (λ run. IsRun set.now ticks run.ledger run.totals run.bank) }
    ensures bank { IfOk result (λ run. IsBankLeft set.now ticks run.bank) }
{
    let mut tick = Tick::new();
    let mut ledger = Ledger::new(alloc);
    let mut totals = Totals::new();
    note_slots(
        set,
        &mut executive,
        ticks,
        &mut tick,
        &mut ledger,
        &mut totals,
    )?;
    events_have_their_time();
    replies_and_retries_are_told();
    executive.late(&mut tick);
    note_events(tick.events.as_slice(), ticks, &mut ledger, &mut totals)?;
    let bank = executive.into_bank();
    Ok(Noted {
        ledger,
        totals,
        bank,
    })
}

/// Hands in the line of an interval.
fn put_window<K: Sink>(
    ledger: &Ledger,
    place: u64,
    line: &mut Line,
    sink: &mut K,
) -> Result<(), Failed>
    requires up { MayBeCalled (K.tells sink.old).failures }
    requires place { place < 10 }
    ensures { Puts (K.tells sink.old) (K.tells sink.new) result (window_line_after ledger.now place ∷ []) }
{
    let a = place * WINDOW_TICKS;
    let b = place * WINDOW_TICKS + WINDOW_TICKS;
    let retries = ledger.retries(a, b);
    let preemptions = ledger.preemptions(a, b);
    window_line(a, b, retries, preemptions, line);
    put(sink, line.as_slice())
}

/// Hands in the lines of the intervals.
fn put_windows<K: Sink>(ledger: &Ledger, line: &mut Line, sink: &mut K) -> Result<(), Failed>
    requires up { MayBeCalled (K.tells sink.old).failures }
    ensures { Puts (K.tells sink.old) (K.tells sink.new) result (first_windows ledger.now 10) }
{
    for place in 0..WINDOWS {
        put_window(ledger, place, line, sink)?;
    }
    Ok(())
}

/// Hands in what is told of a run after its test: its intervals, its objects and its totals.
fn write_noted<K: Sink>(
    set: &TaskSet,
    run: &Noted,
    line: &mut Line,
    sink: &mut K,
) -> Result<(), Failed>
    requires up { MayBeCalled (K.tells sink.old).failures }
    requires run { (ticks : ℕ) × IsRun set.now ticks run.now.ledger run.now.totals run.now.bank }
    ensures { (ticks : ℕ) → IsRun set.now ticks run.now.ledger run.now.totals run.now.bank
        → Puts (K.tells sink.old) (K.tells sink.new) result (window_report set.now ticks) }
{
    put_windows(&run.ledger, line, sink)?;
    put_objects(set, &run.bank, line, sink)?;
    put_totals(&run.totals, line, sink)
}

/// Hands in the report of a drawn set, line by line. It takes no memory.
fn write_drawn<K: Sink>(set: &TaskSet, run: &Noted, sink: &mut K) -> Result<(), Failed>
    requires up { MayBeCalled (K.tells sink.old).failures }
    requires run { (ticks : ℕ) × IsRun set.now ticks run.now.ledger run.now.totals run.now.bank }
    ensures { (ticks : ℕ) → IsRun set.now ticks run.now.ledger run.now.totals run.now.bank
        → Puts (K.tells sink.old) (K.tells sink.new) result (drawn_report set.now ticks) }
{
    let mut line = Line::new();
    put_test(set, &mut line, sink)?;
    write_noted(set, run, &mut line, sink)
}

/// Draws the set of a number, runs it for so many slots, tells the intervals of its schedule, and leaves its bank.
pub(crate) fn draw<K: Sink>(
    alloc: Global,
    number: u64,
    ticks: u64,
    sink: &mut K,
    left: &mut Left,
) -> Result<Status, Stop>
    requires up { MayBeCalled (K.tells sink.old).failures }
    requires limits { ticks ≤ 1000000 }
    requires nothing { left.old ≡ Nothing }
    ensures { WritesAnswer (draw_answer ticks number) (K.tells sink.old) (K.tells sink.new) left.new result }
{
    let set = generate(alloc, number)?;
    let executive = new_executive(alloc, &set)?;
    let run = note_run(alloc, &set, executive, ticks)?;
    write_drawn(&set, &run, sink)?;
    *left = Left::Bank { bank: run.bank };
    Ok(Status::Done)
}
