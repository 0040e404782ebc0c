//! From a command to its answer.
ghost use Rattle.std.specs.Prelude.{◌≡◌, ◌≢◌};
ghost use Rattle.std.specs.Option.{ForSome};
ghost use Rattle.rx_io.specs.States.{MayBeCalled};
ghost use Rattle.rx_file.specs.declared.faults.FileFault.TheVariants.{NoMemory as OutOfMemory};
ghost use Rattle.rx_top.specs.declared.left.Left.TheVariants.{Nothing};
ghost use Rattle.rx_top.specs.Words.{IsLimited};
ghost use Rattle.rx_top.specs.Outcome.{OutcomeOf, WritesAnswer, WritesOneAnswer, ends, fault_answer, input_answer, set_answer};

use crate::admits::admit_set;
use crate::draws::draw;
use crate::lanes::share_set;
use crate::left::Left;
use crate::runs::run_set;
use crate::stops::Stop;
use crate::words::{Command, Query};
use rx_file::{FileFault, read_set};
use rx_io::{Sink, Source, Status, put, read_all};
use rx_lanes::Gate;
use rx_report::{Line, fault_line};
use rx_set::TaskSet;
use std::alloc::Global;
use std::thread::Threads;

// The most bytes of an input.
const MOST_INPUT: usize = 1_048_576;

// How many ticks a drawn set is run for.
const DRAWN_TICKS: u64 = 100_000;

/// Answers the command, or says that there is none.
pub(crate) fn answer_words<R: Threads + Sync, S: Source, K: Sink, G: Gate + Sync>(
    rt: &R,
    alloc: Global,
    command: Option<Command>,
    source: &mut S,
    sink: &mut K,
    gate: &G,
    left: &mut Left,
) -> Result<Status, Stop>
    requires source { MayBeCalled (S.tells source.old).failures }
    requires sink { MayBeCalled (K.tells sink.old).failures }
    requires limits { ForSome command IsLimited }
    requires nothing { left.old ≡ Nothing }
    ensures { OutcomeOf command
        (ends (S.tells source.old) (K.tells sink.old)) (ends (S.tells source.new) (K.tells sink.new)) left.new result }
{
    let Some(command) = command else {
        put(sink, b"words\n")?;
        return Ok(Status::Words);
    };
    match command {
        Command::Ask { query } => {
            let input = read_all(alloc, source, MOST_INPUT)?;
            answer_input(rt, alloc, query, input.as_slice(), sink, gate, left)
        }
        Command::Draw { number } => draw(alloc, number, DRAWN_TICKS, sink, left),
    }
}

/// Answers a query to an input.
fn answer_input<R: Threads + Sync, K: Sink, G: Gate + Sync>(
    rt: &R,
    alloc: Global,
    query: Query,
    input: &[u8],
    sink: &mut K,
    gate: &G,
    left: &mut Left,
) -> Result<Status, Stop>
    requires up { MayBeCalled (K.tells sink.old).failures }
    requires limits { IsLimited (Command.Ask query) }
    requires nothing { left.old ≡ Nothing }
    ensures { WritesOneAnswer (λ history. input_answer (set_answer query history) input.now)
        (K.tells sink.old) (K.tells sink.new) left.new result }
{
    if input.len() > MOST_INPUT {
        put(sink, b"too large\n")?;
        return Ok(Status::TooLarge);
    }
    match read_set(alloc, input) {
        Ok(set) => answer_set(rt, alloc, query, &set, sink, gate, left),
        Err(FileFault::NoMemory) => Err(Stop::Memory),
        Err(fault) => refuse_fault(&fault, sink),
    }
}

/// Answers a query to a set.
fn answer_set<R: Threads + Sync, K: Sink, G: Gate + Sync>(
    rt: &R,
    alloc: Global,
    query: Query,
    set: &TaskSet,
    sink: &mut K,
    gate: &G,
    left: &mut Left,
) -> Result<Status, Stop>
    requires up { MayBeCalled (K.tells sink.old).failures }
    requires limits { IsLimited (Command.Ask query) }
    requires nothing { left.old ≡ Nothing }
    ensures { WritesOneAnswer (λ history. set_answer query history set.now)
        (K.tells sink.old) (K.tells sink.new) left.new result }
{
    // That the set is valid.
    let _tasks = set.tasks();
    match query {
        Query::Run { ticks } => run_set(alloc, ticks, set, sink, left),
        Query::Admit => admit_set(set, sink),
        Query::Lanes { workers, jobs } => {
            share_set(rt, alloc, workers, jobs, set, sink, gate, left)
        }
    }
}

/// Writes the first fault of the input.
fn refuse_fault<K: Sink>(fault: &FileFault, sink: &mut K) -> Result<Status, Stop>
    requires up { MayBeCalled (K.tells sink.old).failures }
    requires fault { fault.now ≢ OutOfMemory }
    ensures { WritesAnswer (fault_answer fault.now) (K.tells sink.old) (K.tells sink.new) Nothing result }
{
    let mut line = Line::new();
    fault_line(fault, &mut line);
    put(sink, line.as_slice())?;
    Ok(match fault {
        FileFault::NotToml => Status::NotToml,
        _ => Status::BadSet,
    })
}
