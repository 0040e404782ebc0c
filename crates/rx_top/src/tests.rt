// What a run of the program cannot show: sources and sinks that fail midway or move few bytes a call, what is left, and
// that served sets are never late. Whole runs are the cases of the built program.
ghost use Rattle.rx_io.specs.States.{MayBeCalled};

use super::*;
use rx_edf::{EdfVerdict, test as test_spans};
use rx_fixed::{Verdict, test};
use rx_io::{InSource, MemorySink, MemorySource, OutSink, Sink, Source};
use rx_lanes::{Gate, NoGate};
use rx_ledger::Event;
use rx_port::Counts;
use rx_seq::State;
use rx_set::{Policy, TaskSet, generate};
use rx_tick::{Executive, Tick};
use rx_trace::new_executive;
use std::alloc::{AllocError, Global};
use std::io;
use std::io::Read;
use std::test::Fail;
use std::thread::Threads;

/// Two tasks that share a cell. The first preempts the second between the load and the exchange of its operation.
pub(crate) const SHARED: &str = r#"
[[object]]
name = "c"
kind = "cell"

[[task]]
name = "a"
period = 10
offset = 2
body = ["add c 1"]

[[task]]
name = "b"
period = 20
body = ["work 1", "add c 5", "work 1"]
"#;

const RUN: &str = r#"test yes
0 release b 1
2 release a 1
2 preempt b 1 by a 1
3 reply a 1 1 add c 1 -> done 1 tag 1
3 finish a 1
4 retry b 1 2 c tag 0 now 1
6 reply b 1 2 add c 5 -> done 6 tag 2
7 finish b 1
object c cell tag 2 state 6
total ticks 10 idle 2 released 2 finished 2 replies 2 retries 1 preempted 1 missed 0
"#;

const ADMISSION: &str = r#"test yes
rank 1 a least 2 deadline 10
rank 2 b least 8 deadline 20
"#;

// One lane makes the first task before the second.
const LANES: &str = r#"lanes 1 jobs 2
a 1 1 add c 1 -> done 1 tag 1
a 2 1 add c 1 -> done 2 tag 2
b 1 2 add c 5 -> done 7 tag 3
b 2 2 add c 5 -> done 12 tag 4
object c cell tag 4 state 12
total calls 4
"#;

/// An object of each kind, and a task for each.
const KINDS: &str = r#"
object = [
  {name="r", kind="registers", capacity=4},
  {name="q", kind="queue", capacity=1},
  {name="l", kind="list", capacity=1},
  {name="c", kind="cell"},
]

[[task]]
name = "write"
period = 500
body = ["multi r 0 0 5 1 0 6 2 0 7 3 0 8", "shift r 3 0 8", "multi r 1 9 6"]

[[task]]
name = "pass"
period = 500
body = ["put q 5", "put q 6", "take q", "take q", "put q 7"]

[[task]]
name = "hold"
period = 500
body = ["insert l 3", "work 2", "insert l 4", "remove l 3", "insert l 9"]

[[task]]
name = "count"
period = 500
body = ["set c 16777215", "add c 1", "swap c 16777215 4"]
"#;

/// The words of a command.
fn split(alloc: Global, text: &str) -> Result<Vec<String>, AllocError> {
    let mut words = Vec::new(alloc);
    for word in text.split(' ') {
        words.push(String::from_str(alloc, word)?)?;
    }
    Ok(words)
}

/// Calls `top` on the words of a command. Answers the status and what is left.
fn call<S: Source, K: Sink, G: Gate + Sync>(
    rt: &(impl Threads + Sync),
    alloc: Global,
    text: &str,
    source: &mut S,
    sink: &mut K,
    gate: &G,
) -> Result<(Status, Left), AllocError>
    requires source { MayBeCalled (S.tells source.old).failures }
    requires sink { MayBeCalled (K.tells sink.old).failures }
{
    let words = split(alloc, text)?;
    let mut left = Left::Nothing;
    let status = top(rt, alloc, words.as_slice(), source, sink, gate, &mut left);
    Ok((status, left))
}

/// A command, its input, and what its source and its sink do.
#[derive(Clone, Copy)]
pub(crate) struct Case {
    pub words: &'static str,
    pub input: &'static str,
    /// The most bytes that a call of the source gives, and that one of the sink takes.
    pub read_step: usize,
    pub write_step: usize,
    /// The number of the call of the source that fails, and of the sink; 0 where none does.
    pub read_fails: u64,
    pub write_fails: u64,
    /// The most bytes that the sink takes.
    pub room: usize,
}

impl Case {
    /// A source and a sink that move much in each call, and fail in none.
    pub(crate) fn new(words: &'static str, input: &'static str) -> Case {
        Case {
            words,
            input,
            read_step: 4096,
            write_step: 4096,
            read_fails: 0,
            write_fails: 0,
            room: 16_384,
        }
    }
}

/// How a call of `top` ended: its status, the bytes that its sink took, what is left, and how often the source and the
/// sink were called.
#[derive(Drop)]
pub(crate) struct Ending {
    pub status: Status,
    pub taken: Vec<u8>,
    pub left: Left,
    pub reads: u64,
    pub writes: u64,
}

/// Calls `top` as a case says.
pub(crate) fn answer<G: Gate + Sync>(
    rt: &(impl Threads + Sync),
    alloc: Global,
    case: &Case,
    gate: &G,
) -> Result<Ending, Fail> {
    if case.read_step == 0 || case.write_step == 0 {
        return Err("no step".into());
    }
    let bytes = case.input.as_bytes().to_vec(alloc)?;
    let mut source = MemorySource::new(bytes, case.read_step, [case.read_fails].to_vec(alloc)?);
    let made = MemorySink::new(
        alloc,
        case.room,
        case.write_step,
        [case.write_fails].to_vec(alloc)?,
    );
    let mut sink = made.map_err(|_| "no memory")?;
    let (status, left) = call(rt, alloc, case.words, &mut source, &mut sink, gate)?;
    let taken = sink.taken().to_vec(alloc)?;
    Ok(Ending {
        status,
        taken,
        left,
        reads: source.calls(),
        writes: sink.calls(),
    })
}

/// Whether a call of `top` ended so after so many calls of the source and of the sink, and left no words.
fn ends_so(ending: &Ending, status: Status, taken: &[u8], reads: u64, writes: u64) -> bool {
    ending.status == status
        && ending.taken.as_slice() == taken
        && matches!(&ending.left, Left::Nothing)
        && ending.reads == reads
        && ending.writes == writes
}

/// A command on the two tasks that share a cell, with its whole report, and how many lines that has.
#[derive(Clone, Copy)]
struct Report {
    words: &'static str,
    text: &'static str,
    lines: u64,
}

const REPORTS: [Report; 3] = [
    Report {
        words: "run 10",
        text: RUN,
        lines: 11,
    },
    Report {
        words: "admit",
        text: ADMISSION,
        lines: 3,
    },
    Report {
        words: "lanes 1 2",
        text: LANES,
        lines: 7,
    },
];

#[test]
fn moves_one_byte_a_call(rt: HostRuntime) -> Result<(), Fail> {
    for report in REPORTS {
        let case = Case {
            read_step: 1,
            write_step: 1,
            ..Case::new(report.words, SHARED)
        };
        let ending = answer(&rt, rt.alloc(), &case, &NoGate)?;
        assert_eq!(&rt; ending.status, Status::Done, "{}", report.words);
        assert_eq!(&rt;
            ending.taken.as_slice(),
            report.text.as_bytes(),
            "{}",
            report.words
        );
        // The last call of the source finds the end.
        assert_eq!(&rt; ending.reads, SHARED.len() as u64 + 1);
        assert_eq!(&rt; ending.writes, report.text.len() as u64);
    }
    Ok(())
}

#[test]
fn a_failed_read_is_the_last_call(rt: HostRuntime) -> Result<(), Fail> {
    for report in REPORTS {
        let calls = SHARED.len() as u64 / 16 + 2;
        for read_fails in 1..=calls {
            let case = Case {
                read_step: 16,
                read_fails,
                ..Case::new(report.words, SHARED)
            };
            let ending = answer(&rt, rt.alloc(), &case, &NoGate)?;
            assert!(&rt;
                ends_so(&ending, Status::ReadFault, b"", read_fails, 0),
                "{} {read_fails}",
                report.words
            );
        }
        let case = Case {
            read_step: 16,
            read_fails: calls + 1,
            ..Case::new(report.words, SHARED)
        };
        let ending = answer(&rt, rt.alloc(), &case, &NoGate)?;
        assert_eq!(&rt; ending.status, Status::Done, "{}", report.words);
        assert_eq!(&rt; ending.reads, calls, "{}", report.words);
    }
    Ok(())
}

/// The lines of a text before the one with a number, from 1 on.
fn lines_before(alloc: Global, text: &str, number: u64) -> Result<Vec<u8>, AllocError> {
    let mut bytes = Vec::new(alloc);
    let mut lines: u64 = 1;
    for line in text.split_inclusive('\n') {
        if lines < number {
            bytes.extend_from_slice(line.as_bytes())?;
        }
        lines = lines.saturating_add(1);
    }
    Ok(bytes)
}

/// Whether the lines before one are taken where the call that hands it in fails, which is the last one.
fn is_cut_before(
    rt: &(impl Threads + Sync),
    alloc: Global,
    report: Report,
    line: u64,
) -> Result<bool, Fail> {
    let case = Case {
        write_fails: line,
        ..Case::new(report.words, SHARED)
    };
    let ending = answer(rt, alloc, &case, &NoGate)?;
    let want = lines_before(alloc, report.text, line)?;
    Ok(ends_so(&ending, Status::WriteFault, want.as_slice(), 2, line))
}

#[test]
fn a_failed_write_is_the_last_call(rt: HostRuntime) -> Result<(), Fail> {
    for report in REPORTS {
        for line in 1..=report.lines {
            assert!(&rt;
                is_cut_before(&rt, rt.alloc(), report, line)?,
                "{} before line {line}",
                report.words
            );
        }
    }
    Ok(())
}

#[test]
fn each_line_is_one_call(rt: HostRuntime) -> Result<(), Fail> {
    for report in REPORTS {
        let ending = answer(&rt, rt.alloc(), &Case::new(report.words, SHARED), &NoGate)?;
        assert_eq!(&rt; ending.status, Status::Done);
        assert_eq!(&rt; ending.writes, report.lines);
    }
    Ok(())
}

#[test]
fn a_failed_write_cuts_a_line(rt: HostRuntime) -> Result<(), Fail> {
    // The sink takes a byte a call, or has no more room.
    let steps = Case {
        write_step: 1,
        write_fails: 14,
        ..Case::new("run 10", SHARED)
    };
    let full = Case {
        room: 13,
        ..Case::new("run 10", SHARED)
    };
    let fault = Case {
        write_step: 1,
        write_fails: 3,
        ..Case::new("run 10", "")
    };
    let words = Case {
        write_step: 2,
        write_fails: 3,
        ..Case::new("runs 10", "")
    };
    for (case, taken, reads, writes) in [
        (steps, "test yes\n0 re", 2, 14),
        (full, "test yes\n0 re", 2, 3),
        (fault, "se", 1, 3),
        (words, "word", 0, 3),
    ] {
        let ending = answer(&rt, rt.alloc(), &case, &NoGate)?;
        assert!(&rt;
            ends_so(&ending, Status::WriteFault, taken.as_bytes(), reads, writes),
            "{taken}"
        );
    }
    Ok(())
}

#[test]
fn a_drawing_calls_no_source(rt: HostRuntime) -> Result<(), Fail> {
    // Its report has the lines of the test, of ten intervals, of each object and of the totals.
    let whole = answer(&rt, rt.alloc(), &Case::new("gen 0", SHARED), &NoGate)?;
    assert_eq!(&rt; whole.status, Status::Done);
    assert_eq!(&rt; whole.reads, 0);
    for write_fails in 1..=whole.writes {
        let case = Case {
            write_fails,
            ..Case::new("gen 0", SHARED)
        };
        let ending = answer(&rt, rt.alloc(), &case, &NoGate)?;
        assert_eq!(&rt; ending.status, Status::WriteFault);
        assert_eq!(&rt; (ending.reads, ending.writes), (0, write_fails));
        assert!(&rt; whole.taken.as_slice().starts_with(ending.taken.as_slice()));
        assert!(&rt; matches!(&ending.left, Left::Nothing));
    }
    Ok(())
}

/// Gives so many bytes.
#[derive(Drop)]
struct Long {
    left: usize,
}

impl Read for Long {
    fn read(&mut self, buf: &mut [u8]) -> io::Result<usize> {
        let count = buf.len().min(self.left);
        self.left = self.left.saturating_sub(count);
        Ok(count)
    }
}

#[test]
fn leaves_the_rest_of_a_large_input(rt: HostRuntime) -> Result<(), Fail> {
    let mut source = InSource::new(Long { left: 1_048_580 });
    let mut sink = OutSink::new(Vec::new(rt.alloc()));
    let (status, _left) = call(&rt, rt.alloc(), "run 10", &mut source, &mut sink, &NoGate)?;
    assert_eq!(&rt; status, Status::TooLarge);
    assert_eq!(&rt; source.into_inner().left, 3);
    assert_eq!(&rt; sink.into_inner().as_slice(), b"too large\n".as_slice());
    Ok(())
}

/// What is left of a run: the events of its bank, and the tag and the state of an object.
#[derive(Drop)]
struct LeftObject {
    counts: Counts,
    tag: u64,
    state: State,
}

/// Runs a set, and answers what is left, with the words of an object.
fn left_object(
    rt: &(impl Threads + Sync),
    alloc: Global,
    case: &Case,
    object: u32,
) -> Result<LeftObject, Fail> {
    let Ending { status, left, .. } = answer(rt, alloc, case, &NoGate)?;
    let Left::Bank { bank } = left else {
        return Err("no bank".into());
    };
    if status != Status::Done || object as usize >= bank.layout().parts().len() {
        return Err("no object".into());
    }
    let mut state = State::new();
    bank.state(object, &mut state);
    Ok(LeftObject {
        counts: bank.counts(),
        tag: bank.tag(object),
        state,
    })
}

/// The events on a cell after a run, and what it holds.
#[derive(Clone, Copy)]
struct CellCase {
    words: &'static str,
    loads: u64,
    exchanges: u64,
    tag: u64,
    value: u32,
}

#[test]
fn leaves_the_events_of_its_run(rt: HostRuntime) -> Result<(), Fail> {
    // There is one exchange for each reply and each retry, and one load for each attempt that has begun.
    for want in [
        CellCase {
            words: "run 10",
            loads: 3,
            exchanges: 3,
            tag: 2,
            value: 6,
        },
        CellCase {
            words: "run 3",
            loads: 2,
            exchanges: 0,
            tag: 0,
            value: 0,
        },
        CellCase {
            words: "run 0",
            loads: 0,
            exchanges: 0,
            tag: 0,
            value: 0,
        },
    ] {
        let found = left_object(&rt, rt.alloc(), &Case::new(want.words, SHARED), 0)?;
        let counts = Counts {
            loads: want.loads,
            stores: 0,
            exchanges: want.exchanges,
        };
        assert_eq!(&rt; found.counts, counts, "{} loads", want.loads);
        assert_eq!(&rt; found.tag, want.tag, "{} loads", want.loads);
        assert_eq!(&rt;
            found.state.as_slice(),
            [want.value].as_slice(),
            "{} loads",
            want.loads
        );
    }
    Ok(())
}

/// An object after a run.
#[derive(Clone, Copy)]
struct ObjectCase {
    words: &'static str,
    object: u32,
    exchanges: u64,
    tag: u64,
    state: &'static [u32],
}

#[test]
fn leaves_an_object_of_each_kind(rt: HostRuntime) -> Result<(), Fail> {
    // A call that is answered by differs, full, empty or over raises no tag.
    for want in [
        ObjectCase {
            words: "run 500",
            object: 0,
            exchanges: 15,
            tag: 2,
            state: &[13, 6, 7, 0],
        },
        ObjectCase {
            words: "run 500",
            object: 1,
            exchanges: 15,
            tag: 3,
            state: &[7],
        },
        ObjectCase {
            words: "run 500",
            object: 2,
            exchanges: 15,
            tag: 3,
            state: &[9],
        },
        ObjectCase {
            words: "run 500",
            object: 3,
            exchanges: 15,
            tag: 2,
            state: &[4],
        },
        // The set of the number 0, by another implementation.
        ObjectCase {
            words: "gen 0",
            object: 0,
            exchanges: 720,
            tag: 324,
            state: &[1458],
        },
    ] {
        let found = left_object(&rt, rt.alloc(), &Case::new(want.words, KINDS), want.object)?;
        assert_eq!(&rt;
            found.counts.exchanges,
            want.exchanges,
            "object {}",
            want.object
        );
        assert_eq!(&rt; found.tag, want.tag, "object {}", want.object);
        assert_eq!(&rt;
            found.state.as_slice(),
            want.state,
            "object {}",
            want.object
        );
    }
    Ok(())
}

// How many of the events are misses.
fn misses_in(events: &[Event]) -> u64 {
    let mut misses: u64 = 0;
    for event in events {
        if matches!(event, Event::Miss { .. }) {
            misses = misses.saturating_add(1);
        }
    }
    misses
}

// Makes the next slot, and answers how many misses it tells.
fn count_slot(executive: &mut Executive, tick: &mut Tick) -> Result<u64, Fail> {
    if executive.now() >= 1_000_000 {
        return Err("a slot too many".into());
    }
    executive.tick(tick);
    Ok(misses_in(tick.events.as_slice()))
}

// How many misses the first so many slots of a set tell, with those after the last one.
fn count_misses(alloc: Global, set: &TaskSet, ticks: u64) -> Result<u64, Fail> {
    let mut executive = new_executive(alloc, set)?;
    let mut tick = Tick::new();
    let mut misses: u64 = 0;
    for _ in 0..ticks {
        misses = misses.saturating_add(count_slot(&mut executive, &mut tick)?);
    }
    executive.late(&mut tick);
    Ok(misses.saturating_add(tick.events.len() as u64))
}

// Whether the test of a set's policy admits it.
fn is_admitted(set: &TaskSet) -> bool {
    match set.policy() {
        Policy::Edf => test_spans(set) == EdfVerdict::Yes,
        _ => test(set) == Verdict::Yes,
    }
}

#[test]
fn admitted_sets_are_never_late(rt: HostRuntime) -> Result<(), Fail> {
    let alloc = rt.alloc();
    let mut admitted: u64 = 0;
    for number in 0..100 {
        let set = generate(alloc, number).map_err(|_| "no memory")?;
        if is_admitted(&set) {
            admitted = admitted.saturating_add(1);
            assert_eq!(rt; count_misses(alloc, &set, 20_000)?, 0);
        }
    }
    // As many as another implementation of the generator and of the tests admits.
    assert_eq!(rt; admitted, 56);
    Ok(())
}
