// The lines of one set, which has a cell and registers.
ghost use Rattle.rx_report.specs.Wordings.{IsWordingOf};
ghost use Rattle.std.specs.Prelude.{◌≡◌, ◌<◌, length, IfOk};

use super::*;
use rx_ledger::Event;
use rx_seq::{Call, Entry, Kind, Part, Reply, Row, State};
use rx_set::{Body, Item, Job, Name, Object, Policy, Task, TaskSet};
use std::alloc::Global;
use std::test::Fail;

/// A task that works, calls a cell, and calls registers.
fn shared(alloc: Global) -> Result<TaskSet, Fail>
    ensures objects { IfOk result (λ set. length set.objects ≡ 2) }
    ensures tasks { IfOk result (λ set. length set.tasks ≡ 1) }
{
    let cell = Object {
        name: Name::from("c")?,
        part: Part {
            kind: Kind::Cell,
            cap: 1,
        },
    };
    let registers = Object {
        name: Name::from("registers_of_all")?,
        part: Part {
            kind: Kind::Registers,
            cap: 4,
        },
    };
    let one = Row {
        i: 3,
        old: 7,
        new: u32::MAX,
    };
    let task = Task {
        name: Name::from("a")?,
        period: 100,
        deadline: 100,
        offset: 1,
        body: Body::of(vec![in alloc;
            Item::Work { n: 30 },
            Item::Op {
                object: 0,
                call: Call::Swap { old: 1, new: 2 }
            },
            Item::Op {
                object: 1,
                call: Call::Multi {
                    count: 1,
                    rows: [one, Row::default(), Row::default(), Row::default()]
                }
            },
        ]?),
    };
    Ok(TaskSet::build(
        Policy::Rm,
        vec![in alloc; cell, registers]?,
        vec![in alloc; task]?,
        Vec::new(alloc),
    ))
}

/// Whether the events have these lines, one after the other in one buffer.
fn has_events(set: &TaskSet, wording: &Wording, cases: &[(Event, &[u8])]) -> bool
    requires { IsWordingOf set.now wording.now }
{
    let mut buffer = LineBuffer::new();
    for (event, text) in cases {
        buffer.make_event(set, wording, event);
        if buffer.as_slice() != *text {
            return false;
        }
    }
    true
}

/// Whether the end of a job at these times has these lines, one after the other in one buffer.
fn has_times(set: &TaskSet, wording: &Wording, cases: &[(u64, &[u8])]) -> bool
    requires { IsWordingOf set.now wording.now }
{
    let job = Job {
        task: 0,
        number: 10,
    };
    let mut buffer = LineBuffer::new();
    for (at, text) in cases {
        buffer.make_event(set, wording, &Event::Finish { at: *at, job });
        if buffer.as_slice() != *text {
            return false;
        }
    }
    true
}

/// Whether the entries have these lines, one after the other in one buffer.
fn has_entries(set: &TaskSet, wording: &Wording, cases: &[(Entry, &[u8])]) -> bool
    requires { IsWordingOf set.now wording.now }
{
    let mut buffer = LineBuffer::new();
    for (entry, text) in cases {
        buffer.make_entry(set, wording, entry);
        if buffer.as_slice() != *text {
            return false;
        }
    }
    true
}

#[test]
fn writes_events(rt: HostRuntime) -> Result<(), Fail> {
    let job = Job { task: 0, number: 1 };
    let last = Job {
        task: 0,
        number: u64::MAX,
    };
    let none = Job { task: 1, number: 3 };
    let cases: [(Event, &[u8]); 9] = [
        (Event::Miss { at: 8, job }, b"8 miss a 1\n"),
        (
            Event::Release {
                at: u64::MAX,
                job: last,
            },
            b"18446744073709551615 release a 18446744073709551615\n",
        ),
        (
            Event::Preempt {
                at: 1,
                job: last,
                by: job,
            },
            b"1 preempt a 18446744073709551615 by a 1\n",
        ),
        (Event::Finish { at: 0, job: none }, b"0 finish  3\n"),
        (
            Event::Reply {
                at: 9,
                first: 7,
                job,
                item: 1,
                reply: Reply::Empty,
                tag: 0,
            },
            b"9 reply a 1 1 work 30 -> empty tag 0\n",
        ),
        (
            Event::Reply {
                at: 9,
                first: 7,
                job,
                item: 2,
                reply: Reply::Differs { v: 6 },
                tag: 5,
            },
            b"9 reply a 1 2 swap c 1 2 -> differs 6 tag 5\n",
        ),
        (
            Event::Reply {
                at: 9,
                first: 7,
                job,
                item: 3,
                reply: Reply::Done { v: 1 },
                tag: 1,
            },
            b"9 reply a 1 3 multi registers_of_all 3 7 4294967295 -> done 1 tag 1\n",
        ),
        (
            Event::Retry {
                at: 4,
                first: 1,
                job,
                item: 2,
                expected: 0,
                found: 1,
            },
            b"4 retry a 1 2 c tag 0 now 1\n",
        ),
        (
            Event::Retry {
                at: 4,
                first: 1,
                job,
                item: 4,
                expected: 0,
                found: 1,
            },
            b"4 retry a 1 4  tag 0 now 1\n",
        ),
    ];
    let set = shared(rt.alloc())?;
    let Ok(wording) = Wording::new(rt.alloc(), &set) else {
        return Err("no memory".into());
    };
    assert!(rt; has_events(&set, &wording, &cases));
    let mut line = Line::new();
    for (event, text) in cases {
        event_line(&set, &event, &mut line);
        assert_eq!(rt; line.as_slice(), text);
    }
    Ok(())
}

// Each time follows on another in the same buffer, which keeps the digits that the two share.
#[test]
fn counts_times_up(rt: HostRuntime) -> Result<(), Fail> {
    let cases: [(u64, &[u8]); 16] = [
        (0, b"0 finish a 10\n"),
        (9, b"9 finish a 10\n"),
        (9, b"9 finish a 10\n"),
        (10, b"10 finish a 10\n"),
        (9_999, b"9999 finish a 10\n"),
        (10_000, b"10000 finish a 10\n"),
        (10_001, b"10001 finish a 10\n"),
        (19_999, b"19999 finish a 10\n"),
        (20_000, b"20000 finish a 10\n"),
        (20_007, b"20007 finish a 10\n"),
        (10_007, b"10007 finish a 10\n"),
        (99_999_999, b"99999999 finish a 10\n"),
        (100_000_000, b"100000000 finish a 10\n"),
        (1_000_000_000_000, b"1000000000000 finish a 10\n"),
        (u64::MAX, b"18446744073709551615 finish a 10\n"),
        (7, b"7 finish a 10\n"),
    ];
    let set = shared(rt.alloc())?;
    let Ok(wording) = Wording::new(rt.alloc(), &set) else {
        return Err("no memory".into());
    };
    assert!(rt; has_times(&set, &wording, &cases));
    Ok(())
}

/// Makes the line of an object whose state has these numbers.
fn line_of(
    set: &TaskSet,
    object: u32,
    tag: u64,
    numbers: &[u32],
    line: &mut Line,
) -> Result<(), Fail>
    requires { object < length set.now.objects }
{
    let mut state = State::new();
    state.try_extend_from_slice(numbers)?;
    object_line(set, object, tag, &state, line);
    Ok(())
}

#[test]
fn writes_objects(rt: HostRuntime) -> Result<(), Fail> {
    let set = shared(rt.alloc())?;
    let mut line = Line::new();
    line_of(&set, 0, 2, &[16777215], &mut line)?;
    assert_eq!(rt;
        line.as_slice(),
        b"object c cell tag 2 state 16777215\n".as_slice()
    );
    line_of(&set, 1, 1_099_511_627_775, &[0, u32::MAX, 70, 0], &mut line)?;
    assert_eq!(rt;
        line.as_slice(),
        b"object registers_of_all registers tag 1099511627775 state 0 4294967295 70 0\n".as_slice()
    );
    line_of(&set, 0, 0, &[], &mut line)?;
    assert_eq!(rt; line.as_slice(), b"object c cell tag 0 state\n".as_slice());
    Ok(())
}

#[test]
fn writes_ranks(rt: HostRuntime) -> Result<(), Fail> {
    let cases: [(Option<u64>, &[u8]); 3] = [
        (Some(46), b"rank 1 a least 46 deadline 100\n"),
        (
            Some(u64::MAX),
            b"rank 1 a least 18446744073709551615 deadline 100\n",
        ),
        (None, b"rank 1 a fails deadline 100\n"),
    ];
    let set = shared(rt.alloc())?;
    let mut line = Line::new();
    for (least, text) in cases {
        rank_line(&set, 1, least, &mut line);
        assert_eq!(rt; line.as_slice(), text);
    }
    Ok(())
}

/// An entry of a caller, with this index, reply and tag.
const fn told(caller: u32, index: u64, reply: Reply, tag: u64) -> Entry {
    Entry {
        caller,
        index,
        object: 0,
        call: Call::Get,
        reply,
        tag,
    }
}

#[test]
fn writes_entries(rt: HostRuntime) -> Result<(), Fail> {
    let cases: [(Entry, &[u8]); 6] = [
        (
            told(0, 1, Reply::Differs { v: 0 }, 1),
            b"a 1 2 swap c 1 2 -> differs 0 tag 1\n",
        ),
        (
            told(0, 2, Reply::Done { v: 1 }, 7),
            b"a 1 3 multi registers_of_all 3 7 4294967295 -> done 1 tag 7\n",
        ),
        (
            told(0, 3, Reply::Done { v: 2 }, 1_099_511_627_775),
            b"a 2 2 swap c 1 2 -> done 2 tag 1099511627775\n",
        ),
        (
            told(0, u64::MAX, Reply::Over, u64::MAX),
            b"a 9223372036854775808 2 swap c 1 2 -> over tag 18446744073709551615\n",
        ),
        (
            told(0, 0, Reply::Over, 0),
            b"a 1 2 swap c 1 2 -> over tag 0\n",
        ),
        (told(1, 3, Reply::Empty, 2), b" 3 1  -> empty tag 2\n"),
    ];
    let set = shared(rt.alloc())?;
    let Ok(wording) = Wording::new(rt.alloc(), &set) else {
        return Err("no memory".into());
    };
    assert!(rt; has_entries(&set, &wording, &cases));
    let mut line = Line::new();
    for (entry, text) in cases {
        entry_line(&set, &entry, &mut line);
        assert_eq!(rt; line.as_slice(), text);
    }
    Ok(())
}

#[test]
fn writes_ends_of_lanes(rt: HostRuntime) {
    let mut line = Line::new();
    lanes_line(16, 200, &mut line);
    assert_eq!(rt; line.as_slice(), b"lanes 16 jobs 200\n".as_slice());
    lanes_line(u32::MAX, 0, &mut line);
    assert_eq!(rt; line.as_slice(), b"lanes 4294967295 jobs 0\n".as_slice());
    calls_line(0, &mut line);
    assert_eq!(rt; line.as_slice(), b"total calls 0\n".as_slice());
    calls_line(u64::MAX, &mut line);
    assert_eq!(rt;
        line.as_slice(),
        b"total calls 18446744073709551615\n".as_slice()
    );
}
