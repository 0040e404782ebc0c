ghost use Rattle.std.specs.Prelude.{◌≤◌};

use super::*;
use rx_seq::Reply;
use rx_set::Job;
use std::test::Fail;

/// The totals of one event.
fn totals_of(event: Event) -> Totals {
    let mut totals = Totals::new();
    totals.count(&event);
    totals
}

#[test]
fn counts_each_kind_of_event(rt: HostRuntime) {
    let job = Job { task: 0, number: 1 };
    let by = Job { task: 1, number: 2 };
    let none = Totals::new();
    let (at, first, item) = (8, 7, 1);
    let reply = Event::Reply {
        at,
        first,
        job,
        item,
        reply: Reply::Empty,
        tag: 1,
    };
    let retry = Event::Retry {
        at,
        first,
        job,
        item,
        expected: 0,
        found: 1,
    };
    for (event, want) in [
        (Event::Miss { at, job }, Totals { missed: 1, ..none }),
        (
            Event::Release { at, job },
            Totals {
                released: 1,
                ..none
            },
        ),
        (
            Event::Preempt { at, job, by },
            Totals {
                preempted: 1,
                ..none
            },
        ),
        (reply, Totals { replies: 1, ..none }),
        (retry, Totals { retries: 1, ..none }),
        (
            Event::Finish { at, job },
            Totals {
                finished: 1,
                ..none
            },
        ),
    ] {
        assert_eq!(rt; totals_of(event), want);
    }
}

#[test]
fn counts_slots(rt: HostRuntime) {
    let mut totals = Totals::default();
    totals.slot(true);
    totals.slot(false);
    totals.slot(true);
    let want = Totals {
        ticks: 3,
        idle: 1,
        ..Totals::new()
    };
    assert_eq!(rt; totals, want);
}

/// Appends an event, and fails where it is before the last one.
fn append(ledger: &mut Ledger, event: Event) -> Result<(), Fail> {
    let count = ledger.events().len();
    if count > 0 && event.at() < ledger.events()[count - 1].at() {
        return Err("an event before the last one".into());
    }
    match ledger.push(event) {
        Ok(()) => Ok(()),
        Err(_) => Err("no memory".into()),
    }
}

/// The reply of a job's first item, and the job's end.
fn append_reply(
    ledger: &mut Ledger,
    at: u64,
    first: u64,
    job: Job,
    reply: Reply,
    tag: u64,
) -> Result<(), Fail> {
    let item = 1;
    append(
        ledger,
        Event::Reply {
            at,
            first,
            job,
            item,
            reply,
            tag,
        },
    )?;
    append(ledger, Event::Finish { at, job })
}

/// The retry of a job's first item.
fn append_retry(
    ledger: &mut Ledger,
    at: u64,
    first: u64,
    job: Job,
    found: u64,
) -> Result<(), Fail> {
    let (item, expected) = (1, 0);
    append(
        ledger,
        Event::Retry {
            at,
            first,
            job,
            item,
            expected,
            found,
        },
    )
}

/// Whether an interval has so many retries, preemptions and releases.
fn has_counts(ledger: &Ledger, a: u64, b: u64, counts: (u64, u64, u64)) -> bool
    requires { a ≤ b }
{
    (
        ledger.retries(a, b),
        ledger.preemptions(a, b),
        ledger.releases(a, b),
    ) == counts
}

// Three tasks on one queue: a, which puts 7, preempts b, which preempted c, and both of them, which take, begin again.
#[test]
fn counts_in_intervals(rt: HostRuntime) -> Result<(), Fail> {
    let a = Job { task: 0, number: 1 };
    let b = Job { task: 1, number: 1 };
    let c = Job { task: 2, number: 1 };
    let mut ledger = Ledger::new(rt.alloc());
    assert!(rt; has_counts(&ledger, 0, 50, (0, 0, 0)));
    append(&mut ledger, Event::Release { at: 0, job: c })?;
    append(&mut ledger, Event::Release { at: 2, job: b })?;
    append(
        &mut ledger,
        Event::Preempt {
            at: 2,
            job: c,
            by: b,
        },
    )?;
    append(&mut ledger, Event::Release { at: 4, job: a })?;
    append(
        &mut ledger,
        Event::Preempt {
            at: 4,
            job: b,
            by: a,
        },
    )?;
    append_reply(&mut ledger, 11, 4, a, Reply::Done { v: 1 }, 1)?;
    append_retry(&mut ledger, 17, 2, b, 1)?;
    append_reply(&mut ledger, 25, 18, b, Reply::Done { v: 7 }, 2)?;
    append_retry(&mut ledger, 31, 0, c, 2)?;
    append_reply(&mut ledger, 39, 32, c, Reply::Empty, 3)?;
    assert_eq!(rt; ledger.events().len(), 13);
    assert!(rt; has_counts(&ledger, 0, 50, (2, 2, 2)));
    assert!(rt; has_counts(&ledger, 2, 26, (1, 1, 1)));
    assert!(rt; has_counts(&ledger, 26, 50, (0, 0, 0)));
    assert!(rt; has_counts(&ledger, 0, 17, (0, 2, 2)));
    assert!(rt; has_counts(&ledger, 0, 18, (1, 2, 2)));
    assert!(rt; has_counts(&ledger, 2, 4, (0, 0, 0)));
    Ok(())
}
