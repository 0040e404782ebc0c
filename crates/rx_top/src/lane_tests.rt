// The table that lanes leave, and lanes that all meet at a gate.
use super::*;
use crate::tests::{Case, Ending, SHARED, answer};
use rx_lanes::{Gate, NoGate};
use rx_seq::State;
use rx_table::Closed;
use std::sync::atomic::{AtomicBool, AtomicU64, Ordering};
use std::test::Fail;
use std::thread::sleep;
use std::time::Duration;

/// What a closed table of one cell holds: how many seats it has, and the tag and the state of the cell.
#[derive(Drop)]
struct LeftObject {
    seats: u32,
    tag: u64,
    state: State,
}

/// What a closed table holds, if it has an object.
fn left_object(closed: &Closed) -> Option<LeftObject> {
    if closed.layout().parts().is_empty() {
        return None;
    }
    let mut state = State::new();
    closed.state(0, &mut state);
    Some(LeftObject {
        seats: closed.layout().seats(),
        tag: closed.tag(0),
        state,
    })
}

/// Lanes of the two tasks that share a cell: how many there are, and the tag and the value that they leave.
#[derive(Clone, Copy)]
struct TableCase {
    words: &'static str,
    seats: u32,
    tag: u64,
    value: u32,
}

#[test]
fn leaves_the_table_of_the_lanes(rt: HostRuntime) -> Result<(), Fail> {
    for want in [
        TableCase {
            words: "lanes 1 2",
            seats: 1,
            tag: 4,
            value: 12,
        },
        TableCase {
            words: "lanes 4 50",
            seats: 4,
            tag: 100,
            value: 300,
        },
        TableCase {
            words: "lanes 16 1",
            seats: 16,
            tag: 2,
            value: 6,
        },
    ] {
        let Ending { status, left, .. } = answer(
            &rt,
            rt.alloc(),
            &Case::new(want.words, SHARED),
            &NoGate,
        )?;
        assert_eq!(&rt; status, Status::Done, "{} lanes", want.seats);
        let Left::Closed { closed } = left else {
            return Err("no table".into());
        };
        let Some(found) = left_object(&closed) else {
            return Err("no object".into());
        };
        assert_eq!(&rt; found.seats, want.seats, "{} lanes", want.seats);
        assert_eq!(&rt; found.tag, want.tag, "{} lanes", want.seats);
        assert_eq!(&rt;
            found.state.as_slice(),
            [want.value].as_slice(),
            "{} lanes",
            want.seats
        );
    }
    Ok(())
}

/// Sixteen tasks that add to one cell.
const SIXTEEN: &str = r#"
object = [{name="c", kind="cell"}]
task = [
  {name="a", period=10, body=["add c 1"]}, {name="b", period=10, body=["add c 1"]},
  {name="d", period=10, body=["add c 1"]}, {name="e", period=10, body=["add c 1"]},
  {name="f", period=10, body=["add c 1"]}, {name="g", period=10, body=["add c 1"]},
  {name="h", period=10, body=["add c 1"]}, {name="i", period=10, body=["add c 1"]},
  {name="j", period=10, body=["add c 1"]}, {name="k", period=10, body=["add c 1"]},
  {name="l", period=10, body=["add c 1"]}, {name="m", period=10, body=["add c 1"]},
  {name="n", period=10, body=["add c 1"]}, {name="o", period=10, body=["add c 1"]},
  {name="p", period=10, body=["add c 1"]}, {name="q", period=10, body=["add c 1"]},
]
"#;

/// Counts the lanes that are at their first operation. Each waits there for all others, some seconds at the most, and says
/// so where it waits in vain.
#[derive(Drop)]
struct Meeting<'a> {
    rt: &'a HostRuntime,
    lanes: u64,
    here: AtomicU64,
    missed: AtomicBool,
}

impl<'a> Gate for Meeting<'a> {
    fn pass(&self, _lane: u32, index: u64) {
        if index != 1 {
            return;
        }
        let _before = self.here.fetch_add(1, Ordering::SeqCst);
        for _ in 0..5_000 {
            if self.here.load(Ordering::SeqCst) == self.lanes
                || self.missed.load(Ordering::SeqCst)
            {
                return;
            }
            sleep(self.rt, Duration::from_millis(1));
        }
        self.missed.store(true, Ordering::SeqCst);
    }
}

/// Lanes of the sixteen tasks, and how many there are.
#[derive(Clone, Copy)]
struct MeetingCase {
    words: &'static str,
    lanes: u64,
}

#[test]
fn lanes_meet(rt: HostRuntime) -> Result<(), Fail> {
    for MeetingCase { words, lanes } in [
        MeetingCase {
            words: "lanes 2 1",
            lanes: 2,
        },
        MeetingCase {
            words: "lanes 4 1",
            lanes: 4,
        },
        MeetingCase {
            words: "lanes 8 1",
            lanes: 8,
        },
        MeetingCase {
            words: "lanes 16 1",
            lanes: 16,
        },
    ] {
        let meeting = Meeting {
            rt: &rt,
            lanes,
            here: AtomicU64::new(0),
            missed: AtomicBool::new(false),
        };
        let ending = answer(&rt, rt.alloc(), &Case::new(words, SIXTEEN), &meeting)?;
        assert_eq!(&rt; ending.status, Status::Done, "{words}");
        assert!(&rt; !meeting.missed.load(Ordering::SeqCst), "{words}");
        assert_eq!(&rt; meeting.here.load(Ordering::SeqCst), lanes, "{words}");
        assert!(&rt;
            ending
                .taken
                .as_slice()
                .ends_with(b"object c cell tag 16 state 16\ntotal calls 16\n"),
            "{words}"
        );
    }
    Ok(())
}

/// Four tasks that add to a cell and look at it, and take from a queue that stays empty.
const LOOKS: &str = r#"
object = [{name="c", kind="cell"}, {name="q", kind="queue", capacity=1}]
task = [
  {name="a", period=100, body=["get c", "add c 1", "get c", "take q"]},
  {name="b", period=100, body=["add c 1", "add c 0", "take q", "get c"]},
  {name="d", period=100, body=["take q", "get c", "get c", "add c 1"]},
  {name="e", period=100, body=["swap c 5 5", "add c 1", "take q", "get c"]},
]
"#;

#[test]
fn looks_raise_no_tag(rt: HostRuntime) -> Result<(), Fail> {
    for words in ["lanes 1 10", "lanes 2 10", "lanes 4 10"] {
        let ending = answer(&rt, rt.alloc(), &Case::new(words, LOOKS), &NoGate)?;
        assert_eq!(&rt; ending.status, Status::Done, "{words}");
        assert!(&rt;
            ending.taken.as_slice().ends_with(
                b"object c cell tag 40 state 40\nobject q queue tag 0 state\ntotal calls 160\n"
            ),
            "{words}"
        );
    }
    Ok(())
}
