// Two tasks that add to one cell, by one lane and by several, and gates that lanes pass.
use super::*;
use rx_seq::{Call, Kind, NoMemory, Part, State};
use rx_set::{Body, Item, Name, Object, Policy, Task, TaskSet, generate};
use std::alloc::Global;
use std::array::from_fn;
use std::process::Abort;
use std::sync::atomic::{AtomicBool, AtomicU64, Ordering};
use std::test::Fail;

/// A task that adds 1 to a cell twice, and one that adds 5 to it.
fn two_tasks(alloc: Global) -> Result<TaskSet, Fail> {
    let one = Item::Op {
        object: 0,
        call: Call::Add { v: 1 },
    };
    let five = Item::Op {
        object: 0,
        call: Call::Add { v: 5 },
    };
    let a = Task {
        name: Name::from("a")?,
        period: 10,
        deadline: 10,
        offset: 0,
        body: Body::of(vec![in alloc; one, one]?),
    };
    let b = Task {
        name: Name::from("b")?,
        period: 20,
        deadline: 20,
        offset: 0,
        body: Body::of(vec![in alloc; Item::Work { n: 1 }, five]?),
    };
    let cell = Object {
        name: Name::from("c")?,
        part: Part {
            kind: Kind::Cell,
            cap: 1,
        },
    };
    let objects = vec![in alloc; cell]?;
    let tasks = vec![in alloc; a, b]?;
    let demands = Vec::new(alloc);
    Ok(TaskSet::build(Policy::Rm, objects, tasks, demands))
}

/// Two lanes, each of which says that it is at its first operation, and looks for the other one.
#[derive(Drop)]
struct Meeting {
    here: [AtomicBool; 2],
    met: [AtomicBool; 2],
}

impl Gate for Meeting {
    fn pass(&self, lane: u32, index: u64) {
        if index != 1 || lane > 1 {
            return;
        }
        let (mine, other) = if lane == 0 { (0, 1) } else { (1, 0) };
        self.here[mine].store(true, Ordering::SeqCst);
        for _ in 0..200_000_000 {
            if self.here[other].load(Ordering::SeqCst) {
                self.met[mine].store(true, Ordering::SeqCst);
                return;
            }
        }
    }
}

#[test]
fn lanes_meet(rt: HostRuntime) -> Result<(), Fail> {
    let set = two_tasks(rt.alloc())?;
    let meeting = Meeting {
        here: [AtomicBool::new(false), AtomicBool::new(false)],
        met: [AtomicBool::new(false), AtomicBool::new(false)],
    };
    match run_lanes(&rt, rt.alloc(), &set, 2, 1, &meeting) {
        Ok(run) => assert_eq!(&rt; run.merged.len(), 3),
        Err(NoMemory) => return Err("no memory".into()),
    }
    for lane in 0..2 {
        assert!(&rt; meeting.met[lane].load(Ordering::SeqCst), "lane {lane}");
    }
    Ok(())
}

/// Checks what a run of 50 jobs left.
fn check_adds(rt: &impl Abort, run: &Run, workers: u32) {
    let layout = run.closed.layout();
    assert!(rt; 0 < layout.parts().len());
    let mut state = State::new();
    run.closed.state(0, &mut state);
    assert_eq!(rt; run.closed.tag(0), 150, "{workers} lanes");
    assert_eq!(rt; state.as_slice(), [350].as_slice(), "{workers} lanes");
    assert_eq!(rt; run.lists.len(), 2, "{workers} lanes");
    assert_eq!(rt; run.merged.len(), 150, "{workers} lanes");
}

#[test]
fn adds_of_two_tasks(rt: HostRuntime) -> Result<(), Fail> {
    let set = two_tasks(rt.alloc())?;
    for workers in [1, 2, 4] {
        let run = match run_lanes(&rt, rt.alloc(), &set, workers, 50, &NoGate) {
            Ok(run) => run,
            Err(NoMemory) => return Err("no memory".into()),
        };
        check_adds(&rt, &run, workers);
    }
    Ok(())
}

/// Counts the operations of each lane, and says whether one of them had not the next number of its lane, or its lane a
/// number above 15.
#[derive(Drop)]
struct Counting {
    passed: [AtomicU64; 16],
    astray: AtomicBool,
}

impl Gate for Counting {
    fn pass(&self, lane: u32, index: u64) {
        match self.passed.get(lane as usize) {
            Some(passed) => {
                let before = passed.fetch_add(1, Ordering::SeqCst);
                if before.checked_add(1) != Some(index) {
                    self.astray.store(true, Ordering::SeqCst);
                }
            }
            None => self.astray.store(true, Ordering::SeqCst),
        }
    }
}

/// Checks that each operation had its number, and that the lanes made so many of them, and further lanes none.
fn check_counts(rt: &impl Abort, counting: &Counting, workers: u32, want: &[u64]) {
    assert!(rt; !counting.astray.load(Ordering::SeqCst), "{workers} lanes");
    for lane in 0..16 {
        let count = counting.passed[lane].load(Ordering::SeqCst);
        assert_eq!(rt;
            count,
            want.get(lane).copied().unwrap_or(0),
            "lane {lane} of {workers}"
        );
    }
}

#[test]
fn lanes_count_their_operations(rt: HostRuntime) -> Result<(), Fail> {
    let set = two_tasks(rt.alloc())?;
    // A lane makes its whole tasks.
    for (workers, want) in [(1, [150].as_slice()), (2, [100, 50].as_slice())] {
        let counting = Counting {
            passed: from_fn(|_| AtomicU64::new(0)),
            astray: AtomicBool::new(false),
        };
        match run_lanes(&rt, rt.alloc(), &set, workers, 50, &counting) {
            Ok(run) => check_adds(&rt, &run, workers),
            Err(NoMemory) => return Err("no memory".into()),
        }
        check_counts(&rt, &counting, workers, want);
    }
    Ok(())
}

/// How many operations the tasks of a lane of four make in five jobs.
fn operations_of(set: &TaskSet, lane: usize) -> u64 {
    let mut count: u64 = 0;
    for (number, task) in set.tasks().iter().enumerate() {
        if number % 4 == lane {
            count = count.saturating_add(task.body.operations() as u64);
        }
    }
    count.saturating_mul(5)
}

#[test]
fn each_lane_of_four_counts_its_operations(rt: HostRuntime) -> Result<(), Fail> {
    // A drawn set that has operations for each of four lanes.
    let set = match generate(rt.alloc(), 2) {
        Ok(set) => set,
        Err(NoMemory) => return Err("no memory".into()),
    };
    let counting = Counting {
        passed: from_fn(|_| AtomicU64::new(0)),
        astray: AtomicBool::new(false),
    };
    if run_lanes(&rt, rt.alloc(), &set, 4, 5, &counting).is_err() {
        return Err("no memory".into());
    }
    let want = [
        operations_of(&set, 0),
        operations_of(&set, 1),
        operations_of(&set, 2),
        operations_of(&set, 3),
    ];
    for lane in 0..4 {
        assert!(&rt; want[lane] > 0, "lane {lane}");
    }
    check_counts(&rt, &counting, 4, &want);
    Ok(())
}

/// Whether a flag is set before so many turns have passed.
fn is_set_in_time(flag: &AtomicBool) -> bool {
    for _ in 0..200_000_000 {
        if flag.load(Ordering::SeqCst) {
            return true;
        }
    }
    false
}

/// Lane 0 waits before its first operation until lane 1 is at its third one, and lane 1 before its first one until lane
/// 0 is at its own. Were the gate passed after an operation, lane 0 would make its first one before lane 1 makes its
/// second one.
#[derive(Drop)]
struct Waiting {
    first: AtomicBool,
    third: AtomicBool,
    saw_first: AtomicBool,
    saw_third: AtomicBool,
}

impl Gate for Waiting {
    fn pass(&self, lane: u32, index: u64) {
        match (lane, index) {
            (0, 1) => {
                self.first.store(true, Ordering::SeqCst);
                self.saw_third
                    .store(is_set_in_time(&self.third), Ordering::SeqCst);
            }
            (1, 1) => self
                .saw_first
                .store(is_set_in_time(&self.first), Ordering::SeqCst),
            (1, 3) => self.third.store(true, Ordering::SeqCst),
            _ => {}
        }
    }
}

/// The tag of an entry of a task, both by their numbers from 0.
fn tag_at(run: &Run, task: usize, place: usize) -> Option<u64> {
    Some(run.lists.get(task)?.get(place)?.tag)
}

#[test]
fn gates_are_passed_before(rt: HostRuntime) -> Result<(), Fail> {
    let set = two_tasks(rt.alloc())?;
    let waiting = Waiting {
        first: AtomicBool::new(false),
        third: AtomicBool::new(false),
        saw_first: AtomicBool::new(false),
        saw_third: AtomicBool::new(false),
    };
    let run = match run_lanes(&rt, rt.alloc(), &set, 2, 3, &waiting) {
        Ok(run) => run,
        Err(NoMemory) => return Err("no memory".into()),
    };
    assert!(&rt; waiting.saw_first.load(Ordering::SeqCst));
    assert!(&rt; waiting.saw_third.load(Ordering::SeqCst));
    let Some(later) = tag_at(&run, 0, 0) else {
        return Err("no entry of lane 0".into());
    };
    for place in 0..2 {
        let Some(earlier) = tag_at(&run, 1, place) else {
            return Err("too few entries of lane 1".into());
        };
        assert!(&rt; earlier < later, "{earlier} and {later}");
    }
    Ok(())
}
