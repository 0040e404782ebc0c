//! Builds a small control loop in code, and asks whether it is admitted. A sensor puts samples into a queue and counts a
//! heartbeat; a controller takes two samples and reads the heartbeats. The second time the controller has a deadline that
//! is too short for the attempts that may be repeated.
#![tactic(auto)]

ghost use Rattle.rx_set.specs.declared.items.Item.TheVariants.{Op};
ghost use Rattle.rx_set.specs.declared.policies.Policy.TheVariants.{Rm};
ghost use Rattle.std.specs.Prelude.{◌≡◌, ◌≤◌, IfOk};

use rx_fixed::{Verdict, least, test};
use rx_seq::{Call, Kind, Part};
use rx_set::{Body, Item, Name, Object, Policy, Task, TaskSet};
use std::alloc::{AllocError, Global};
use std::io;

/// The number of the queue of samples among the objects.
const SAMPLES: u32 = 0;

/// The number of the cell that counts heartbeats.
const BEATS: u32 = 1;

/// A call on an object, as an item of a body.
fn op(object: u32, call: Call) -> Item
    ensures { result ≡ Op object call }
{
    Item::Op { object, call }
}

/// The control loop, under rate-monotonic priorities. The controller's deadline is given, in ticks.
fn control_loop(alloc: Global, deadline: u64) -> Result<TaskSet, AllocError>
    requires { (1 ≤ deadline) × (deadline ≤ 1000) }
    ensures policy { IfOk result (λ set. set.policy ≡ Rm) }
{
    let samples = Object {
        name: Name::from("samples").unwrap(),
        part: Part {
            kind: Kind::Queue,
            cap: 16,
        },
    };
    let beats = Object {
        name: Name::from("beats").unwrap(),
        part: Part {
            kind: Kind::Cell,
            cap: 1,
        },
    };
    let put = op(SAMPLES, Call::Put { v: 7 });
    let take = op(SAMPLES, Call::Take);
    let sensor = Task {
        name: Name::from("sensor").unwrap(),
        period: 500,
        deadline: 500,
        offset: 20,
        body: Body::of(vec![in alloc; Item::Work { n: 60 }, put, op(BEATS, Call::Add { v: 1 })]?),
    };
    let control = Task {
        name: Name::from("control").unwrap(),
        period: 1000,
        deadline,
        offset: 0,
        body: Body::of(vec![in alloc; take, take, Item::Work { n: 200 }, op(BEATS, Call::Get)]?),
    };
    let objects = vec![in alloc; samples, beats]?;
    let tasks = vec![in alloc; sensor, control]?;
    let demands = Vec::new(alloc);
    Ok(TaskSet::build(Policy::Rm, objects, tasks, demands))
}

/// Prints the answer of the test, and for each rank its least time beside its deadline.
fn print_admission(rt: &impl Print, set: &TaskSet) -> io::Result<()>
    requires policy { set.now.policy ≡ Rm }
{
    match test(set) {
        Verdict::Yes => println!(rt; "admitted: each task is served")?,
        Verdict::No { rank } => println!(rt; "not admitted: no time serves rank {rank}")?,
    }
    for rank in 1..=set.tasks().len() as u32 {
        let task = &set.tasks()[set.ranked(rank) as usize];
        let (name, deadline) = (task.name.as_str(), task.deadline);
        match least(set, rank) {
            Some(t) => println!(rt; "rank {rank} {name} least {t} deadline {deadline}")?,
            None => println!(rt; "rank {rank} {name} fails deadline {deadline}")?,
        }
    }
    Ok(())
}

fn main(rt: HostRuntime) -> io::Result<()> {
    print_admission(&rt, &control_loop(rt.alloc(), 1000)?)?;
    print_admission(&rt, &control_loop(rt.alloc(), 350)?)
}
