// Sets whose answers were worked out apart.
ghost use Rattle.rx_set.specs.declared.items.Item.TheVariants.{Work, Op};
ghost use Rattle.rx_seq.specs.declared.calls.Call.TheVariants.{Add};
ghost use Rattle.rx_set.specs.declared.policies.Policy.TheVariants.{Edf as edf};
ghost use Rattle.rx_set.specs.View.{row_of};
ghost use Rattle.std.specs.Prelude.{◌≡◌, ◌≤◌, [], ◌∷◌, IfOk};

use super::*;
use rx_seq::{Call, Kind, Part};
use rx_set::{Body, Item, Name, Object, Policy, Task, TaskSet};
use std::alloc::Global;
use std::test::Fail;

/// A period, a deadline, and the ticks of one work item.
#[derive(Clone, Copy, Debug, PartialEq, Eq)]
struct Line {
    period: u64,
    deadline: u64,
    ticks: u64,
}

fn row(period: u64, deadline: u64, ticks: u64) -> Line
    ensures { result ≡ record { period = period; deadline = deadline; ticks = ticks } }
{
    Line {
        period,
        deadline,
        ticks,
    }
}

/// A task that works.
fn worker(alloc: Global, name: Name, row: Line) -> Result<Task, Fail>
    ensures { IfOk result (λ task. row_of task ≡ record { name = name.bytes; period = row.period; deadline = row.deadline; offset = 0; items = Work row.ticks ∷ [] }) }
{
    Ok(Task {
        name,
        period: row.period,
        deadline: row.deadline,
        offset: 0,
        body: Body::of(vec![in alloc; Item::Work { n: row.ticks }]?),
    })
}

/// Two tasks that work.
fn two(alloc: Global, a: Line, b: Line) -> Result<TaskSet, Fail>
    requires a { (1 ≤ a.deadline) × (a.deadline ≤ a.period) × (a.period ≤ 1000000) × (1 ≤ a.ticks) × (a.ticks ≤ 1000000) }
    requires b { (1 ≤ b.deadline) × (b.deadline ≤ b.period) × (b.period ≤ 1000000) × (1 ≤ b.ticks) × (b.ticks ≤ 1000000) }
    ensures { IfOk result (λ set. set.policy ≡ edf) }
{
    let first = worker(alloc, Name::from("a")?, a)?;
    let second = worker(alloc, Name::from("b")?, b)?;
    let tasks = vec![in alloc; first, second]?;
    Ok(TaskSet::build(Policy::Edf, Vec::new(alloc), tasks, Vec::new(alloc)))
}

/// A task that adds to the first object.
fn adder(alloc: Global, name: Name, period: u64, deadline: u64) -> Result<Task, Fail>
    ensures { IfOk result (λ task. row_of task ≡ record { name = name.bytes; period = period; deadline = deadline; offset = 0; items = Op 0 (Add 1) ∷ [] }) }
{
    let adding = Item::Op {
        object: 0,
        call: Call::Add { v: 1 },
    };
    Ok(Task {
        name,
        period,
        deadline,
        offset: 0,
        body: Body::of(vec![in alloc; adding]?),
    })
}

/// Two tasks that add to one cell, the first with a deadline that may be short.
fn both_add(alloc: Global, period: u64, deadline: u64, other: u64) -> Result<TaskSet, Fail>
    requires a { (1 ≤ deadline) × (deadline ≤ period) × (period ≤ 1000000) }
    requires b { (1 ≤ other) × (other ≤ 1000000) }
    ensures { IfOk result (λ set. set.policy ≡ edf) }
{
    let cell = Object {
        name: Name::from("c")?,
        part: Part {
            kind: Kind::Cell,
            cap: 1,
        },
    };
    let first = adder(alloc, Name::from("a")?, period, deadline)?;
    let second = adder(alloc, Name::from("b")?, other, other)?;
    let objects = vec![in alloc; cell]?;
    let tasks = vec![in alloc; first, second]?;
    Ok(TaskSet::build(Policy::Edf, objects, tasks, Vec::new(alloc)))
}

/// Three tasks that work.
fn three(alloc: Global) -> Result<TaskSet, Fail>
    ensures { IfOk result (λ set. set.policy ≡ edf) }
{
    let first = worker(alloc, Name::from("a")?, row(2, 1, 1))?;
    let second = worker(alloc, Name::from("b")?, row(999996, 999996, 249999))?;
    let third = worker(alloc, Name::from("c")?, row(1000000, 1000000, 250000))?;
    let tasks = vec![in alloc; first, second, third]?;
    Ok(TaskSet::build(Policy::Edf, Vec::new(alloc), tasks, Vec::new(alloc)))
}

/// Five tasks whose periods have little in common.
fn five(alloc: Global) -> Result<TaskSet, Fail>
    ensures { IfOk result (λ set. set.policy ≡ edf) }
{
    let first = worker(alloc, Name::from("a")?, row(999983, 999983, 1))?;
    let second = worker(alloc, Name::from("b")?, row(999991, 999991, 1))?;
    let third = worker(alloc, Name::from("c")?, row(999997, 999997, 1))?;
    let fourth = worker(alloc, Name::from("d")?, row(999999, 999999, 1))?;
    let fifth = worker(alloc, Name::from("e")?, row(1000000, 1000000, 1))?;
    let tasks = vec![in alloc; first, second, third, fourth, fifth]?;
    Ok(TaskSet::build(Policy::Edf, Vec::new(alloc), tasks, Vec::new(alloc)))
}

#[test]
fn tasks_that_work(rt: HostRuntime) -> Result<(), Fail> {
    let crowded = two(rt.alloc(), row(4, 2, 2), row(8, 3, 2))?;
    assert_eq!(rt; test(&crowded), EdfVerdict::No { t: 3, need: 4 });
    let full = two(rt.alloc(), row(2, 1, 1), row(4, 4, 2))?;
    assert_eq!(rt; test(&full), EdfVerdict::Yes);
    assert_eq!(rt;
        test(&three(rt.alloc())?),
        EdfVerdict::Long {
            points: 124_999_999_999
        }
    );
    assert_eq!(rt; test(&five(rt.alloc())?), EdfVerdict::Wide);
    Ok(())
}

#[test]
fn tasks_that_add(rt: HostRuntime) -> Result<(), Fail> {
    let equal = both_add(rt.alloc(), 4, 4, 4)?;
    assert_eq!(rt; test(&equal), EdfVerdict::Yes);
    let over = both_add(rt.alloc(), 4, 4, 1000000)?;
    assert_eq!(rt;
        test(&over),
        EdfVerdict::No {
            t: 1_000_000,
            need: 1_000_002
        }
    );
    let roomy = both_add(rt.alloc(), 20, 6, 20)?;
    assert_eq!(rt; test(&roomy), EdfVerdict::Yes);
    let short = both_add(rt.alloc(), 20, 3, 20)?;
    assert_eq!(rt; test(&short), EdfVerdict::No { t: 3, need: 4 });
    Ok(())
}
