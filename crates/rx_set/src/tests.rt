// One set, under each policy, one whose tasks share a cell, and sets that are drawn from numbers.
ghost use Rattle.rx_set.specs.Rows.{pair};
ghost use Rattle.std.specs.Prelude.{◌≡◌, IfOk, length};

use super::*;
use rx_seq::{Call, Kind, Part, Row};
use std::alloc::Global;
use std::test::Fail;

/// A task of period 10, deadline 9 and offset 3, and one of period 20 and deadline 4. The second
/// job of this one needs more ticks for its work than stated.
fn two_tasks(alloc: Global, policy: Policy) -> Result<TaskSet, Fail>
    ensures { IfOk result (λ set. set ≡ pair policy) }
{
    let fast = Task {
        name: Name::from("fast")?,
        period: 10,
        deadline: 9,
        offset: 3,
        body: Body::of(vec![in alloc; Item::Work { n: 2 }]?),
    };
    let adding = Item::Op {
        object: 0,
        call: Call::Add { v: 1 },
    };
    let taking = Item::Op {
        object: 1,
        call: Call::Take,
    };
    let urgent = Task {
        name: Name::from("urgent")?,
        period: 20,
        deadline: 4,
        offset: 0,
        body: Body::of(vec![in alloc; adding, Item::Work { n: 1 }, taking]?),
    };
    let cell = Object {
        name: Name::from("c")?,
        part: Part {
            kind: Kind::Cell,
            cap: 1,
        },
    };
    let queue = Object {
        name: Name::from("q")?,
        part: Part {
            kind: Kind::Queue,
            cap: 1,
        },
    };
    let objects = vec![in alloc; cell, queue]?;
    let tasks = vec![in alloc; fast, urgent]?;
    let demand = Demand {
        task: 1,
        job: 2,
        item: 2,
        ticks: 4,
    };
    let demands = vec![in alloc; demand]?;
    Ok(TaskSet::build(policy, objects, tasks, demands))
}

#[test]
fn each_policy(rt: HostRuntime) -> Result<(), Fail> {
    let rows = [
        (Policy::Rm, 1, 1, 0, 3),
        (Policy::Dm, 2, 2, 0, 3),
        (Policy::Edf, 1, 32, 0, 3),
    ];
    for (policy, rank, first, second, third) in rows {
        let set = two_tasks(rt.alloc(), policy)?;
        let job = Job { task: 0, number: 3 };
        assert_eq!(rt; set.policy(), policy);
        assert_eq!(rt; set.tasks().len(), 2);
        assert_eq!(rt; set.rank(0), rank);
        assert_eq!(rt; set.ranked(set.rank(0)), 0);
        assert_eq!(rt; set.release(job), 23);
        assert_eq!(rt; set.due(job), 32);
        assert_eq!(rt;
            set.key(job),
            Key {
                first,
                second,
                third
            }
        );
        assert_eq!(rt; set.objects().len(), 2);
        assert_eq!(rt; set.attempt_cost(1), 8);
        assert_eq!(rt; set.retry_cost(), 8);
        assert_eq!(rt; set.cost(1), 11);
        assert_eq!(rt; set.demands().len(), 1);
        assert_eq!(rt; set.ticks(Job { task: 1, number: 2 }, 2), 4);
        assert_eq!(rt; set.ticks(Job { task: 1, number: 3 }, 2), 1);
        assert_eq!(rt; set.kept(), false);
    }
    Ok(())
}

/// A task that adds to a cell, and one that works before and after it does.
fn on_a_cell(alloc: Global) -> Result<TaskSet, Fail>
    ensures { IfOk result (λ set. length set.tasks ≡ 2) }
{
    let cell = Object {
        name: Name::from("c")?,
        part: Part {
            kind: Kind::Cell,
            cap: 1,
        },
    };
    let short = Task {
        name: Name::from("a")?,
        period: 10,
        deadline: 10,
        offset: 2,
        body: Body::of(vec![in alloc; add(1)]?),
    };
    let long = Task {
        name: Name::from("b")?,
        period: 20,
        deadline: 20,
        offset: 0,
        body: Body::of(vec![in alloc; work(1), add(5), work(1)]?),
    };
    let objects = vec![in alloc; cell]?;
    let tasks = vec![in alloc; short, long]?;
    Ok(TaskSet::build(Policy::Rm, objects, tasks, Vec::new(alloc)))
}

#[test]
fn costs_on_a_cell(rt: HostRuntime) -> Result<(), Fail> {
    let set = on_a_cell(rt.alloc())?;
    assert_eq!(rt; set.retry_cost(), 2);
    assert_eq!(rt; set.cost(0), 2);
    assert_eq!(rt; set.cost(1), 4);
    Ok(())
}

/// Whether a task of the set has this name, period, offset and items, and its period as its deadline.
fn has_task(
    set: &TaskSet,
    place: usize,
    name: &str,
    period: u64,
    offset: u64,
    items: &[Item],
) -> bool {
    match set.tasks().get(place) {
        None => false,
        Some(task) => {
            task.name.as_str() == name
                && task.period == period
                && task.deadline == period
                && task.offset == offset
                && task.body.items() == items
        }
    }
}

fn work(n: u64) -> Item
    ensures { result ≡ Item.Work n }
{
    Item::Work { n }
}

fn add(v: u32) -> Item
    ensures { result ≡ Item.Op 0 (Call.Add v) }
{
    Item::Op {
        object: 0,
        call: Call::Add { v },
    }
}

fn put(v: u32) -> Item {
    Item::Op {
        object: 1,
        call: Call::Put { v },
    }
}

fn take() -> Item {
    Item::Op {
        object: 1,
        call: Call::Take,
    }
}

fn insert(k: u32) -> Item {
    Item::Op {
        object: 2,
        call: Call::Insert { k },
    }
}

fn remove(k: u32) -> Item {
    Item::Op {
        object: 2,
        call: Call::Remove { k },
    }
}

fn multi(i: u32, old: u32, new: u32) -> Item {
    let none = Row::default();
    Item::Op {
        object: 3,
        call: Call::Multi {
            count: 1,
            rows: [Row { i, old, new }, none, none, none],
        },
    }
}

// The expected values of the drawn sets come from another implementation of the generator.

#[test]
fn drawn_from_the_least(rt: HostRuntime) -> Result<(), Fail> {
    let set = generate(rt.alloc(), 0)?;
    assert_eq!(rt; set.policy(), Policy::Edf);
    assert_eq!(rt; set.tasks().len(), 4);
    assert!(rt; has_task(&set, 0, "t1", 620, 30, &[add(6), work(3), remove(8)]));
    assert!(rt; has_task(&set, 1, "t2", 620, 9, &[add(3)]));
    assert!(rt; has_task(&set, 2, "t3", 220, 87, &[work(3)]));
    assert!(rt;
        has_task(
            &set,
            3,
            "t4",
            860,
            51,
            &[multi(1, 1, 1), work(3), take(), work(3)]
        )
    );
    Ok(())
}

#[test]
fn drawn_from_one(rt: HostRuntime) -> Result<(), Fail> {
    let set = generate(rt.alloc(), 1)?;
    assert_eq!(rt; set.policy(), Policy::Edf);
    assert_eq!(rt; set.tasks().len(), 4);
    assert!(rt; has_task(&set, 0, "t1", 900, 70, &[insert(7)]));
    assert!(rt; has_task(&set, 1, "t2", 920, 20, &[work(3), remove(9), add(8)]));
    assert!(rt; has_task(&set, 2, "t3", 620, 19, &[add(1), add(3), take()]));
    assert!(rt;
        has_task(
            &set,
            3,
            "t4",
            560,
            80,
            &[add(7), remove(15), multi(2, 1, 0)]
        )
    );
    Ok(())
}

#[test]
fn drawn_from_the_greatest(rt: HostRuntime) -> Result<(), Fail> {
    let set = generate(rt.alloc(), u64::MAX)?;
    assert_eq!(rt; set.policy(), Policy::Rm);
    assert_eq!(rt; set.tasks().len(), 6);
    assert!(rt; has_task(&set, 0, "t1", 720, 87, &[take(), work(1)]));
    assert!(rt;
        has_task(
            &set,
            1,
            "t2",
            160,
            31,
            &[take(), work(2), insert(5), put(32)]
        )
    );
    assert!(rt; has_task(&set, 2, "t3", 240, 1, &[insert(15)]));
    assert!(rt; has_task(&set, 3, "t4", 160, 90, &[remove(8)]));
    assert!(rt; has_task(&set, 4, "t5", 680, 10, &[add(4), remove(14)]));
    assert!(rt; has_task(&set, 5, "t6", 100, 6, &[put(53), work(3)]));
    Ok(())
}
