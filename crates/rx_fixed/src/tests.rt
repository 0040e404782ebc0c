// Sets whose least times are worked out by hand.
ghost use Rattle.rx_set.specs.declared.policies.Policy.TheVariants.{Edf};
ghost use Rattle.std.specs.Prelude.{◌≡◌, ◌≢◌, ◌≤◌, length, IfOk};

use super::*;
use rx_seq::{Call, Kind, Part};
use rx_set::{Body, Item, Name, Object, Policy, Task, TaskSet};
use std::alloc::Global;
use std::test::Fail;

/// A task of period 10 that adds to a cell, and one of period 20 that works, adds to it and works.
fn on_a_cell(alloc: Global, deadline: u64) -> Result<TaskSet, Fail>
    requires { (1 ≤ deadline) × (deadline ≤ 20) }
    ensures policy { IfOk result (λ set. set.policy ≢ Edf) }
    ensures count { IfOk result (λ set. length set.tasks ≡ 2) }
{
    let cell = Object {
        name: Name::from("c")?,
        part: Part {
            kind: Kind::Cell,
            cap: 1,
        },
    };
    let add = Item::Op {
        object: 0,
        call: Call::Add { v: 1 },
    };
    let work = Item::Work { n: 1 };
    let short = Task {
        name: Name::from("a")?,
        period: 10,
        deadline: 10,
        offset: 0,
        body: Body::of(vec![in alloc; add]?),
    };
    let long = Task {
        name: Name::from("b")?,
        period: 20,
        deadline,
        offset: 0,
        body: Body::of(vec![in alloc; work, add, work]?),
    };
    Ok(TaskSet::build(
        Policy::Rm,
        vec![in alloc; cell]?,
        vec![in alloc; short, long]?,
        Vec::new(alloc),
    ))
}

/// Two tasks that only look at a cell, and so spoil nobody.
fn that_look(alloc: Global) -> Result<TaskSet, Fail>
    ensures policy { IfOk result (λ set. set.policy ≢ Edf) }
    ensures count { IfOk result (λ set. length set.tasks ≡ 2) }
{
    let cell = Object {
        name: Name::from("c")?,
        part: Part {
            kind: Kind::Cell,
            cap: 1,
        },
    };
    let get = Item::Op {
        object: 0,
        call: Call::Get,
    };
    let work = Item::Work { n: 1 };
    let short = Task {
        name: Name::from("a")?,
        period: 10,
        deadline: 10,
        offset: 0,
        body: Body::of(vec![in alloc; get]?),
    };
    let long = Task {
        name: Name::from("b")?,
        period: 20,
        deadline: 20,
        offset: 0,
        body: Body::of(vec![in alloc; work, get, work]?),
    };
    Ok(TaskSet::build(
        Policy::Rm,
        vec![in alloc; cell]?,
        vec![in alloc; short, long]?,
        Vec::new(alloc),
    ))
}

/// Three tasks of periods 100, 200 and 400, each with one call on a queue of one number, whose attempts take 8 ticks.
fn on_a_queue(alloc: Global) -> Result<TaskSet, Fail>
    ensures policy { IfOk result (λ set. set.policy ≢ Edf) }
    ensures count { IfOk result (λ set. length set.tasks ≡ 3) }
{
    let queue = Object {
        name: Name::from("q")?,
        part: Part {
            kind: Kind::Queue,
            cap: 1,
        },
    };
    let put = Item::Op {
        object: 0,
        call: Call::Put { v: 7 },
    };
    let take = Item::Op {
        object: 0,
        call: Call::Take,
    };
    let first = Task {
        name: Name::from("a")?,
        period: 100,
        deadline: 100,
        offset: 0,
        body: Body::of(vec![in alloc; put]?),
    };
    let second = Task {
        name: Name::from("b")?,
        period: 200,
        deadline: 200,
        offset: 0,
        body: Body::of(vec![in alloc; take]?),
    };
    let third = Task {
        name: Name::from("d")?,
        period: 400,
        deadline: 400,
        offset: 0,
        body: Body::of(vec![in alloc; take]?),
    };
    Ok(TaskSet::build(
        Policy::Dm,
        vec![in alloc; queue]?,
        vec![in alloc; first, second, third]?,
        Vec::new(alloc),
    ))
}

/// A task of period 5 and one of period 12 and deadline 6, which share nothing. The second one stands first in the file.
fn of_work(alloc: Global) -> Result<TaskSet, Fail>
    ensures policy { IfOk result (λ set. set.policy ≢ Edf) }
    ensures count { IfOk result (λ set. length set.tasks ≡ 2) }
{
    let second = Task {
        name: Name::from("b")?,
        period: 12,
        deadline: 6,
        offset: 0,
        body: Body::of(vec![in alloc; Item::Work { n: 3 }]?),
    };
    let first = Task {
        name: Name::from("a")?,
        period: 5,
        deadline: 5,
        offset: 0,
        body: Body::of(vec![in alloc; Item::Work { n: 2 }]?),
    };
    Ok(TaskSet::build(
        Policy::Rm,
        Vec::new(alloc),
        vec![in alloc; second, first]?,
        Vec::new(alloc),
    ))
}

/// A task that works for longer than its period.
fn of_too_much_work(alloc: Global) -> Result<TaskSet, Fail>
    ensures policy { IfOk result (λ set. set.policy ≢ Edf) }
    ensures count { IfOk result (λ set. length set.tasks ≡ 1) }
{
    let task = Task {
        name: Name::from("a")?,
        period: 2,
        deadline: 2,
        offset: 0,
        body: Body::of(vec![in alloc; Item::Work { n: 3 }]?),
    };
    Ok(TaskSet::build(
        Policy::Rm,
        Vec::new(alloc),
        vec![in alloc; task]?,
        Vec::new(alloc),
    ))
}

/// Whether these are the least times of the ranks, and this is what the test answers.
fn has_answers(set: &TaskSet, times: &[Option<u64>], verdict: Verdict) -> bool
    requires policy { set.now.policy ≢ Edf }
    requires count { length times.now ≡ length set.now.tasks }
    requires few { length times.now ≤ 64 }
{
    for place in 0..times.len() {
        if least(set, place as u32 + 1) != times[place] {
            return false;
        }
    }
    test(set) == verdict
}

#[test]
fn serves_each_rank(rt: HostRuntime) -> Result<(), Fail> {
    let alloc = rt.alloc();
    let second = Verdict::No { rank: 2 };
    let on_cell = on_a_cell(alloc, 20)?;
    assert!(rt; has_answers(&on_cell, &[Some(2), Some(8)], Verdict::Yes));
    let just_in_time = on_a_cell(alloc, 8)?;
    assert!(rt; has_answers(&just_in_time, &[Some(2), Some(8)], Verdict::Yes));
    let tick_wanting = on_a_cell(alloc, 7)?;
    assert!(rt; has_answers(&tick_wanting, &[Some(2), None], second));
    let on_queue = on_a_queue(alloc)?;
    assert!(rt; has_answers(&on_queue, &[Some(8), Some(24), Some(40)], Verdict::Yes));
    let looks = that_look(alloc)?;
    assert!(rt; has_answers(&looks, &[Some(2), Some(6)], Verdict::Yes));
    let work = of_work(alloc)?;
    assert!(rt; has_answers(&work, &[Some(2), Some(5)], Verdict::Yes));
    let too_much = of_too_much_work(alloc)?;
    assert!(rt; has_answers(&too_much, &[None], Verdict::No { rank: 1 }));
    Ok(())
}
