// Sets that are drawn from a number.
ghost use Rattle.std.specs.Prelude.{◌≡◌, ◌≤◌, ◌<◌, ◌+◌, length, map, IfOk};
ghost use Rattle.rx_set.specs.Generator.{draw, four_objects, generated, in_turn, item_drawn, name_of, object_named, policy_drawn, task_drawn, transaction};
ghost use Rattle.rx_set.specs.Valid.{IsValid};
ghost use Rattle.rx_set.specs.View.{object_row, row_of};

use crate::items::{Body, Item};
use crate::objects::Object;
use crate::policies::Policy;
use crate::sets::TaskSet;
use crate::tasks::{Name, Task};
use rand_core::SeedableRng;
use rand_core::utils::NextWord;
use rand_xoshiro::Xoshiro256PlusPlus;
use rx_seq::{Call, Kind, NoMemory, Part, Row};
use std::alloc::Global;

/// The number of the cell among the objects.
const CELL: u32 = 0;

/// That of the queue.
const QUEUE: u32 = 1;

/// That of the list.
const LIST: u32 = 2;

/// That of the registers.
const REGISTERS: u32 = 3;

/// The next word of a generator modulo `m`.
#[tactic(auto, unfolding(crate::specs::Generator::draw))]
fn draw(rng: &mut Xoshiro256PlusPlus, m: u32) -> u32
    requires { 1 ≤ m }
    ensures value { result ≡ (draw m rng.old).value }
    ensures after { rng.new ≡ (draw m rng.old).after }
    ensures below { result < m }
{
    (rng.next_word() % u64::from(m)) as u32
}

/// The policy.
fn draw_policy(rng: &mut Xoshiro256PlusPlus) -> Policy
    ensures value { result ≡ (policy_drawn rng.old).value }
    ensures after { rng.new ≡ (policy_drawn rng.old).after }
{
    if draw(rng, 2) == 0 {
        Policy::Rm
    } else {
        Policy::Edf
    }
}

/// A transaction on one of the registers.
fn draw_transaction(rng: &mut Xoshiro256PlusPlus) -> Item
    ensures value { result ≡ (transaction rng.old).value }
    ensures after { rng.new ≡ (transaction rng.old).after }
{
    let i = draw(rng, 4);
    let old = draw(rng, 2);
    let new = draw(rng, 2);
    let none = Row::default();
    Item::Op {
        object: REGISTERS,
        call: Call::Multi {
            count: 1,
            rows: [Row { i, old, new }, none, none, none],
        },
    }
}

/// A call on an object.
fn on(object: u32, call: Call) -> Item
    ensures { result ≡ Item.Op object call }
{
    Item::Op { object, call }
}

/// An item of a body: work in two of eight cases, and else one of six calls.
fn draw_item(rng: &mut Xoshiro256PlusPlus) -> Item
    ensures value { result ≡ (item_drawn rng.old).value }
    ensures after { rng.new ≡ (item_drawn rng.old).after }
{
    let way = draw(rng, 8);
    match way {
        0 | 1 => Item::Work {
            n: u64::from(1 + draw(rng, 5)),
        },
        2 => {
            let v = 1 + draw(rng, 9);
            on(CELL, Call::Add { v })
        }
        3 => {
            let v = draw(rng, 100);
            on(QUEUE, Call::Put { v })
        }
        4 => on(QUEUE, Call::Take),
        5 => {
            let k = draw(rng, 16);
            on(LIST, Call::Insert { k })
        }
        6 => {
            let k = draw(rng, 16);
            on(LIST, Call::Remove { k })
        }
        _ => draw_transaction(rng),
    }
}

/// So many items, one after the other.
fn draw_items(
    alloc: Global,
    rng: &mut Xoshiro256PlusPlus,
    count: u32,
) -> Result<Vec<Item>, NoMemory>
    ensures { IfOk result (λ items. (items.items ≡ (in_turn (λ _. item_drawn) count rng.old).value)
        × (rng.new ≡ (in_turn (λ _. item_drawn) count rng.old).after)) }
{
    let mut items = Vec::new(alloc);
    for _ in 0..count {
        let item = draw_item(rng);
        let Ok(()) = items.push(item) else {
            return Err(NoMemory);
        };
    }
    Ok(items)
}

/// A name of these bytes.
fn named(text: &str) -> Name
    requires { length text.now ≤ 16 }
    ensures { result.bytes ≡ text.now }
{
    let mut name = Name::new();
    name.push_str(text);
    name
}

/// The name of a task by its number: t and the number, which has one digit.
fn name_of_task(number: u32) -> Name
    requires { number ≤ 9 }
    ensures { result.bytes ≡ name_of number }
{
    let mut name = named("t");
    name.push(char::from(b'0' + number as u8));
    name
}

/// The task at a place.
fn draw_task(alloc: Global, rng: &mut Xoshiro256PlusPlus, place: u32) -> Result<Task, NoMemory>
    requires { place < 9 }
    ensures { IfOk result (λ task. (row_of task ≡ (task_drawn place rng.old).value)
        × (rng.new ≡ (task_drawn place rng.old).after)) }
{
    let period = 20 * (1 + u64::from(draw(rng, 50)));
    let offset = u64::from(draw(rng, 100));
    let more = draw(rng, 4);
    let items = draw_items(alloc, rng, 1 + more)?;
    Ok(Task {
        name: name_of_task(place + 1),
        period,
        deadline: period,
        offset,
        body: Body::of(items),
    })
}

/// So many tasks, one after the other.
fn draw_tasks(
    alloc: Global,
    rng: &mut Xoshiro256PlusPlus,
    count: u32,
) -> Result<Vec<Task>, NoMemory>
    requires { count ≤ 9 }
    ensures { IfOk result (λ tasks. map row_of tasks.items ≡ (in_turn task_drawn count rng.old).value) }
{
    let mut tasks = Vec::new(alloc);
    for place in 0..count {
        let task = draw_task(alloc, rng, place)?;
        let Ok(()) = tasks.push(task) else {
            return Err(NoMemory);
        };
    }
    Ok(tasks)
}

/// An object of this name, kind and capacity.
fn object(text: &str, kind: Kind, cap: u32) -> Object
    requires { length text.now ≤ 16 }
    ensures { object_row result ≡ object_named text.now kind cap }
{
    Object {
        name: named(text),
        part: Part { kind, cap },
    }
}

/// The four objects of every such set.
fn objects(alloc: Global) -> Result<Vec<Object>, NoMemory>
    ensures { IfOk result (λ objects. map object_row objects.items ≡ four_objects) }
{
    let cell = object("c", Kind::Cell, 1);
    let queue = object("q", Kind::Queue, 4);
    let list = object("l", Kind::List, 8);
    let registers = object("r", Kind::Registers, 4);
    match vec![in alloc; cell, queue, list, registers] {
        Ok(objects) => Ok(objects),
        Err(_) => Err(NoMemory),
    }
}

/// The set that is drawn from a number, which is valid. Each choice is the next word, modulo a limit, of the generator
/// xoshiro256++ (Blackman and Vigna, 2021), which is seeded with the number by SplitMix64 (Steele, Lea and Flood, 2014). So
/// a number gives the same set at each call.
///
/// The policy is `Rm` or `Edf`. The objects are c, a cell; q, a queue of 4; l, a list of 8; and r, 4 registers. There are 4
/// to 8 tasks, named t1, t2 and so on, each with a period of 20 to 1,000 ticks, which is its deadline too, an offset below
/// 100 and 1 to 4 items, and there are no demand rows. `NoMemory` is the one refusal. It takes memory for the objects, the
/// tasks and the items alone, and constant time, since a set has at most 8 tasks of 4 items.
pub fn generate(alloc: Global, number: u64) -> Result<TaskSet, NoMemory>
    ensures set { IfOk result (λ set. set ≡ generated number) }
    ensures valid { IsValid (generated number) }
{
    let mut rng = Xoshiro256PlusPlus::seed_from_u64(number);
    let policy = draw_policy(&mut rng);
    let more = draw(&mut rng, 5);
    let tasks = draw_tasks(alloc, &mut rng, 4 + more)?;
    let objects = objects(alloc)?;
    Ok(TaskSet::build(policy, objects, tasks, Vec::new(alloc)))
}
