// What a lost attempt can cost each task.
ghost use Rattle.std.specs.List.{list_any};
ghost use Rattle.std.specs.Prelude.{ℕ, ◌≡◌, ◌<◌, ◌≤◌, ◌^◌, ◌&&◌, ◌||◌, [], get_or, length, map, nat_lt, slice_get, Some};
ghost use Rattle.rx_set.specs.declared.policies.Policy.TheVariants.{Rm};
ghost use Rattle.rx_seq.specs.History.{part_at};
ghost use Rattle.rx_seq.specs.Table.{IsPart};
ghost use Rattle.rx_set.specs.Charges.{changes, exposed_by, exposure, level_by};
ghost use Rattle.rx_set.specs.Exposures.{AreKnown, IsKnown, IsLowest};
ghost use Rattle.rx_set.specs.System.{largest, numbers, parts_of, rank};
ghost use Rattle.rx_set.specs.Valid.{IsValid};
ghost use Rattle.rx_set.specs.View.{system_of};

use crate::items::Item;
use crate::objects::Object;
use crate::policies::Policy;
use crate::sets::larger_of;
use crate::tasks::Task;
use arrayvec::ArrayVec;
use rx_seq::{attempt_steps, still};

/// The level of a task, of which the rank is known.
fn level_of(policy: Policy, task: &Task, place: u32) -> u64
    ensures { result ≡ level_by policy place task.now.deadline }
{
    match policy {
        Policy::Rm | Policy::Dm => u64::from(place),
        Policy::Edf => task.deadline,
    }
}

/// Lowers the level of the object that an item of a task of this level may change, if it is a call that may.
fn note_change(lowest: &mut [u64; 16], item: Item, most: u64)
    requires { IsKnown 16 item }
    ensures { (object above : ℕ) → object < 16 → nat_lt (get_or lowest.new object 0) above ≡ (nat_lt (get_or lowest.old object 0) above || (nat_lt most above && changes object item)) }
{
    if let Item::Op { object, call } = item {
        if !still(call) {
            lowest[object as usize] = lowest[object as usize].min(most);
        }
    }
}

/// The same for all items of a task.
fn note_changes(lowest: &mut [u64; 16], items: &[Item], most: u64)
    requires { AreKnown 16 items.now }
    ensures { (object above : ℕ) → object < 16 → nat_lt (get_or lowest.new object 0) above ≡ (nat_lt (get_or lowest.old object 0) above || (nat_lt most above && list_any (changes object) items.now)) }
{
    for item in items {
        note_change(lowest, *item, most);
    }
}

/// The lowest level of a task that may change each object. It is 2^64 - 1 for an object that no task may change.
fn lowest_levels(policy: Policy, objects: &[Object], tasks: &[Task], ranks: &[u32]) -> [u64; 16]
    requires valid { IsValid (system_of policy objects.now tasks.now []) }
    requires ranks { ranks.now ≡ map (rank (system_of policy objects.now tasks.now [])) (numbers (length tasks.now)) }
    ensures { IsLowest (system_of policy objects.now tasks.now []) (length tasks.now) result }
{
    let mut lowest = [u64::MAX; 16];
    for task in 0..tasks.len() {
        let most = level_of(policy, &tasks[task], ranks[task]);
        note_changes(&mut lowest, tasks[task].body.items(), most);
    }
    lowest
}

/// The ticks of an attempt of an item on an object that a task of a level below this may change.
fn exposed_of(objects: &[Object], lowest: &[u64; 16], item: Item, most: u64) -> u64
    requires known { IsKnown (length objects.now) item }
    requires few { length objects.now ≤ 16 }
    requires valid { (object : ℕ) → object < length objects.now → IsPart (part_at (parts_of (system_of Rm objects.now [] [])) object) }
    ensures { result ≡ exposed_by (λ object. nat_lt (get_or lowest.now object 0) most) (parts_of (system_of Rm objects.now [] [])) (Some item) }
{
    match item {
        Item::Work { .. } => 0,
        Item::Op { object, .. } => {
            if lowest[object as usize] < most {
                u64::from(attempt_steps(objects[object as usize].part))
            } else {
                0
            }
        }
    }
}

/// The longest such attempt of the items of a task.
fn longest_exposed(objects: &[Object], lowest: &[u64; 16], items: &[Item], most: u64) -> u64
    requires known { AreKnown (length objects.now) items.now }
    requires few { length objects.now ≤ 16 }
    requires valid { (object : ℕ) → object < length objects.now → IsPart (part_at (parts_of (system_of Rm objects.now [] [])) object) }
    ensures { result ≡ largest (λ place. exposed_by (λ object. nat_lt (get_or lowest.now object 0) most) (parts_of (system_of Rm objects.now [] [])) (slice_get items.now place)) (length items.now) }
{
    let mut longest = 0;
    for item in items {
        longest = larger_of(longest, exposed_of(objects, lowest, *item, most));
    }
    longest
}

/// The exposures of all tasks, in file order. It goes twice over all items.
pub(crate) fn exposures_of(
    policy: Policy,
    objects: &[Object],
    tasks: &[Task],
    ranks: &[u32],
) -> ArrayVec<u64, 64>
    requires valid { IsValid (system_of policy objects.now tasks.now []) }
    requires ranks { ranks.now ≡ map (rank (system_of policy objects.now tasks.now [])) (numbers (length tasks.now)) }
    ensures { result.items ≡ map (exposure (system_of policy objects.now tasks.now [])) (numbers (length tasks.now)) }
{
    let lowest = lowest_levels(policy, objects, tasks, ranks);
    let mut exposures = ArrayVec::new();
    for task in 0..tasks.len() {
        let most = level_of(policy, &tasks[task], ranks[task]);
        exposures.push(longest_exposed(objects, &lowest, tasks[task].body.items(), most));
    }
    exposures
}
