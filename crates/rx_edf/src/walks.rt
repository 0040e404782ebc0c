// A walk over the times at which jobs are due, in rising order.
ghost use Rattle.std.specs.Prelude.{◌≡◌, ◌≤◌, ◌<◌, ◌+◌, ◌-◌, ◌*◌, ◌^◌, ℕ, length, nat_lt};
ghost use Rattle.rx_set.specs.Admission.{first_to};
ghost use Rattle.rx_tree.specs.Trees.{key_at};
ghost use Rattle.rx_edf.specs.ChargedTasks.{AreChargedTasks, charged_task_at, need_in};

use crate::charged_tasks::ChargedTask;
use rx_tree::{LEAVES, Tree};

/// How many keys a tick has, one for each leaf: a key is this many times a time, and the number of a task.
const KEYS_A_TICK: u64 = LEAVES as u64;

/// A tree with the first time of each task.
fn start(charged: &[ChargedTask]) -> Tree
    requires { AreChargedTasks charged.now }
    ensures keys { (place : ℕ) → place < length charged.now → key_at result place ≡ LEAVES * (charged_task_at charged.now place).deadline + place }
    ensures rest { (place : ℕ) → length charged.now ≤ place → place < LEAVES → key_at result place ≡ 2 ^ 64 - 1 }
{
    let mut tree = Tree::new();
    for place in 0..charged.len() {
        tree.put(place, KEYS_A_TICK * charged[place].deadline + place as u64);
    }
    tree
}

/// The least time of at most `last` ticks in which more is due than fits.
pub fn first_failure(charged: &[ChargedTask], last: u64) -> Option<u64>
    requires charged { AreChargedTasks charged.now }
    requires near { last < 2 ^ 40 }
    ensures { result ≡ first_to (λ t. nat_lt t (need_in charged.now t)) last }
{
    let mut tree = start(charged);
    let mut need = 0;
    let mut key = tree.least();
    while key / KEYS_A_TICK <= last {
        let place = (key % KEYS_A_TICK) as usize;
        let task = charged[place];
        need += task.cost;
        if need > key / KEYS_A_TICK {
            return Some(key / KEYS_A_TICK);
        }
        tree.put(place, key + KEYS_A_TICK * task.period);
        key = tree.least();
    }
    None
}
