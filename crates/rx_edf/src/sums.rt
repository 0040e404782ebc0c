// Sums over all tasks.
ghost use Rattle.std.specs.Prelude.{◌≡◌, ◌≤◌, ◌<◌, ◌^◌, ◌*◌};
ghost use Rattle.rx_edf.specs.ChargedTasks.{AreChargedTasks, IsChargedTask, work_of_task as work_in_task, work_of as work_in, weighted_shortening_of_task as weighted_shortening_in_task, weighted_shortening_of as weighted_shortening_in, points_of_task as points_in_task, points_up_to as points_in, need_of_task as need_in_task, need_in};

use crate::charged_tasks::ChargedTask;

/// What the jobs of a task that are released in a cycle are charged with.
fn work_of_task(task: ChargedTask, cycle: u128) -> u128
    requires task { IsChargedTask task }
    requires cycle { cycle < 2 ^ 96 }
    ensures value { result ≡ work_in_task cycle task }
    ensures bound { result < 2 ^ 122 }
{
    u128::from(task.cost) * (cycle / u128::from(task.period))
}

/// What all jobs that are released in a cycle are charged with.
pub fn work_of(charged: &[ChargedTask], cycle: u128) -> u128
    requires charged { AreChargedTasks charged.now }
    requires cycle { cycle < 2 ^ 96 }
    ensures { result ≡ work_in charged.now cycle }
{
    let mut sum = 0;
    for place in 0..charged.len() {
        sum += work_of_task(charged[place], cycle);
    }
    sum
}

/// By how much a task's deadline is shorter than its period, weighted with its work in a cycle.
fn weighted_shortening_of_task(task: ChargedTask, cycle: u128) -> u128
    requires task { IsChargedTask task }
    requires cycle { cycle < 2 ^ 96 }
    ensures value { result ≡ weighted_shortening_in_task cycle task }
    ensures bound { result < 2 ^ 122 }
{
    let jobs = cycle / u128::from(task.period);
    u128::from(task.period - task.deadline) * jobs * u128::from(task.cost)
}

/// The sum of this over all tasks.
pub fn weighted_shortening_of(charged: &[ChargedTask], cycle: u128) -> u128
    requires charged { AreChargedTasks charged.now }
    requires cycle { cycle < 2 ^ 96 }
    ensures { result ≡ weighted_shortening_in charged.now cycle }
{
    let mut sum = 0;
    for place in 0..charged.len() {
        sum += weighted_shortening_of_task(charged[place], cycle);
    }
    sum
}

/// How many jobs of a task are released and due in `t` ticks.
fn points_of_task(task: ChargedTask, t: u128) -> u128
    requires task { IsChargedTask task }
    requires time { t < 2 ^ 96 }
    ensures value { result ≡ points_in_task t task }
    ensures bound { result ≤ 2 ^ 97 }
{
    let period = u128::from(task.period);
    (t + period - u128::from(task.deadline)) / period
}

/// How many jobs of all tasks are.
pub fn points_up_to(charged: &[ChargedTask], t: u128) -> u128
    requires charged { AreChargedTasks charged.now }
    requires time { t < 2 ^ 96 }
    ensures { result ≡ points_in charged.now t }
{
    let mut sum = 0;
    for place in 0..charged.len() {
        sum += points_of_task(charged[place], t);
    }
    sum
}

/// What the jobs of a task that are released and due in `t` ticks are charged with.
fn need_of_task(task: ChargedTask, t: u128) -> u128
    requires task { IsChargedTask task }
    requires time { t < 2 ^ 96 }
    ensures value { result ≡ need_in_task t task }
    ensures bound { result < 2 ^ 122 }
{
    points_of_task(task, t) * u128::from(task.cost)
}

/// What those of all tasks are.
pub fn need_at(charged: &[ChargedTask], t: u128) -> u128
    requires charged { AreChargedTasks charged.now }
    requires time { t < 2 ^ 96 }
    ensures { result ≡ need_in charged.now t }
{
    let mut sum = 0;
    for place in 0..charged.len() {
        sum += need_of_task(charged[place], t);
    }
    sum
}
