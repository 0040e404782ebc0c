// What the test looks at in each task.
ghost use Rattle.std.specs.Prelude.{◌≡◌, ◌<◌, length};
ghost use Rattle.rx_set.specs.declared.policies.Policy.TheVariants.{Edf};
ghost use Rattle.rx_edf.specs.ChargedTasks.{AreChargedTasks, IsChargedTask, charged_task_of as charged_task_in, charged_tasks_of as charged_tasks_in};

use arrayvec::ArrayVec;
use rx_set::TaskSet;

/// The period and the deadline of a task, and what each of its jobs is charged with: its stated cost, and what its release can
/// cost the tasks of longer deadlines. All are in ticks.
#[derive(Clone, Copy, Debug, Default, PartialEq, Eq)]
pub struct ChargedTask {
    pub period: u64,
    pub deadline: u64,
    pub cost: u64,
}

/// What the test looks at in a task.
fn charged_task_of(set: &TaskSet, task: usize) -> ChargedTask
    requires policy { set.now.policy ≡ Edf }
    requires known { task < length set.now.tasks }
    ensures value { result ≡ charged_task_in set.now task }
    ensures valid { IsChargedTask result }
{
    let row = &set.tasks()[task];
    ChargedTask {
        period: row.period,
        deadline: row.deadline,
        cost: set.cost(task as u32) + set.charge_edf(task as u32),
    }
}

/// What the test looks at in each task, in file order.
pub fn charged_tasks_of(set: &TaskSet) -> ArrayVec<ChargedTask, 64>
    requires { set.now.policy ≡ Edf }
    ensures value { result.items ≡ charged_tasks_in set.now }
    ensures valid { AreChargedTasks result.items }
{
    let mut charged = ArrayVec::new();
    for task in 0..set.tasks().len() {
        charged.push(charged_task_of(set, task));
    }
    charged
}
