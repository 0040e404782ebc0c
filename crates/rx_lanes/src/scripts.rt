// How many operations there are in scripts.
ghost use Rattle.rx_set.specs.Operations.{script_of};
ghost use Rattle.rx_lanes.specs.Scripts.{calls_to};
ghost use Rattle.std.specs.Prelude.{◌≡◌, ◌≤◌, ◌<◌, ◌*◌, length};

use rx_set::TaskSet;

/// How many operations the script of a task has, for so many jobs. Its cost grows with the number of items of its body.
pub(crate) fn count_script(set: &TaskSet, jobs: u32, task: usize) -> usize
    requires task { task < length set.now.tasks }
    requires jobs { jobs ≤ 200 }
    ensures count { result ≡ length (script_of set.now jobs task) }
    ensures few { result ≤ 12800 }
{
    jobs as usize * set.tasks()[task].body.operations()
}

/// How many operations a lane makes for its tasks among the first so many. Its cost grows with the number of their items.
pub(crate) fn count_calls(set: &TaskSet, jobs: u32, workers: u32, lane: u32, tasks: usize) -> usize
    requires tasks { tasks ≤ length set.now.tasks }
    requires jobs { jobs ≤ 200 }
    requires workers { 1 ≤ workers }
    ensures count { result ≡ length (calls_to set.now jobs workers lane tasks) }
    ensures few { result ≤ tasks * 12800 }
{
    let _valid = set.tasks();
    let mut count = 0;
    for task in 0..tasks {
        if task % workers as usize == lane as usize {
            count += count_script(set, jobs, task);
        }
    }
    count
}
