// Verdicts.
ghost use Rattle.std.specs.Prelude.{ℕ, ◌≡◌, ◌≤◌, ◌<◌, ◌-◌, ◌^◌, ◌↔◌, ◌⊎◌, length};
ghost use Rattle.rx_set.specs.declared.policies.Policy.TheVariants.{Edf};
ghost use Rattle.rx_set.specs.System.{System, task_at};
ghost use Rattle.rx_set.specs.Admission.{due_need, EachSpanFits};
ghost use Rattle.rx_edf.specs.ChargedTasks.{AreChargedTasks, charged_tasks_of as charged_tasks_in, cycle_of as whole_of};
ghost use Rattle.rx_edf.specs.Verdicts.{cycle as cycle_in, work as work_in, points as points_in, last_by, verdict_of, verdict_in, verdict_to};
ghost use Rattle.rx_edf.specs.declared.verdicts.EdfVerdict.TheVariants.{Yes, No, Wide, Long};

use crate::charged_tasks::{ChargedTask, charged_tasks_of};
use crate::cycles::cycle_of;
use crate::sums::{need_at, points_up_to, weighted_shortening_of, work_of};
use crate::walks::first_failure;
use rx_set::TaskSet;

/// What the test answers. The need of t ticks is what the field calls the demand bound function of t, here with the
/// attempt that each job can make another one repeat.
#[derive(Clone, Copy, Debug, PartialEq, Eq)]
pub enum EdfVerdict {
    /// What is released and due in t ticks fits into them, for each t.
    Yes,
    /// In `t` ticks it does not: it needs `need` ticks.
    No { t: u128, need: u128 },
    /// The least common multiple of the periods, which the field calls the hyperperiod, is 2^96 or more.
    Wide,
    /// More than 1,000,000 jobs are due up to the last time that has to be looked at: so many.
    Long { points: u128 },
}

/// The last time that has to be looked at, where the work of a cycle fits into it and some deadline is short. The end of
/// the first busy period would be another one (Spuri, 1996), and is not computed.
fn last_point(cycle: u128, work: u128, weighted: u128) -> u128
    requires fits { work ≤ cycle }
    requires short { 1 ≤ weighted }
    ensures value { result ≡ last_by cycle (cycle - work) weighted }
    ensures bound { result ≤ cycle }
{
    if work == cycle {
        return cycle;
    }
    cycle.min((weighted - 1) / (cycle - work))
}

/// The answer that the times up to the last one give.
fn verdict_up_to(charged: &[ChargedTask], last: u128) -> EdfVerdict
    requires charged { AreChargedTasks charged.now }
    requires last { last < 2 ^ 96 }
    ensures { (system : System) → charged.now ≡ charged_tasks_in system → result ≡ verdict_to system last }
{
    let points = points_up_to(charged, last);
    if points > 1_000_000 {
        return EdfVerdict::Long { points };
    }
    match first_failure(charged, last as u64) {
        None => EdfVerdict::Yes,
        Some(t) => EdfVerdict::No {
            t: u128::from(t),
            need: need_at(charged, u128::from(t)),
        },
    }
}

/// The answer where the cycle is known. Its work over its ticks is the utilization of the tasks, as they are charged: it
/// must not be above 1 (Liu and Layland, 1973).
fn verdict_within(charged: &[ChargedTask], cycle: u128) -> EdfVerdict
    requires charged { AreChargedTasks charged.now }
    requires cycle { (cycle ≡ whole_of charged.now) × (cycle < 2 ^ 96) }
    ensures { (system : System) → charged.now ≡ charged_tasks_in system → result ≡ verdict_in system cycle }
{
    let work = work_of(charged, cycle);
    if work > cycle {
        return EdfVerdict::No {
            t: cycle,
            need: work,
        };
    }
    let weighted = weighted_shortening_of(charged, cycle);
    if weighted == 0 {
        return EdfVerdict::Yes;
    }
    verdict_up_to(charged, last_point(cycle, work, weighted))
}

/// The test for earliest deadlines first: whether the jobs that are released and due in t ticks, each charged with its
/// stated cost and with what its release can cost the others, fit into them, for each t from 1 on. The field calls this the
/// processor demand criterion. The set's policy is `Edf`.
///
/// A release can preempt jobs of longer relative deadlines alone, and make one attempt of one of them repeat. So it is charged
/// with the longest attempt among their operations on objects that a task of a shorter deadline than theirs may change, and
/// with nothing where there is none: where all deadlines are equal, where its deadline is the longest, and where the others
/// only read, or share nothing with a task that writes.
///
/// The least common multiple L of the periods is `Wide` from 2^96 on. Where the jobs of L ticks are charged with more than
/// L, the answer is `No` at L. Where they are not and each deadline is its period, it is `Yes`. Else it is enough to look at
/// the times up to a last one, at which a job of some task is due. Where more than 1,000,000 jobs are due up to the last
/// one, each of which counts where several are due at one time, the answer is `Long` with their number, and else it is
/// `No` at the least time that fails, or `Yes` (Liu and Layland, 1973; Baruah, Rosier and Howell, 1990; the charge after
/// Anderson, Ramamurthy and Jeffay, 1997).
///
/// It takes no memory. Its cost grows with the number of items of all tasks, with the number of tasks, and with the number
/// of the times that are looked at, each in about 57 instructions.
pub fn test(set: &TaskSet) -> EdfVerdict
    requires { set.now.policy ≡ Edf }
    ensures value { result ≡ verdict_of set.now }
    ensures yes { result ≡ Yes → EachSpanFits set.now }
    ensures no { (t need : ℕ) → result ≡ No t need → (1 ≤ t) × (need ≡ due_need set.now t) × (t < need) }
    ensures least { (t need u : ℕ) → result ≡ No t need → work_in set.now ≤ cycle_in set.now → 1 ≤ u → u < t → due_need set.now u ≤ u }
    ensures over { cycle_in set.now < 2 ^ 96 → cycle_in set.now < work_in set.now
        → result ≡ No (cycle_in set.now) (work_in set.now) }
    ensures wide { (result ≡ Wide) ↔ (2 ^ 96 ≤ cycle_in set.now) }
    ensures long { (points : ℕ) → result ≡ Long points → (1000000 < points) × (points ≡ points_in set.now) }
    ensures needed { (points : ℕ) → result ≡ Long points → (cycle_in set.now < 2 ^ 96) × (work_in set.now ≤ cycle_in set.now) }
    ensures answered { cycle_in set.now < 2 ^ 96
        → (cycle_in set.now < work_in set.now) ⊎ ((task : ℕ) → task < length set.now.tasks → (task_at set.now task).deadline ≡ (task_at set.now task).period) ⊎ (points_in set.now ≤ 1000000)
        → (result ≡ Yes) ⊎ ((t : ℕ) × (need : ℕ) × (result ≡ No t need)) }
{
    let charged = charged_tasks_of(set);
    match cycle_of(charged.as_slice()) {
        None => EdfVerdict::Wide,
        Some(cycle) => verdict_within(charged.as_slice(), cycle),
    }
}
