// The least time of a rank.
ghost use Rattle.std.specs.Prelude.{ℕ, ◌≡◌, ◌≢◌, ◌≤◌, length, IfSome, IfNone};
ghost use Rattle.rx_set.specs.Admission.{Serves, least_time, ranked_task};
ghost use Rattle.rx_set.specs.declared.policies.Policy.TheVariants.{Edf};
ghost use Rattle.rx_fixed.specs.Needs.{rows_of};

use crate::laws::needs_grow;
use crate::needs::{Row, charges_of, need_of, rows_of};
use rx_set::TaskSet;
use rx_set::laws::{least_times_serve, ranks_are_places};

/// The least t that serves a rank, from what was read of the tasks. It goes up from 1: where the need of t is more than t,
/// no number below that need serves either, since needs grow with t.
pub(crate) fn least_of(set: &TaskSet, rows: &[Row], rank: u32) -> Option<u64>
    requires rows { rows.now ≡ rows_of set.now }
    requires rank { (1 ≤ rank) × (rank ≤ length set.now.tasks) }
    ensures { result ≡ least_time set.now rank }
{
    needs_grow();
    let deadline = set.tasks()[set.ranked(rank) as usize].deadline;
    let charges = charges_of(set, rank);
    let mut t = 1;
    while t <= deadline {
        let need = need_of(rows, &charges, rank, t);
        if need <= t {
            return Some(t);
        }
        t = need;
    }
    None
}

/// The least t that serves the task of a rank under fixed priorities, in ticks: t is at most its deadline, and what the
/// tasks of this rank and of those before it need in t ticks fits into them, where each release of an earlier task
/// strictly inside makes one attempt repeat, the longest that it can spoil (after Anderson, Ramamurthy and Jeffay, 1997, who
/// charge the longest attempt of all). A task can spoil the attempts of later ones on an object that its body may change; so
/// where no earlier task writes what a task and those before it use, they are charged nothing. It is `None` exactly where no
/// t serves it. This is the number that response-time analysis calls the worst-case response time (Joseph and Pandya, 1986), and
/// it is found as there, by exact iteration from below (Audsley et al., 1993).
///
/// The policy is `Rm` or `Dm`, and the rank is from 1 to the number of tasks. It takes no memory. Its cost is that of
/// reading each item, and then grows with the number of tasks times the number of values that the need takes up to the
/// deadline.
pub fn least(set: &TaskSet, rank: u32) -> Option<u64>
    requires policy { set.now.policy ≢ Edf }
    requires rank { (1 ≤ rank) × (rank ≤ length set.now.tasks) }
    ensures value { result ≡ least_time set.now rank }
    ensures some { IfSome result (λ t. Serves set.now (ranked_task set.now rank) t × ((u : ℕ) → Serves set.now (ranked_task set.now rank) u → t ≤ u)) }
    ensures none { IfNone result ((t : ℕ) → ¬ Serves set.now (ranked_task set.now rank) t) }
{
    least_times_serve();
    ranks_are_places();
    least_of(set, rows_of(set).as_slice(), rank)
}
