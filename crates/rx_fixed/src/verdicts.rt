// What the test for fixed priorities answers.
ghost use Rattle.std.specs.Prelude.{ℕ, ◌≡◌, ◌≢◌, ◌↔◌};
ghost use Rattle.rx_set.specs.Admission.{EachIsServed};
ghost use Rattle.rx_set.specs.declared.policies.Policy.TheVariants.{Edf};
ghost use Rattle.rx_fixed.specs.Verdicts.{IsLeastUnserved, verdict_of};
ghost use Rattle.rx_fixed.specs.declared.verdicts.Verdict.TheVariants.{Yes, No};

use crate::needs::rows_of;
use crate::times::least_of;
use rx_set::TaskSet;
use rx_set::laws::{least_times_serve, ranks_are_places};

/// Whether each task is served, and if not the least rank that is not.
#[derive(Clone, Copy, Debug, PartialEq, Eq)]
pub enum Verdict {
    /// Each task is served by some t.
    Yes,
    /// No t serves the task of this rank, and each task of a lower rank is served.
    No { rank: u32 },
}

/// The test for fixed priorities, which is response-time analysis: whether each task is served by some t (Joseph and
/// Pandya, 1986; Audsley et al., 1993; with one lost attempt for each release that can preempt, after Anderson, Ramamurthy
/// and Jeffay, 1997). `No` tells the least rank that no t serves.
///
/// The policy is `Rm` or `Dm`. It takes no memory. Its cost is that of reading each item, and then for each rank
/// grows with the number of tasks times the number of values that the need takes up to the deadline.
pub fn test(set: &TaskSet) -> Verdict
    requires policy { set.now.policy ≢ Edf }
    ensures value { result ≡ verdict_of set.now }
    ensures yes { (result ≡ Yes) ↔ EachIsServed set.now }
    ensures no { (rank : ℕ) → result ≡ No rank → IsLeastUnserved set.now rank }
{
    least_times_serve();
    ranks_are_places();
    let rows = rows_of(set);
    for served in 0..rows.len() {
        let rank = served as u32 + 1;
        if least_of(set, rows.as_slice(), rank).is_none() {
            return Verdict::No { rank };
        }
    }
    Verdict::Yes
}
