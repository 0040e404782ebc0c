//! The window law, and that a set which an admission test admits misses no deadline. Each function does nothing: its
//! contract is the law.
ghost use Rattle.rx_set.specs.Admission.{EachIsServed, EachSpanFits};
ghost use Rattle.rx_set.specs.Charges.{charge_edf};
ghost use Rattle.rx_set.specs.System.{System, release};
ghost use Rattle.rx_set.specs.Valid.{IsValid, KeepsCosts};
ghost use Rattle.rx_set.specs.declared.jobs.Job.{Job};
ghost use Rattle.rx_set.specs.declared.policies.Policy.TheVariants.{Edf};
ghost use Rattle.rx_slots.specs.Events.{misses};
ghost use Rattle.rx_slots.specs.Laws.{who};
ghost use Rattle.rx_slots.specs.Schedule.{slots};
ghost use Rattle.rx_slots.specs.Windows.{CoversSpoiled, IsBusyWindow, IsWindow, charge, demand, due_demand};
ghost use Rattle.std.specs.Prelude.{ℕ, Bool, [], ◌≡◌, ◌≢◌, ◌≤◌, ◌<◌, ◌+◌, ◌-◌, Some, length, true};

/// A window of a family of jobs, whose keys are below all other keys, begins where none of them is left, which the field
/// calls no backlog, and lasts as long as one is. Each slot of it belongs to a job of the family that was released in it,
/// and the window is shorter than the stated costs of these jobs and the charges of the preemptions among them: that is so
/// with any charges that cover the retries of the window, or the attempts that are spoiled in it. It holds for each policy
/// (the busy period of the response time analysis of M. Joseph and P. Pandya, 1986, with the retries that J. H. Anderson,
/// S. Ramamurthy and K. Jeffay, 1997, charge to preemptions).
pub fn windows_are_short()
    ensures slots { (system : System) (family : Job → Bool) (a b : ℕ) → IsValid system → IsBusyWindow system family a b
        → (n : ℕ) → a ≤ n → n < b → (job : Job) × (who system n ≡ Some job) × (family job ≡ true) × (a ≤ release system job) × (release system job < b) }
    ensures length { (system : System) (family : Job → Bool) (charges : ℕ → ℕ) (a b : ℕ) → IsValid system → KeepsCosts system → IsWindow system family charges a b
        → b - a < demand system family a b + charge system family charges a b }
    ensures spoiled { (system : System) (family : Job → Bool) (charges : ℕ → ℕ) (a b : ℕ) → IsValid system → KeepsCosts system → IsBusyWindow system family a b → CoversSpoiled system family charges a b
        → b - a < demand system family a b + charge system family charges a b }
{}

/// Fixed priorities: a valid set that keeps its stated costs, and whose tasks are each served by some number of ticks, has
/// no miss at any time (the response time test of M. Joseph and P. Pandya, 1986, with a charge for each release that can
/// preempt). What serves a task has room for its stated cost, for the interference of the tasks before it, which is what
/// their jobs take, and for the retries of both: a lost attempt is charged to the release that preempted its job first, and
/// costs no more than the exposure of its task.
pub fn served_sets_miss_nothing()
    ensures fixed { (system : System) (n : ℕ) → IsValid system → KeepsCosts system → system.policy ≢ Edf → EachIsServed system → misses system (slots system n) ≡ [] }
{}

/// Earliest deadline first: a valid set that keeps its stated costs has no miss up to a time, where for each span that ends
/// by then the jobs that are released and due in it fit into it, each with its stated cost and a charge of what it can cost
/// tasks of longer deadlines at least. So it has no miss at any time where what the tasks' jobs that are released and due in
/// t ticks need fits into t ticks, for each t (the demand test of S. Baruah, L. Rosier and R. Howell, 1990, with that charge
/// for each job).
pub fn fitting_spans_miss_nothing()
    ensures demand { (system : System) (charges : ℕ → ℕ) (n : ℕ) → IsValid system → KeepsCosts system → system.policy ≡ Edf
        → ((task : ℕ) → task < length system.tasks → charge_edf system task ≤ charges task)
        → ((a b : ℕ) → a < b → b ≤ n → due_demand system charges a b ≤ b - a) → (m : ℕ) → m ≤ n → misses system (slots system m) ≡ [] }
    ensures earliest { (system : System) (n : ℕ) → IsValid system → KeepsCosts system → system.policy ≡ Edf → EachSpanFits system → misses system (slots system n) ≡ [] }
{}
