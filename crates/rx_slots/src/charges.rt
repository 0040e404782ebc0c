//! The charge of retries. Each function does nothing: its contract is the law.
ghost use Rattle.rx_ledger.specs.Intervals.{any_job, preemptions, releases, retries};
ghost use Rattle.rx_set.specs.System.{System};
ghost use Rattle.rx_set.specs.Valid.{IsValid};
ghost use Rattle.rx_set.specs.declared.jobs.Job.{Job};
ghost use Rattle.rx_set.specs.declared.policies.Policy.TheVariants.{Edf};
ghost use Rattle.rx_slots.specs.Charges.{IsFirstPreemption, IsHeld, of_rank_below, of_rank_to};
ghost use Rattle.rx_slots.specs.Events.{events};
ghost use Rattle.rx_slots.specs.Laws.{so_far};
ghost use Rattle.rx_slots.specs.Schedule.{Decide, slot_at};
ghost use Rattle.std.specs.Prelude.{ℕ, ◌≡◌, ◌≢◌, ◌≤◌, ◌<◌, None};

/// Each retry is charged to a preemption of its own job, the first one after the attempt's first slot: it comes before the
/// slot in which the attempt is lost, and the job has the attempt in hand there. No two retries are charged to one
/// preemption.
pub fn retries_are_charged()
    ensures found { (system : System) (n object : ℕ) (job : Job) → IsValid system → slot_at system n ≡ Decide job object None
        → (at : ℕ) × (by : Job) × (at < n) × IsFirstPreemption system (so_far system job n).first at job by × IsHeld system at job (so_far system job n).first }
    ensures once { (system : System) (m n at x y : ℕ) (job other by next : Job) → IsValid system → slot_at system m ≡ Decide job x None → slot_at system n ≡ Decide other y None → at < m → at < n
        → IsFirstPreemption system (so_far system job m).first at job by → IsHeld system at job (so_far system job m).first
        → IsFirstPreemption system (so_far system other n).first at other next → IsHeld system at other (so_far system other n).first → m ≡ n }
{}

/// In each interval the retries are at most the preemptions: those of the attempts that were begun at its start or after,
/// and lost before its end, against those strictly inside it. Where tasks have ranks, the retries of jobs up to a rank are
/// at most the releases, strictly inside it, of jobs of lower ranks.
pub fn retries_are_bounded()
    ensures all { (system : System) (n a b : ℕ) → IsValid system → retries any_job a b (events system n) ≤ preemptions any_job a b (events system n) }
    ensures ranks { (system : System) (n place a b : ℕ) → IsValid system → system.policy ≢ Edf →
        retries (of_rank_to system place) a b (events system n) ≤ releases (of_rank_below system place) a b (events system n) }
{}
