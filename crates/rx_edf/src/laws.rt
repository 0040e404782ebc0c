//! Laws of the test for earliest deadlines first. Each function does nothing: its contract is the law. It holds of every
//! valid system.
ghost use Rattle.rx_set.specs.Admission.{EachSpanFits, due_need};
ghost use Rattle.rx_set.specs.System.{System, task_at};
ghost use Rattle.rx_set.specs.Valid.{IsValid};
ghost use Rattle.rx_edf.specs.Verdicts.{cycle, last_time, verdict_of, work};
ghost use Rattle.rx_edf.specs.declared.verdicts.EdfVerdict.TheVariants.{Yes, No};
ghost use Rattle.std.specs.Int.{◌∣◌};
ghost use Rattle.std.specs.Prelude.{ℕ, ◌≡◌, ◌≤◌, ◌<◌, ◌+◌, length};

/// The cycle is the least common multiple of the periods: each period divides it, and it is at most any other number from
/// 1 on that all of them divide.
pub fn cycles_are_least()
    ensures some { (system : System) → IsValid system → 1 ≤ cycle system }
    ensures divided { (system : System) (task : ℕ) → IsValid system → task < length system.tasks → (task_at system task).period ∣ cycle system }
    ensures least { (system : System) (n : ℕ) → IsValid system → 1 ≤ n → ((task : ℕ) → task < length system.tasks → (task_at system task).period ∣ n) → cycle system ≤ n }
{}

/// What is due grows by the work of a cycle in each cycle. Where that work fits into the cycle and more is due in some
/// time than fits into it, that is so of a time of at most the last that is looked at (after Baruah, Rosier and Howell,
/// 1990).
pub fn failures_are_near()
    ensures later { (system : System) (t : ℕ) → IsValid system → due_need system (t + cycle system) ≡ due_need system t + work system }
    ensures near { (system : System) (t : ℕ) → IsValid system → work system ≤ cycle system → t < due_need system t
        → (u : ℕ) × (1 ≤ u) × (u ≤ last_time system) × (u < due_need system u) }
{}

/// A yes means that what is released and due in t ticks fits into them, for each t, and a no that in the told t it does
/// not, since it needs as many ticks as are told.
pub fn verdicts_are_exact()
    ensures yes { (system : System) → IsValid system → verdict_of system ≡ Yes → EachSpanFits system }
    ensures no { (system : System) (t need : ℕ) → IsValid system → verdict_of system ≡ No t need → (1 ≤ t) × (need ≡ due_need system t) × (t < need) }
{}
