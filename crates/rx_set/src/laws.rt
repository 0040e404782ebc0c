//! Laws of ranks, times and keys, and of the sets that are drawn from numbers. Each function does nothing: its contract
//! is the law. It holds of every system, or where it says so of every valid or drawn one.
ghost use Rattle.rx_set.specs.declared.jobs.Job.{Job};
ghost use Rattle.rx_set.specs.declared.jobs.Key.{Key};
ghost use Rattle.rx_set.specs.Generator.{generated};
ghost use Rattle.rx_set.specs.System.{System, key, is_ahead, is_below, rank, release, task_at};
ghost use Rattle.rx_set.specs.Valid.{IsValid, KeepsCosts};
ghost use Rattle.rx_set.specs.Admission.{EachIsServed, Serves, least_time, ranked_task, unserved};
ghost use Rattle.std.specs.Prelude.{ℕ, ◌≡◌, ◌≢◌, ◌≤◌, ◌<◌, ◌+◌, ◌*◌, ◌↔◌, ◌⊎◌, length, Some, None, true, false};

/// Ranks are the places of the tasks in their order: different tasks have different ranks, these are the numbers from
/// 1 to the number of tasks, and a task has a lower rank exactly if it comes before the other.
pub fn ranks_are_places()
    ensures range { (system : System) (task : ℕ) → task < length system.tasks → (1 ≤ rank system task) × (rank system task ≤ length system.tasks) }
    ensures apart { (system : System) (a b : ℕ) → a < length system.tasks → b < length system.tasks → rank system a ≡ rank system b → a ≡ b }
    ensures each { (system : System) (place : ℕ) → 1 ≤ place → place ≤ length system.tasks → (task : ℕ) × (task < length system.tasks) × (rank system task ≡ place) }
    ensures order { (system : System) (a b : ℕ) → a < length system.tasks → b < length system.tasks → (rank system a < rank system b) ↔ (is_ahead system b a ≡ true) }
    ensures named { (system : System) (task place : ℕ) → task < length system.tasks → rank system task ≡ place → ranked_task system place ≡ task }
{}

/// The least time of a rank is the least t that serves its task, and there is none exactly where no t serves it. No rank
/// is unserved exactly where the test for fixed priorities holds, and the one that is told is the least.
pub fn least_times_serve()
    ensures some { (system : System) (task t : ℕ) → task < length system.tasks → least_time system (rank system task) ≡ Some t → Serves system task t × ((u : ℕ) → Serves system task u → t ≤ u) }
    ensures none { (system : System) (task : ℕ) → task < length system.tasks → least_time system (rank system task) ≡ None → (t : ℕ) → ¬ Serves system task t }
    ensures test { (system : System) → (unserved system ≡ None) ↔ EachIsServed system }
    ensures first { (system : System) (task : ℕ) → task < length system.tasks → unserved system ≡ Some (rank system task) → (t : ℕ) → ¬ Serves system task t }
    ensures before { (system : System) (task place : ℕ) → task < length system.tasks → unserved system ≡ Some place → rank system task < place → (t : ℕ) × Serves system task t }
    ensures known { (system : System) (place : ℕ) → unserved system ≡ Some place → (1 ≤ place) × (place ≤ length system.tasks) }
{}

/// Keys are in a strict order, in which any two different keys can be compared.
pub fn keys_are_ordered()
    ensures strict { (a : Key) → is_below a a ≡ false }
    ensures transitive { (a b c : Key) → is_below a b ≡ true → is_below b c ≡ true → is_below a c ≡ true }
    ensures total { (a b : Key) → a ≢ b → (is_below a b ≡ true) ⊎ (is_below b a ≡ true) }
{}

/// No two jobs have one key, and of two jobs of one task the later has the higher key, so the lower priority.
pub fn keys_of_jobs()
    ensures apart { (system : System) (a b : Job) → a.task < length system.tasks → b.task < length system.tasks → key system a ≡ key system b → a ≡ b }
    ensures later { (system : System) (task k m : ℕ) → k < m → is_below (key system (record { task = task; number = k })) (key system (record { task = task; number = m })) ≡ true }
{}

/// Jobs of one task are released at least a period apart, so at most n + 1 of them are released by the time n.
pub fn releases_are_periodic()
    ensures spaced { (system : System) (task k m : ℕ) → 1 ≤ k → k < m → release system (record { task = task; number = k }) + (task_at system task).period ≤ release system (record { task = task; number = m }) }
    ensures few { (system : System) (job : Job) (time : ℕ) → IsValid system → job.task < length system.tasks → release system job ≤ time → job.number ≤ time + 1 }
{}

/// Each set that is drawn from a number is valid, has at most 8 tasks, and keeps its stated costs. Each of its deadlines
/// is the period, which is a multiple of 20 and at most 1,000.
pub fn drawn_sets_are_valid()
    ensures valid { (number : ℕ) → IsValid (generated number) }
    ensures few { (number : ℕ) → length (generated number).tasks ≤ 8 }
    ensures costs { (number : ℕ) → KeepsCosts (generated number) }
    ensures deadlines { (number task : ℕ) → task < length (generated number).tasks → (task_at (generated number) task).deadline ≡ (task_at (generated number) task).period }
    ensures periods { (number task : ℕ) → task < length (generated number).tasks → (n : ℕ) × (1 ≤ n) × (n ≤ 50) × ((task_at (generated number) task).period ≡ 20 * n) }
{}
