//! Laws of the schedule. Each function does nothing: its contract is the law.
ghost use Rattle.rx_seq.specs.History.{calls_of, part_at, replay, tag_of};
ghost use Rattle.rx_seq.specs.Table.{effect};
ghost use Rattle.rx_seq.specs.declared.calls.Call.{Call};
ghost use Rattle.rx_seq.specs.declared.calls.Call.TheVariants.{Set};
ghost use Rattle.rx_seq.specs.declared.entries.Entry.{Entry};
ghost use Rattle.rx_seq.specs.declared.replies.Reply.{Reply as Answer};
ghost use Rattle.rx_set.specs.System.{System, attempt_cost, is_below, item_at, key, parts_of, release, task_of};
ghost use Rattle.rx_set.specs.Valid.{IsJobOf, IsValid, IsWork};
ghost use Rattle.rx_set.specs.declared.items.Item.{Item};
ghost use Rattle.rx_set.specs.declared.items.Item.TheVariants.{Op};
ghost use Rattle.rx_set.specs.declared.jobs.Job.{Job};
ghost use Rattle.rx_ledger.specs.Counts.{is_reply, is_retry};
ghost use Rattle.rx_ledger.specs.Ledgers.{time_of};
ghost use Rattle.rx_ledger.specs.declared.events.Event.TheVariants.{Preempt, Reply, Retry};
ghost use Rattle.rx_slots.specs.Events.{events, events_of, misses, wins, wins_below};
ghost use Rattle.rx_slots.specs.Laws.{FollowsBodies, IsAmid, IsLeastAt, IsPendingAt, IsPreemption, IsReply, IsRetry, IsSpoiled, asked_by, asked_up_to, finished_before, lost_ticks, nth_job, slots_of, so_far, who};
ghost use Rattle.rx_slots.specs.Schedule.{Busy, Decide, Idle, history, slot_at, slots, wins_on};
ghost use Rattle.rx_slots.specs.AttemptSlots.{decided_slots};
ghost use Rattle.std.specs.List.{All, Contains};
ghost use Rattle.std.specs.Prelude.{ℕ, Option, List, suc, ◌∷◌, ◌++◌, ◌≡◌, ◌≢◌, ◌≤◌, ◌<◌, ◌+◌, ◌-◌, ◌↔◌, count_by, length, drop, slice_get, Some, None, true, false};

use rx_seq::laws::{quiet_calls_stay, states_are_kept};

/// A longer schedule begins with the shorter one: slots never change once they are made. The list of the first n slots
/// has n of them, the newest first, and slot n is the same in each list that has it.
pub fn schedules_extend()
    ensures count { (system : System) (n : ℕ) → length (slots system n) ≡ n }
    ensures begins { (system : System) (m n : ℕ) → n ≤ m → drop (m - n) (slots system m) ≡ slots system n }
    ensures stays { (system : System) (m n : ℕ) → n < m → slice_get (slots system m) (m - 1 - n) ≡ Some (slot_at system n) }
{}

/// A slot is idle exactly where no job of any number is pending. Else it goes to the pending job of least key, whatever
/// the numbers of the pending jobs are, and to no other.
pub fn slots_go_to_the_least()
    ensures idle { (system : System) (n : ℕ) → IsValid system → (slot_at system n ≡ Idle) ↔ ((job : Job) → ¬ IsPendingAt system n job) }
    ensures busy { (system : System) (n : ℕ) (job : Job) → IsValid system → (who system n ≡ Some job) ↔ IsLeastAt system n job }
{}

/// The events of the first n slots tell each preemption in them, and only these. The job that preempts was released in
/// that very slot, and its key is lower.
pub fn preemptions_are_releases()
    ensures told { (system : System) (n at : ℕ) (job by : Job) → Contains (events system n) (Preempt at job by) ↔ ((at < n) × IsPreemption system at job by) }
    ensures released { (system : System) (n at : ℕ) (job by : Job) → IsValid system → Contains (events system n) (Preempt at job by) → release system by ≡ at }
    ensures below { (system : System) (n at : ℕ) (job by : Job) → IsValid system → Contains (events system n) (Preempt at job by) → is_below (key system by) (key system job) ≡ true }
{}

/// The events of the first n slots tell the reply of each attempt that wins in them and the retry of each that is lost,
/// and only these: with the attempt's first slot and its item, the reply and the tag of the entry that is made, or the
/// tag that its object had when the attempt began and the one that it has now. There are as many of them as attempts that
/// are decided in these slots.
pub fn replies_and_retries_are_told()
    ensures replies { (system : System) (n at first : ℕ) (job : Job) (item : ℕ) (reply : Answer) (tag : ℕ) →
        Contains (events system n) (Reply at first job item reply tag) ↔ ((at < n) × IsReply system at first job item reply tag) }
    ensures retries { (system : System) (n at first : ℕ) (job : Job) (item expected found : ℕ) →
        Contains (events system n) (Retry at first job item expected found) ↔ ((at < n) × IsRetry system at first job item expected found) }
    ensures count { (system : System) (n : ℕ) → count_by is_reply (events system n) + count_by is_retry (events system n) ≡ decided_slots (slots system n) }
{}

/// Each event of a slot is told at the slot's time, and so is each miss of a time. So the times of a schedule's events
/// never fall.
pub fn events_have_their_time()
    ensures slot { (system : System) (n : ℕ) → All (λ event. time_of event ≡ n) (events_of system (slots system n) (slot_at system n)) }
    ensures late { (system : System) (n : ℕ) → All (λ event. time_of event ≡ n) (misses system (slots system n)) }
{}

/// The slots of a job are cut into its items in turn: what its complete items ask for, then what is in hand, which is
/// less than the next item asks for, beside the attempts that were lost. So a job that is finished has had exactly the
/// ticks of its items and of its lost attempts, and one that is not finished fewer. A job without operations loses no
/// attempt.
pub fn jobs_take_their_items()
    ensures cut { (system : System) (n : ℕ) (job : Job) →
        slots_of job (slots system n) ≡ asked_up_to system job (so_far system job n).complete + (so_far system job n).made + lost_ticks system job (slots system n) }
    ensures in_hand { (system : System) (n : ℕ) (job : Job) → IsValid system → IsJobOf system job → finished_before system job n ≡ false →
        (so_far system job n).made < asked_by system (item_at system job (so_far system job n).complete) }
    ensures finished { (system : System) (n : ℕ) (job : Job) → finished_before system job n ≡ true →
        slots_of job (slots system n) ≡ asked_up_to system job (length (task_of system job).items) + lost_ticks system job (slots system n) }
    ensures unfinished { (system : System) (n : ℕ) (job : Job) → IsValid system → IsJobOf system job → finished_before system job n ≡ false →
        slots_of job (slots system n) < asked_up_to system job (length (task_of system job).items) + lost_ticks system job (slots system n) }
    ensures work { (system : System) (n : ℕ) (job : Job) → ((place : ℕ) (item : Item) → slice_get (task_of system job).items place ≡ Some item → IsWork item) →
        lost_ticks system job (slots system n) ≡ 0 }
{}

/// A job that has a slot is one of the system's, was released at that slot or before, and is not finished. A job that is
/// finished stays so, and has no later slot.
pub fn nothing_runs_unreleased()
    ensures known { (system : System) (n : ℕ) (job : Job) → who system n ≡ Some job → IsJobOf system job }
    ensures released { (system : System) (n : ℕ) (job : Job) → who system n ≡ Some job → release system job ≤ n }
    ensures stays { (system : System) (m n : ℕ) (job : Job) → m ≤ n → finished_before system job m ≡ true → finished_before system job n ≡ true }
    ensures finished { (system : System) (m n : ℕ) (job : Job) → m ≤ n → finished_before system job m ≡ true → who system n ≢ Some job }
{}

/// An attempt on an object that is decided in a slot is the one that its job's item asks for. It was begun in its first
/// slot, and from that slot to this one its job has exactly the slots that an attempt on the object takes. It is lost
/// exactly where an attempt on its object won, and raised its tag, in a slot strictly between these two. In each of the
/// job's slots between them it goes on: the item in hand is the same, and its ticks are counted up.
pub fn attempts_take_their_cost()
    ensures begins { (system : System) (n object : ℕ) (job : Job) (outcome : Option Entry) → slot_at system n ≡ Decide job object outcome →
        ((so_far system job n).first < n) × (slot_at system (so_far system job n).first ≡ Busy job) × ((so_far system job (so_far system job n).first).made ≡ 0) }
    ensures item { (system : System) (n object : ℕ) (job : Job) (outcome : Option Entry) → slot_at system n ≡ Decide job object outcome →
        ((so_far system job (so_far system job n).first).complete ≡ (so_far system job n).complete) × ((call : Call) × (item_at system job (so_far system job n).complete ≡ Some (Op object call))) }
    ensures made { (system : System) (n object : ℕ) (job : Job) (outcome : Option Entry) → slot_at system n ≡ Decide job object outcome →
        (so_far system job n).made + 1 ≡ attempt_cost system object }
    ensures cost { (system : System) (n object : ℕ) (job : Job) (outcome : Option Entry) → slot_at system n ≡ Decide job object outcome →
        slots_of job (slots system (suc n)) ≡ slots_of job (slots system (so_far system job n).first) + attempt_cost system object }
    ensures steps { (system : System) (m n object : ℕ) (job : Job) (outcome : Option Entry) → slot_at system n ≡ Decide job object outcome →
        (so_far system job n).first < m → m < n → who system m ≡ Some job → IsAmid system job (so_far system job n).first (so_far system job n).complete m }
    ensures outcome { (system : System) (n object : ℕ) (job : Job) (outcome : Option Entry) → slot_at system n ≡ Decide job object outcome →
        (outcome ≡ None) ↔ IsSpoiled system object (so_far system job n).first n }
{}

/// An entry that is made in a slot is the operation that its job has in hand: its caller is the job's task, and its object
/// and its call are those of the job's item.
pub fn entries_are_operations()
    ensures caller { (system : System) (n object : ℕ) (job : Job) (entry : Entry) → slot_at system n ≡ Decide job object (Some entry) → entry.caller ≡ job.task }
    ensures object { (system : System) (n object : ℕ) (job : Job) (entry : Entry) → slot_at system n ≡ Decide job object (Some entry) → entry.object ≡ object }
    ensures item { (system : System) (n object : ℕ) (job : Job) (entry : Entry) → slot_at system n ≡ Decide job object (Some entry) →
        item_at system job (so_far system job n).complete ≡ Some (Op object entry.call) }
{}

/// A job has a slot only once all earlier jobs of its task are finished. So the entries of a task, oldest first, are the
/// operations of its body, once for each finished job, and then those of the complete items of the next job: none is
/// left out, made twice or out of order.
pub fn entries_follow_the_bodies()
    ensures in_turn { (system : System) (n number : ℕ) (job : Job) → IsValid system → who system n ≡ Some job → 1 ≤ number → number < job.number →
        finished_before system (nth_job job.task number) n ≡ true }
    ensures entries { (system : System) (task n : ℕ) → IsValid system → task < length system.tasks → FollowsBodies system task n }
{}

/// The tag of an object is the number of its loud entries: in all, and before a slot. The history is that of the table:
/// each entry has the reply that its call makes on the replay of the entries before it, the number of loud entries of
/// its object up to itself as its tag, and the number of its caller's entries up to itself as its index.
pub fn tags_count_entries()
    ensures tags { (system : System) (object n : ℕ) → wins object (slots system n) ≡ tag_of object (history (slots system n)) }
    ensures before { (system : System) (object m n : ℕ) → m ≤ n → wins_below object m (slots system n) ≡ tag_of object (history (slots system m)) }
    ensures replies { (system : System) (n : ℕ) (later earlier : List Entry) (entry : Entry) → history (slots system n) ≡ later ++ (entry ∷ earlier) →
        entry.reply ≡ (effect (part_at (parts_of system) entry.object) (replay (parts_of system) entry.object earlier) entry.call).reply }
    ensures numbers { (system : System) (n : ℕ) (later earlier : List Entry) (entry : Entry) → history (slots system n) ≡ later ++ (entry ∷ earlier) →
        (entry.tag ≡ tag_of entry.object (entry ∷ earlier)) × (entry.index ≡ calls_of entry.caller (entry ∷ earlier)) }
{}

/// A win that leaves the state of its object as it was spoils no attempt, and every tag stays, unless its call is a set.
/// A set is loud even where it sets the value that is there.
pub fn calls_that_change_nothing_spoil_nobody()
    ensures spoils { (system : System) (n object other : ℕ) (job : Job) (entry : Entry) → IsValid system → slot_at system n ≡ Decide job object (Some entry) →
        replay (parts_of system) entry.object (history (slots system (suc n))) ≡ replay (parts_of system) entry.object (history (slots system n)) →
        ((v : ℕ) → entry.call ≢ Set v) → wins_on other (slot_at system n) ≡ false }
    ensures tag { (system : System) (n object other : ℕ) (job : Job) (entry : Entry) → IsValid system → slot_at system n ≡ Decide job object (Some entry) →
        replay (parts_of system) entry.object (history (slots system (suc n))) ≡ replay (parts_of system) entry.object (history (slots system n)) →
        ((v : ℕ) → entry.call ≢ Set v) → tag_of other (history (slots system (suc n))) ≡ tag_of other (history (slots system n)) }
{
    quiet_calls_stay();
    states_are_kept();
}
