//! Laws of the lines. Each function does nothing: its contract is the law, and holds of all sets.
ghost use Rattle.rx_report.specs.LaneLines.{entry_item, entry_job};
ghost use Rattle.rx_report.specs.Lines.{item_of};
ghost use Rattle.rx_seq.specs.declared.entries.Entry.{Entry};
ghost use Rattle.rx_set.specs.Operations.{asked_of, operations_of, script_of};
ghost use Rattle.rx_set.specs.System.{System, task_at};
ghost use Rattle.rx_set.specs.declared.items.Item.TheVariants.{Op};
ghost use Rattle.std.specs.Prelude.{ℕ, ◌≡◌, ◌≤◌, ◌+◌, ◌-◌, Some, length, slice_get, take};

/// The line of an entry tells the entry's own call. Where an entry has the call at its place in the script of its task, and
/// is numbered by that place, the item that its line names is the operation that was called. It names an item from 1, of
/// one of the jobs of the script, and before that place the script has just the operations of the earlier jobs, and those
/// of the earlier items of the body.
pub fn lines_tell_their_calls()
    ensures calls { (system : System) (jobs place : ℕ) (entry : Entry) → slice_get (script_of system jobs entry.caller) place ≡ Some (asked_of entry) → entry.index ≡ place + 1 → item_of system (entry_job system entry) (entry_item system entry) ≡ Some (Op entry.object entry.call) }
    ensures jobs { (system : System) (jobs place : ℕ) (entry : Entry) → slice_get (script_of system jobs entry.caller) place ≡ Some (asked_of entry) → entry.index ≡ place + 1 → (1 ≤ (entry_job system entry).number) × ((entry_job system entry).number ≤ jobs) }
    ensures items { (system : System) (jobs place : ℕ) (entry : Entry) → slice_get (script_of system jobs entry.caller) place ≡ Some (asked_of entry) → entry.index ≡ place + 1 → 1 ≤ entry_item system entry }
    ensures places { (system : System) (jobs place : ℕ) (entry : Entry) → slice_get (script_of system jobs entry.caller) place ≡ Some (asked_of entry) → entry.index ≡ place + 1 → place ≡ length (script_of system ((entry_job system entry).number - 1) entry.caller) + length (operations_of (take (entry_item system entry - 1) (task_at system entry.caller).items)) }
{}
