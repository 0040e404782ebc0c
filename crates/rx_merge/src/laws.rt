//! Laws of merged orders. Each function does nothing: its contract is the law, and holds of all lists.
ghost use Rattle.rx_merge.specs.Merged.{AreOf, entries_on, list_at, louds_on, merged};
ghost use Rattle.rx_seq.specs.History.{replay, tag_of};
ghost use Rattle.rx_seq.specs.Legal.{IsLegal, entries_of};
ghost use Rattle.rx_seq.specs.declared.entries.Entry.{Entry};
ghost use Rattle.rx_seq.specs.declared.kinds.Part.{Part};
ghost use Rattle.std.specs.Prelude.{ℕ, ◌≡◌, ◌≤◌, ◌<◌, IsPermutation, List, [], length, reverse};

use rx_seq::laws::{quiet_calls_stay, states_are_kept};

/// The merged order of the lists of a legal history is a legal history of the same entries: each caller's entries are
/// its list, and each object has the same loud entries in the same order, and in all the same entries. So it ends with
/// the same tag and in the same state. There are as many entries, and none of another caller.
pub fn merges_are_histories()
    ensures legal { (parts : List Part) (objects : ℕ) (lists : List (List Entry)) (history : List Entry) → AreOf parts objects lists history → IsLegal parts 0 (merged lists) }
    ensures callers { (parts : List Part) (objects : ℕ) (lists : List (List Entry)) (history : List Entry) → AreOf parts objects lists history → (caller : ℕ) → caller < length lists → reverse (entries_of caller (merged lists)) ≡ list_at lists caller }
    ensures same { (parts : List Part) (objects : ℕ) (lists : List (List Entry)) (history : List Entry) → AreOf parts objects lists history → (caller : ℕ) → length lists ≤ caller → entries_of caller (merged lists) ≡ [] }
    ensures loud { (parts : List Part) (objects : ℕ) (lists : List (List Entry)) (history : List Entry) → AreOf parts objects lists history → (object : ℕ) → louds_on object (merged lists) ≡ louds_on object history }
    ensures all { (parts : List Part) (objects : ℕ) (lists : List (List Entry)) (history : List Entry) → AreOf parts objects lists history → (object : ℕ) → IsPermutation (entries_on object (merged lists)) (entries_on object history) }
    ensures ends { (parts : List Part) (objects : ℕ) (lists : List (List Entry)) (history : List Entry) → AreOf parts objects lists history → (object : ℕ) → (tag_of object (merged lists) ≡ tag_of object history) × (replay parts object (merged lists) ≡ replay parts object history) }
    ensures whole { (parts : List Part) (objects : ℕ) (lists : List (List Entry)) (history : List Entry) → AreOf parts objects lists history → length (merged lists) ≡ length history }
{
    quiet_calls_stay();
    states_are_kept();
}
