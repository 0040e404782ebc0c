//! Laws of the table. Each function does nothing: its contract is the law, and holds of every object.
ghost use Rattle.rx_seq.specs.History.{part_at, replay};
ghost use Rattle.rx_seq.specs.Quiet.{is_quiet};
ghost use Rattle.rx_seq.specs.States.{IsFitting, IsState, IsValue};
ghost use Rattle.rx_seq.specs.Table.{IsPart, effect, fits_part, start_of};
ghost use Rattle.rx_seq.specs.declared.calls.Call.{Call};
ghost use Rattle.rx_seq.specs.declared.calls.Call.TheVariants.{Set};
ghost use Rattle.rx_seq.specs.declared.entries.Entry.{Entry};
ghost use Rattle.rx_seq.specs.declared.kinds.Part.{Part};
ghost use Rattle.std.specs.List.{All};
ghost use Rattle.std.specs.Prelude.{ℕ, ◌≡◌, ◌≢◌, ◌≤◌, true, List, length};

/// Objects stay within their limits: a state has at most as many numbers as the part's capacity, each of at most 32
/// bits. The first state of a part is one of its states, so is what a call that fits makes of a state, and so is the
/// replay of a history in which each call fits its object.
pub fn states_are_kept()
    ensures first { (part : Part) → IsPart part → IsState part (start_of part) }
    ensures next { (part : Part) (state : List ℕ) (call : Call) → IsPart part → IsState part state → fits_part part call ≡ true → IsState part (effect part state call).state }
    ensures bounded { (part : Part) (state : List ℕ) → IsPart part → IsState part state → (length state ≤ part.cap) × All IsValue state }
    ensures replayed { (parts : List Part) (object : ℕ) (history : List Entry) → IsPart (part_at parts object) → All (IsFitting parts) history → IsState (part_at parts object) (replay parts object history) }
{}

/// A quiet call leaves the state equal. What leaves the state equal is quiet, but for a set of the value that is there:
/// of that, call and reply do not tell. The state is one of the part, and the call fits.
pub fn quiet_calls_stay()
    ensures quiet { (part : Part) (state : List ℕ) (call : Call) → IsState part state → fits_part part call ≡ true → is_quiet call (effect part state call).reply ≡ true → (effect part state call).state ≡ state }
    ensures only { (part : Part) (state : List ℕ) (call : Call) → IsState part state → fits_part part call ≡ true → (effect part state call).state ≡ state → ((v : ℕ) → call ≢ Set v) → is_quiet call (effect part state call).reply ≡ true }
{}
