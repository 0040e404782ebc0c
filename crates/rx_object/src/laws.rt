//! Laws of calls on a shared table. Each function does nothing: its contract is the law.
ghost use Rattle.rx_object.specs.Calls.{IsDone, IsLost, IsSpent};
ghost use Rattle.rx_port.specs.declared.views.View.{View};
ghost use Rattle.rx_seq.specs.declared.calls.Call.{Call};
ghost use Rattle.rx_seq.specs.declared.replies.Reply.{Reply};
ghost use Rattle.rx_shape.specs.Layout.{Layout};
ghost use Rattle.std.specs.Prelude.{ℕ, ◌≡◌};

/// The only seat of a table has no lost attempts: a call that is done lost none, no attempt is lost, and a call that finds
/// the last tag lost none before.
pub fn lone_seats_lose_nothing()
    ensures done { (layout : Layout) (before now : View) (object : ℕ) (call : Call) (reply : Reply) (tag retries : ℕ) → layout.seats ≡ 1 → before.number ≡ 0 → IsDone layout before now object call reply tag retries → retries ≡ 0 }
    ensures lost { (layout : Layout) (before now : View) (object expected found : ℕ) → layout.seats ≡ 1 → before.number ≡ 0 → IsLost layout before now object expected found → ⊥ }
    ensures spent { (layout : Layout) (before now : View) (object : ℕ) (call : Call) (tag lost : ℕ) → layout.seats ≡ 1 → before.number ≡ 0 → IsSpent layout before now object call tag lost → lost ≡ 0 }
{}
