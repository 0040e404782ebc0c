//! A law of the test for fixed priorities. The function does nothing: its contract is the law, of every system.
ghost use Rattle.rx_set.specs.System.{System};
ghost use Rattle.rx_set.specs.Admission.{need};
ghost use Rattle.std.specs.Prelude.{ℕ, ◌≤◌};

/// What the tasks of a rank and of those before it need in more ticks is no less.
pub fn needs_grow()
    ensures { (system : System) (place t u : ℕ) → t ≤ u → need system place t ≤ need system place u }
{}
