//! Laws of machines. Each function does nothing: its contract is the law.
ghost use Rattle.rx_machine.specs.OnBanks.{Stepped, TellsOf};
ghost use Rattle.rx_machine.specs.Operations.{Follows, Operation, fresh, position};
ghost use Rattle.rx_machine.specs.Turns.{AllGoOn, IsDecided, IsInOrder, IsRun, Turns};
ghost use Rattle.rx_machine.specs.declared.steps.Step.{Step};
ghost use Rattle.rx_machine.specs.declared.steps.Step.TheVariants.{Spent};
ghost use Rattle.rx_port.specs.Plain.{IsSeatOf, Moves, Whole, view_at};
ghost use Rattle.rx_port.specs.declared.views.Core.{Core};
ghost use Rattle.rx_port.specs.declared.views.View.{View};
ghost use Rattle.rx_seq.specs.History.{part_at};
ghost use Rattle.rx_seq.specs.Table.{attempt_steps, fits_part};
ghost use Rattle.rx_seq.specs.declared.calls.Call.{Call};
ghost use Rattle.rx_seq.specs.declared.entries.Entry.{Entry};
ghost use Rattle.rx_shape.specs.Layout.{Layout, home};
ghost use Rattle.std.specs.Prelude.{ℕ, ◌≡◌, ◌≢◌, ◌<◌, ◌+◌, ◌∷◌, ◌++◌, [], List, None, length, true};

/// An attempt that is decided has as many steps as its object's part says, whichever they are: first those that make an
/// event, then the idle ones, and last the exchange. One that is spent has one step. So the steps of a machine tell its
/// position: it rises by one, and is 0 again after the last.
pub fn attempts_take_their_steps()
    ensures steps { (old new : Operation) (steps : List Step) (last : Step) → old.progress ≡ None → AllGoOn steps → IsDecided last → IsRun old (steps ++ last ∷ []) new → length steps + 1 ≡ attempt_steps old.place.part }
    ensures order { (old new : Operation) (steps : List Step) → AllGoOn steps → IsRun old steps new → IsInOrder steps }
    ensures position { (old new : Operation) (steps : List Step) → AllGoOn steps → IsRun old steps new → position new ≡ position old + length steps }
    ensures spent { (old new : Operation) (tag : ℕ) → Turns old (Spent tag) new → position old ≡ 0 }
{}

/// A new machine follows every seat. An event of another seat leaves a machine following its own.
pub fn machines_follow_their_seats()
    ensures start { (layout : Layout) (view : View) (object : ℕ) (call : Call) → object < length layout.parts → fits_part (part_at layout.parts object) call ≡ true → Follows layout view (fresh (home layout object) object call) }
    ensures others { (layout : Layout) (old now : Core) (seat mover : ℕ) (after : View) (made_of : List Entry → List Entry) (machine : Operation) → seat ≢ mover → Moves layout old now mover after made_of → Follows layout (view_at old seat) machine → Follows layout (view_at now seat) machine }
{}

/// A step on a bank: for each history that the bank stood for it stands for the one that the step makes of it, which has
/// one entry more where the step won and is the same else. The views of all other seats are as before, each count rises
/// by what the step did, and its words are those of the bank.
pub fn steps_on_a_bank()
    ensures { (old now : Whole) (seat other : ℕ) (machine after : Operation) (step : Step) → IsSeatOf old seat → Follows old.layout (view_at old.core seat) machine → TellsOf old seat now other machine after step → Stepped old.layout old.core now.core seat (view_at now.core other) machine after step }
{}
