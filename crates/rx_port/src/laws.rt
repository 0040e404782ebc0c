//! The laws of the events, over plain data. Each function does nothing: its contract is the law.
ghost use Rattle.rx_port.specs.Core.{begun_view, decided_view, entry_for, history_after, own_of, read_view, tag_after, written_view};
ghost use Rattle.rx_port.specs.Events.{IsHopeless, Begun, Decided, DidRead, DidWrite, IsDecision};
ghost use Rattle.rx_port.specs.Lawful.{IsAttempt, Lawful};
ghost use Rattle.rx_port.specs.Plain.{IsPlain, Moves, view_at};
ghost use Rattle.rx_port.specs.declared.views.Attempt.{Attempt};
ghost use Rattle.rx_port.specs.declared.views.Core.{Core};
ghost use Rattle.rx_port.specs.declared.views.View.{View};
ghost use Rattle.rx_seq.specs.History.{part_at, replay};
ghost use Rattle.rx_seq.specs.Table.{fits_part};
ghost use Rattle.rx_seq.specs.declared.calls.Call.{Call};
ghost use Rattle.rx_seq.specs.declared.entries.Entry.{Entry};
ghost use Rattle.rx_shape.specs.Forms.{decoded, stock_size};
ghost use Rattle.rx_shape.specs.Layout.{Layout, home, root_of};
ghost use Rattle.rx_shape.specs.Versions.{NotWritten};
ghost use Rattle.rx_shape.specs.Words.{tag_of};
ghost use Rattle.rx_shape.specs.declared.plans.Pair.{Pair};
ghost use Rattle.std.specs.Prelude.{ℕ, ◌≡◌, ◌≢◌, ◌↔◌, ◌<◌, ◌+◌, ◌==◌, if◌then◌else◌, true, List, length, slice_index, slice_set, Some};
ghost use lib.ListN.{get_elem?};
ghost use mathlib.Core.Option.{some};

/// Words and seats that are lawful for a history are so after each event, for the history that the event leaves: an
/// exchange that finds the expected root adds one entry, and nothing else does.
pub fn events_keep_the_law()
    ensures begin { (layout : Layout) (words : List ℕ) (views : List View) (history : List Entry) (seat object root : ℕ) (call : Call) (view : View) → Lawful layout words views history → get_elem? views seat ≡ some view → view.live ≡ true → object < length layout.parts → fits_part (part_at layout.parts object) call ≡ true → root ≡ root_of words object → Lawful layout words (slice_set views seat (begun_view history view object call root)) history }
    ensures read { (layout : Layout) (words : List ℕ) (views : List View) (history : List Entry) (seat place : ℕ) (view : View) (attempt : Attempt) → Lawful layout words views history → get_elem? views seat ≡ some view → view.live ≡ true → view.attempt ≡ Some attempt → Lawful layout words (slice_set views seat (read_view view attempt (record { place = place; word = slice_index words place }))) history }
    ensures write { (layout : Layout) (words : List ℕ) (views : List View) (history : List Entry) (seat own value : ℕ) (view : View) (attempt : Attempt) → Lawful layout words views history → get_elem? views seat ≡ some view → view.live ≡ true → view.attempt ≡ Some attempt → own < stock_size (part_at layout.parts attempt.object) → NotWritten own attempt.writes → Lawful layout (slice_set words (slice_index (own_of view attempt.object) own) value) (slice_set views seat (written_view view attempt (record { own = own; value = value }))) history }
    ensures decide { (layout : Layout) (words : List ℕ) (views : List View) (history : List Entry) (seat new found : ℕ) (view : View) (attempt : Attempt) (pairs : List Pair) → Lawful layout words views history → get_elem? views seat ≡ some view → view.live ≡ true → found ≡ root_of words attempt.object → IsDecision layout view attempt new pairs → Lawful layout (slice_set words (attempt.object + 1) (if found == attempt.expected then new else found)) (slice_set views seat (decided_view (found == attempt.expected) history (entry_for layout history seat attempt.object attempt.call) view attempt found pairs)) (history_after (found == attempt.expected) (entry_for layout history seat attempt.object attempt.call) history) }
{}

/// An event of a bank keeps it lawful for every history, and not only for the one of its clause: `begin`, `read` and
/// `write` for that history itself, and `decide` for the one that follows. The view of the event's seat is the one told
/// after it, and all other views are as before.
pub fn bank_stays_lawful()
    ensures begin { (layout : Layout) (old now : Core) (before after : View) (object root : ℕ) (call : Call) → IsPlain old → object < length layout.parts → fits_part (part_at layout.parts object) call ≡ true → Begun layout (λ core. core ≡ old) (λ core. core ≡ now) before after object call root → Moves layout old now before.number after (λ history. history) }
    ensures read { (layout : Layout) (old now : Core) (before after : View) (attempt : Attempt) (place word : ℕ) → IsPlain old → before.attempt ≡ Some attempt → DidRead layout (λ core. core ≡ old) (λ core. core ≡ now) before after attempt place word → Moves layout old now before.number after (λ history. history) }
    ensures write { (layout : Layout) (old now : Core) (before after : View) (attempt : Attempt) (own value : ℕ) → IsPlain old → before.attempt ≡ Some attempt → own < stock_size (part_at layout.parts attempt.object) → NotWritten own attempt.writes → DidWrite layout (λ core. core ≡ old) (λ core. core ≡ now) before after attempt own value → Moves layout old now before.number after (λ history. history) }
    ensures decide { (layout : Layout) (old now : Core) (before after : View) (attempt : Attempt) (new word : ℕ) (pairs : List Pair) → IsPlain old → IsDecision layout before attempt new pairs → Decided layout (λ core. core ≡ old) (λ core. core ≡ now) before after attempt new pairs word → Moves layout old now before.number after (λ history. history_after (word == attempt.expected) (entry_for layout history before.number attempt.object attempt.call) history) }
{}

/// The tag of a root is the first tag and the number of loud entries on the object. So an open attempt still finds the
/// root that it expects exactly where no loud entry came on its object since, and that root then stands for the replay.
/// Where no version with the expected root has the words that the attempt read, that root is no longer there.
pub fn attempts_lose_to_entries()
    ensures tag { (layout : Layout) (core : Core) (history : List Entry) (object : ℕ) → Lawful layout core.words core.views history → object < length layout.parts → tag_of (root_of core.words object) ≡ tag_after layout history object }
    ensures attempt { (layout : Layout) (core : Core) (history : List Entry) (seat : ℕ) (attempt : Attempt) → Lawful layout core.words core.views history → (view_at core seat).attempt ≡ Some attempt → IsAttempt layout core.words history (view_at core seat).own attempt }
    ensures wins { (layout : Layout) (core : Core) (history : List Entry) (seat : ℕ) (attempt : Attempt) → Lawful layout core.words core.views history → (view_at core seat).attempt ≡ Some attempt → (attempt.expected ≡ root_of core.words attempt.object) ↔ (tag_of attempt.expected ≡ tag_after layout history attempt.object) }
    ensures state { (layout : Layout) (core : Core) (history : List Entry) (seat : ℕ) (attempt : Attempt) → Lawful layout core.words core.views history → (view_at core seat).attempt ≡ Some attempt → attempt.expected ≡ root_of core.words attempt.object → decoded (home layout attempt.object) attempt.expected core.words ≡ replay layout.parts attempt.object history }
    ensures hopeless { (layout : Layout) (core : Core) (history : List Entry) (seat : ℕ) (attempt : Attempt) (pairs : List Pair) → Lawful layout core.words core.views history → (view_at core seat).attempt ≡ Some attempt → IsHopeless layout attempt pairs → attempt.expected ≢ root_of core.words attempt.object }
{}
