//! Laws of objects in memory. Each function does nothing: its contract is the law, and holds of every object.
ghost use Rattle.rx_seq.specs.History.{part_at};
ghost use Rattle.rx_seq.specs.Table.{effect, fits_part};
ghost use Rattle.rx_seq.specs.declared.calls.Call.{Call};
ghost use Rattle.rx_seq.specs.declared.replies.Reply.{Reply};
ghost use Rattle.rx_shape.specs.Asks.{HasPlan, IsSettled};
ghost use Rattle.rx_shape.specs.Forms.{InRange, IsStock, IsVersion, block, decoded, form_of, live, node, nodes_of, spares_of, start_own, stock_size};
ghost use Rattle.rx_shape.specs.Layout.{IsLayout, Layout, home, root_of, words_of};
ghost use Rattle.rx_shape.specs.Nodes.{values};
ghost use Rattle.rx_shape.specs.Places.{run, times};
ghost use Rattle.rx_shape.specs.Settled.{HasTaken};
ghost use Rattle.rx_shape.specs.Start.{IsStart};
ghost use Rattle.rx_shape.specs.Versions.{HasRead, HasWritten, Makes, Plans, Same, Starts, traded};
ghost use Rattle.rx_shape.specs.Walks.{ServesBlocks};
ghost use Rattle.rx_shape.specs.Words.{low_of, pack, tag_of};
ghost use Rattle.rx_shape.specs.declared.homes.Home.{Home};
ghost use Rattle.rx_shape.specs.declared.plans.Pair.{Pair};
ghost use Rattle.rx_shape.specs.declared.plans.Taken.{Taken};
ghost use Rattle.rx_shape.specs.declared.plans.Write.{Write};
ghost use Rattle.std.specs.Prelude.{ℕ, suc, ◌≡◌, ◌≤◌, ◌<◌, ◌+◌, ◌^◌, true, List, ◌∷◌, ◌++◌, length, slice_index};

/// The words of the live places alone decide the live places, the state, and that there is a version. Of the root only
/// the low part does.
pub fn live_words_decide()
    ensures words { (home : Home) (root : ℕ) (words others : List ℕ) → IsVersion home root words → ((place : ℕ) → 0 < times place (live home root words) → slice_index others place ≡ slice_index words place) → Same home root words others }
    ensures root { (home : Home) (root new : ℕ) (words : List ℕ) → low_of new ≡ low_of root → IsVersion home root words → IsVersion home new words × (live home new words ≡ live home root words) × (decoded home new words ≡ decoded home root words) }
{}

/// Live places are places of the object, without repeats. Where the object has places, the low part of its root is one.
pub fn live_places_are_apart()
    ensures inside { (home : Home) (root place : ℕ) (words : List ℕ) → IsVersion home root words → 0 < times place (live home root words) → InRange home place }
    ensures once { (home : Home) (root place : ℕ) (words : List ℕ) → IsVersion home root words → times place (live home root words) ≤ 1 }
    ensures root { (home : Home) (root : ℕ) (words : List ℕ) → IsVersion home root words → 0 < stock_size home.part → InRange home (low_of root) }
{}

/// A stock has as many places as the object's form says, and the places of the start of each seat are a stock.
pub fn stocks_have_their_size()
    ensures size { (home : Home) (places : List ℕ) → IsStock home places → length places ≡ stock_size home.part }
    ensures start { (home : Home) (seat : ℕ) → IsStock home (start_own home seat) }
{}

/// After the trade of a plan the own places and the live places together are the same places as before, again without
/// repeats, and there are as many own places as before.
pub fn trades_keep_places()
    ensures places { (home : Home) (call : Call) (root new : ℕ) (own words : List ℕ) (pairs : List Pair) → Makes home call root own new pairs words → ((place : ℕ) → times place (live home root words) + times place own ≤ 1) → (place : ℕ) → (times place (live home new words) + times place (traded own pairs) ≡ times place (live home root words) + times place own) × (times place (live home new words) + times place (traded own pairs) ≤ 1) }
    ensures many { (home : Home) (call : Call) (root new : ℕ) (own words : List ℕ) (pairs : List Pair) → Makes home call root own new pairs words → IsStock home own → length (traded own pairs) ≡ length own }
{}

/// In block form the live places of a version are places that follow each other, from the low part of the root on, and
/// so are the places of a stock, in the order of the own numbers.
pub fn blocks_follow()
    ensures live { (home : Home) (root : ℕ) (words : List ℕ) → form_of home.part.kind ≡ block → live home root words ≡ run (low_of root) (suc home.part.cap) }
    ensures stock { (home : Home) (places : List ℕ) → form_of home.part.kind ≡ block → IsStock home places → places ≡ run (slice_index places 0) (suc home.part.cap) }
{}

/// In node form the live places of a version are the header, which the low part of the root names, the nodes and the spare
/// nodes, as many as the capacity and 1 together. The numbers of the state are the values of the nodes in order.
pub fn nodes_are_linked()
    ensures live { (home : Home) (root : ℕ) (words : List ℕ) → form_of home.part.kind ≡ node → live home root words ≡ low_of root ∷ nodes_of home.part.cap root words ++ spares_of home.part.cap root words }
    ensures all { (home : Home) (root : ℕ) (words : List ℕ) → form_of home.part.kind ≡ node → IsVersion home root words → length (live home root words) ≡ suc home.part.cap }
    ensures state { (home : Home) (root : ℕ) (words : List ℕ) → form_of home.part.kind ≡ node → decoded home root words ≡ values words (nodes_of home.part.cap root words) }
{}

/// No place is one of two objects or a root, and roots and places are among the words.
pub fn objects_are_apart()
    ensures apart { (layout : Layout) (object other place : ℕ) → object < length layout.parts → other < length layout.parts → InRange (home layout object) place → InRange (home layout other) place → object ≡ other }
    ensures no_root { (layout : Layout) (object other place : ℕ) → object < length layout.parts → InRange (home layout other) place → place ≡ object + 1 → ⊥ }
    ensures places { (layout : Layout) (object place : ℕ) → object < length layout.parts → InRange (home layout object) place → place < words_of layout }
    ensures roots { (layout : Layout) (object : ℕ) → object < length layout.parts → object + 1 < words_of layout }
{}

/// With the words of the start each root has the first tag, and stands with the object's first stock for the first
/// state.
pub fn objects_start()
    ensures { (layout : Layout) (words : List ℕ) (object : ℕ) → IsLayout layout → IsStart layout words → object < length layout.parts → Starts (home layout object) layout.first (root_of words object) words }
{}

/// A root word is the one with its tag and its low part.
pub fn roots_are_pairs()
    ensures { (word : ℕ) → word ≡ pack (tag_of word) (low_of word) }
{}

/// Where the words taken settle a call, all versions with this root that have them give it one reply, and for any own
/// places that a seat may have one plan does for all of them.
pub fn settled_calls_have_one_plan()
    ensures reply { (home : Home) (call : Call) (root : ℕ) (taken : List Taken) (words others : List ℕ) → IsSettled home call root taken → HasTaken home root taken words → HasTaken home root taken others → (effect home.part (decoded home root words) call).reply ≡ (effect home.part (decoded home root others) call).reply }
    ensures plan { (home : Home) (call : Call) (root : ℕ) (taken : List Taken) (own : List ℕ) → (settled : IsSettled home call root taken) → tag_of root + 1 < 2 ^ 40 → IsStock home own → ((place : ℕ) → 0 < times place own → InRange home place) → ((place : ℕ) → times place own ≤ 1) → HasPlan home call root taken own settled.reply }
{}

/// A walk over blocks serves each object of a layout that has block form, and each call that fits it.
pub fn blocks_are_served()
    ensures { (layout : Layout) (object : ℕ) (call : Call) → IsLayout layout → object < length layout.parts → form_of (part_at layout.parts object).kind ≡ block → fits_part (part_at layout.parts object) call ≡ true → ServesBlocks (home layout object) call }
{}
