// The entries that are taken so far, and what is counted of them and of those that are left.
ghost use Rattle.rx_merge.specs.Merged.{first_ready, lists_of, ready_of};
ghost use Rattle.rx_merge.specs.MergeState.{AreKnown, AreLow, IsMergeState};
ghost use Rattle.rx_seq.specs.History.{is_loud};
ghost use Rattle.std.specs.Prelude.{◌≡◌, ◌==◌, ◌&&◌, ◌+◌, ◌-◌, ◌<◌, ◌≤◌, false, if◌then◌else◌, [], ◌∷◌, ◌++◌, IfOk, IsSome, Some, length, reverse, slice_index, slice_set, vec_capacity, vec_len};

use crate::counts::{quiets_of, starts_of};
use rx_seq::{Entry, NoMemory, quiet};
use std::alloc::Global;

/// The entries that are taken so far, oldest first, how many of each caller they are, and the tag of each object; of each
/// object where its counts start, and in these counts how many quiet entries of each tag are left. All entries of the
/// first `ended` callers are taken.
#[derive(Drop)]
pub(crate) struct MergeState {
    order: Vec<Entry>,
    places: Vec<usize>,
    tags: Vec<u64>,
    starts: Vec<usize>,
    waiting: Vec<u32>,
    ended: usize,
}

/// Before the first entry of these lists, with room for so many. Its cost grows with the numbers of entries, of callers
/// and of objects.
pub(crate) fn begin(
    alloc: Global,
    count: usize,
    lists: &[Vec<Entry>],
    objects: usize,
) -> Result<MergeState, NoMemory>
    requires known { AreKnown objects (lists_of lists.now) }
    requires low { AreLow (lists_of lists.now) }
    ensures order { IfOk result (λ state. state.order.items ≡ []) }
    ensures room { IfOk result (λ state. count ≤ vec_capacity state.order) }
    ensures objects { IfOk result (λ state. length state.tags.items ≡ objects) }
    ensures state { IfOk result (λ state. IsMergeState (lists_of lists.now) [] state.places.items state.tags.items state.starts.items state.waiting.items state.ended) }
{
    let order = match Vec::with_capacity(alloc, count) {
        Ok(order) => order,
        Err(_) => return Err(NoMemory),
    };
    let places = match vec![in alloc; 0; lists.len()] {
        Ok(places) => places,
        Err(_) => return Err(NoMemory),
    };
    let tags = match vec![in alloc; 0; objects] {
        Ok(tags) => tags,
        Err(_) => return Err(NoMemory),
    };
    let (starts, whole) = starts_of(alloc, lists, objects)?;
    let waiting = quiets_of(alloc, lists, &starts, whole)?;
    Ok(MergeState {
        order,
        places,
        tags,
        starts,
        waiting,
        ended: 0,
    })
}

impl MergeState {
    /// Whether an entry may be taken: a quiet one that has the tag of its object, and a loud one that has the next tag,
    /// where no quiet entry of the tag before is left. Its cost is constant.
    fn is_ready(&self, entry: &Entry) -> bool
        requires object { entry.now.object < length self.now.tags.items }
        requires starts { length self.now.starts.items ≡ length self.now.tags.items }
        requires place { slice_index self.now.starts.items entry.now.object + slice_index self.now.tags.items entry.now.object < length self.now.waiting.items }
        ensures { let tag = slice_index self.now.tags.items entry.now.object in
            result ≡ if is_loud entry.now then (entry.now.tag == tag + 1) && (slice_index self.now.waiting.items (slice_index self.now.starts.items entry.now.object + tag) == 0) else entry.now.tag == tag }
    {
        let object = entry.object as usize;
        let tag = self.tags[object];
        if quiet(entry.call, entry.reply) {
            return entry.tag == tag;
        }
        entry.tag > 0
            && entry.tag - 1 == tag
            && self.waiting[self.starts[object] + tag as usize] == 0
    }

    /// The next entry of a caller, if it is ready. Its cost is constant.
    fn ready_entry(&self, lists: &[Vec<Entry>], caller: usize) -> Option<Entry>
        requires some { caller < length lists.now }
        requires known { AreKnown (length self.now.tags.items) (lists_of lists.now) }
        requires state { IsMergeState (lists_of lists.now) (reverse self.now.order.items) self.now.places.items self.now.tags.items self.now.starts.items self.now.waiting.items self.now.ended }
        ensures { result ≡ ready_of (lists_of lists.now) (reverse self.now.order.items) caller }
    {
        let list = lists[caller].as_slice();
        let place = self.places[caller];
        if place >= list.len() {
            return None;
        }
        let entry = &list[place];
        if self.is_ready(entry) {
            Some(*entry)
        } else {
            None
        }
    }

    /// Raises `ended` past the next callers of which all entries are taken. Its cost grows with the number of callers
    /// that it passes, and is constant where it passes none; none is passed twice.
    pub(crate) fn pass_ended(&mut self, lists: &[Vec<Entry>])
        requires state { IsMergeState (lists_of lists.now) (reverse self.old.order.items) self.old.places.items self.old.tags.items self.old.starts.items self.old.waiting.items self.old.ended }
        ensures order { self.new.order ≡ self.old.order }
        ensures places { self.new.places ≡ self.old.places }
        ensures tags { self.new.tags ≡ self.old.tags }
        ensures starts { self.new.starts ≡ self.old.starts }
        ensures waiting { self.new.waiting ≡ self.old.waiting }
        ensures state { IsMergeState (lists_of lists.now) (reverse self.new.order.items) self.new.places.items self.new.tags.items self.new.starts.items self.new.waiting.items self.new.ended }
    {
        for caller in self.ended..lists.len() {
            if self.places[caller] < lists[caller].len() {
                return;
            }
            self.ended = caller + 1;
        }
    }

    /// The ready entry of the smallest caller that has one. Its cost grows with the number of callers that it looks at:
    /// from caller `ended` to the one whose entry it finds.
    pub(crate) fn next_entry(&self, lists: &[Vec<Entry>]) -> Entry
        requires known { AreKnown (length self.now.tags.items) (lists_of lists.now) }
        requires state { IsMergeState (lists_of lists.now) (reverse self.now.order.items) self.now.places.items self.now.tags.items self.now.starts.items self.now.waiting.items self.now.ended }
        requires some { IsSome (first_ready (lists_of lists.now) (reverse self.now.order.items)) }
        ensures { first_ready (lists_of lists.now) (reverse self.now.order.items) ≡ Some result }
    {
        for caller in self.ended..lists.len() {
            if let Some(entry) = self.ready_entry(lists, caller) {
                return entry;
            }
        }
        unreachable!()
    }

    /// Takes an entry, for which there is room. Its cost is constant.
    pub(crate) fn take(&mut self, entry: Entry)
        requires caller { entry.caller < length self.old.places.items }
        requires object { entry.object < length self.old.tags.items }
        requires room { vec_len self.old.order < vec_capacity self.old.order }
        requires starts { length self.old.starts.items ≡ length self.old.tags.items }
        requires waits { is_loud entry ≡ false → (slice_index self.old.starts.items entry.object + entry.tag < length self.old.waiting.items) × (1 ≤ slice_index self.old.waiting.items (slice_index self.old.starts.items entry.object + entry.tag)) }
        requires fits { slice_index self.old.places.items entry.caller < 18446744073709551615 }
        ensures order { self.new.order.items ≡ self.old.order.items ++ entry ∷ [] }
        ensures room { vec_capacity self.new.order ≡ vec_capacity self.old.order }
        ensures places { self.new.places.items ≡ slice_set self.old.places.items entry.caller (slice_index self.old.places.items entry.caller + 1) }
        ensures tags { self.new.tags.items ≡ slice_set self.old.tags.items entry.object entry.tag }
        ensures starts { self.new.starts ≡ self.old.starts }
        ensures waiting { let place = slice_index self.old.starts.items entry.object + entry.tag in
            self.new.waiting.items ≡ if is_loud entry then self.old.waiting.items else slice_set self.old.waiting.items place (slice_index self.old.waiting.items place - 1) }
        ensures ended { self.new.ended ≡ self.old.ended }
    {
        if quiet(entry.call, entry.reply) {
            self.waiting[self.starts[entry.object as usize] + entry.tag as usize] -= 1;
        }
        self.places[entry.caller as usize] += 1;
        self.tags[entry.object as usize] = entry.tag;
        self.order.push_reserved(entry);
    }

    /// The entries that are taken, oldest first.
    pub(crate) fn into_order(self) -> Vec<Entry>
        ensures { result ≡ self.order }
    {
        self.order
    }
}
