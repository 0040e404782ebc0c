// The merged order of the entries of several callers.
ghost use Rattle.rx_merge.specs.Merged.{AreOf, count_of, lists_of, merged};
ghost use Rattle.rx_seq.specs.declared.entries.Entry.{Entry as AnEntry};
ghost use Rattle.rx_seq.specs.declared.kinds.Part.{Part};
ghost use Rattle.std.specs.Prelude.{◌≡◌, IfOk, IfSome, List, reverse};

use crate::merge_state::{MergeState, begin};
use rx_seq::laws::{quiet_calls_stay, states_are_kept};
use rx_seq::{Entry, NoMemory};
use std::alloc::Global;

/// How many entries there are, if so many can be counted. Its cost grows with the number of lists.
fn count_entries(lists: &[Vec<Entry>]) -> Option<usize>
    ensures { IfSome result (λ count. count ≡ count_of (lists_of lists.now)) }
{
    let mut count: usize = 0;
    for list in lists {
        count = count.checked_add(list.len())?;
    }
    Some(count)
}

/// One order of the entries of callers 0, 1 and so on, of which each list has one caller's, oldest first: step by step,
/// the next entry of the smallest caller whose next entry is ready. A quiet entry, one that changed nothing, is ready at
/// the tag of its object; a loud one is ready if it has the next tag and no quiet entry of the tag before is left. The
/// lists are those of one legal history on so many objects, whose tags begin at 0 and whose calls fit their objects. The
/// order, oldest first, has all their entries, and is a legal history itself.
///
/// It refuses want of memory alone, which it takes before the first step: room for each entry, for each caller and for
/// each object, and a count of 4 bytes for each loud entry and one for each object. 2^32 quiet entries on one object and
/// of one tag are more than a count can tell: they are want of memory too. Its cost grows with the numbers of callers and
/// of objects, and for each entry with the number of callers that it looks at: from the first that has entries left to the
/// one whose entry it takes. Each look takes constant time.
pub fn merge(alloc: Global, objects: u32, lists: &[Vec<Entry>]) -> Result<Vec<Entry>, NoMemory>
    requires { (parts : List Part) × (history : List AnEntry) × AreOf parts objects (lists_of lists.now) history }
    ensures order { IfOk result (λ order. order.items ≡ reverse (merged (lists_of lists.now))) }
{
    quiet_calls_stay();
    states_are_kept();
    let count = match count_entries(lists) {
        Some(count) => count,
        None => return Err(NoMemory),
    };
    let mut state = begin(alloc, count, lists, objects as usize)?;
    for _ in 0..count {
        state.pass_ended(lists);
        let entry = state.next_entry(lists);
        state.take(entry);
    }
    Ok(state.into_order())
}
