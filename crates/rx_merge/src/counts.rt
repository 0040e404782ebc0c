// Counts of the entries of lists, by object and tag.
ghost use Rattle.rx_merge.specs.Merged.{is_quiet_at, list_at, lists_of};
ghost use Rattle.rx_merge.specs.MergeState.{AreCounts, AreKnown, AreLow, AreStarts, IsKnown, count_waiting, is_loud_on, start_at, sum_below};
ghost use Rattle.std.specs.List.{AllByRecursion};
ghost use Rattle.std.specs.Prelude.{ℕ, ◌≡◌, ◌+◌, ◌<◌, [], IfOk, count_by, length, slice_index, slice_set};

use rx_seq::{Entry, NoMemory, quiet};
use std::alloc::Global;

/// Adds to the count of each object how many loud entries of a list are on it. Its cost grows with the list.
fn add_louds(counts: &mut Vec<usize>, list: &[Entry]) -> Result<(), NoMemory>
    requires { AllByRecursion (IsKnown (length counts.old.items)) list.now }
    ensures many { length counts.new.items ≡ length counts.old.items }
    ensures counts { IfOk result (λ _. (object : ℕ) → object < length counts.old.items → slice_index counts.new.items object ≡ slice_index counts.old.items object + count_by (is_loud_on object) list.now) }
{
    for entry in list {
        if !quiet(entry.call, entry.reply) {
            let object = entry.object as usize;
            counts[object] = counts[object].checked_add(1).ok_or(NoMemory)?;
        }
    }
    Ok(())
}

/// Makes of each number how many come before it, where each stands for one more than it says, and answers how many they
/// are in all. Its cost grows with the numbers.
fn sum_up(counts: &mut Vec<usize>) -> Result<usize, NoMemory>
    ensures many { length counts.new.items ≡ length counts.old.items }
    ensures sums { IfOk result (λ _. (object : ℕ) → object < length counts.old.items → slice_index counts.new.items object ≡ sum_below (λ before. slice_index counts.old.items before + 1) object) }
    ensures whole { IfOk result (λ whole. whole ≡ sum_below (λ before. slice_index counts.old.items before + 1) (length counts.old.items)) }
{
    let mut whole: usize = 0;
    for object in 0..counts.len() {
        let start = whole;
        whole = whole
            .checked_add(counts[object])
            .ok_or(NoMemory)?
            .checked_add(1)
            .ok_or(NoMemory)?;
        counts[object] = start;
    }
    Ok(whole)
}

/// The places where the counts of each object start, and how many counts there are in all. Its cost grows with the
/// numbers of entries and of objects.
pub(crate) fn starts_of(
    alloc: Global,
    lists: &[Vec<Entry>],
    objects: usize,
) -> Result<(Vec<usize>, usize), NoMemory>
    requires { AreKnown objects (lists_of lists.now) }
    ensures starts { IfOk result (λ found. AreStarts (lists_of lists.now) objects found.0.items) }
    ensures whole { IfOk result (λ found. found.1 ≡ start_at (lists_of lists.now) objects) }
{
    let mut starts = match vec![in alloc; 0; objects] {
        Ok(starts) => starts,
        Err(_) => return Err(NoMemory),
    };
    for list in lists {
        add_louds(&mut starts, list)?;
    }
    let whole = sum_up(&mut starts)?;
    Ok((starts, whole))
}

/// Adds one to a count, if it fits. Its cost is constant.
fn add_one(counts: &mut Vec<u32>, place: usize) -> Result<(), NoMemory>
    requires { place < length counts.old.items }
    ensures many { length counts.new.items ≡ length counts.old.items }
    ensures more { IfOk result (λ _. counts.new.items ≡ slice_set counts.old.items place (slice_index counts.old.items place + 1)) }
{
    counts[place] = counts[place].checked_add(1).ok_or(NoMemory)?;
    Ok(())
}

/// Adds to the count of each object and tag how many quiet entries of a caller it has. Its cost grows with the caller's
/// list.
fn add_quiets(
    counts: &mut Vec<u32>,
    starts: &[usize],
    lists: &[Vec<Entry>],
    caller: usize,
) -> Result<(), NoMemory>
    requires caller { caller < length lists.now }
    requires known { AreKnown (length starts.now) (lists_of lists.now) }
    requires low { AreLow (lists_of lists.now) }
    requires starts { AreStarts (lists_of lists.now) (length starts.now) starts.now }
    requires many { length counts.old.items ≡ start_at (lists_of lists.now) (length starts.now) }
    ensures many { length counts.new.items ≡ length counts.old.items }
    ensures counts { IfOk result (λ _. (count : ℕ → ℕ → ℕ) → AreCounts (lists_of lists.now) (length starts.now) count counts.old.items
        → AreCounts (lists_of lists.now) (length starts.now) (λ object tag. count object tag + count_by (is_quiet_at object tag) (list_at (lists_of lists.now) caller)) counts.new.items) }
{
    for entry in &lists[caller] {
        if quiet(entry.call, entry.reply) {
            add_one(counts, starts[entry.object as usize] + entry.tag as usize)?;
        }
    }
    Ok(())
}

/// How many quiet entries there are of each object and tag, of so many objects and tags in all. Its cost grows with the
/// numbers of entries and of counts.
pub(crate) fn quiets_of(
    alloc: Global,
    lists: &[Vec<Entry>],
    starts: &[usize],
    whole: usize,
) -> Result<Vec<u32>, NoMemory>
    requires known { AreKnown (length starts.now) (lists_of lists.now) }
    requires low { AreLow (lists_of lists.now) }
    requires starts { AreStarts (lists_of lists.now) (length starts.now) starts.now }
    requires whole { whole ≡ start_at (lists_of lists.now) (length starts.now) }
    ensures { IfOk result (λ counts. AreCounts (lists_of lists.now) (length starts.now) (count_waiting (lists_of lists.now) []) counts.items) }
{
    let mut counts = match vec![in alloc; 0; whole] {
        Ok(counts) => counts,
        Err(_) => return Err(NoMemory),
    };
    for caller in 0..lists.len() {
        add_quiets(&mut counts, starts, lists, caller)?;
    }
    Ok(counts)
}
