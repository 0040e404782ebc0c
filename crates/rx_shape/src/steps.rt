// What the words of a block say of a call, while they are read in order.
ghost use Rattle.rx_seq.specs.Table.{answers, first_difference, fits_part, shifted, transaction};
ghost use Rattle.rx_seq.specs.declared.replies.Reply.TheVariants.{Done};
ghost use Rattle.rx_shape.specs.Forms.{block, form_of};
ghost use Rattle.rx_shape.specs.Walks.{Begins, HaveNone, HaveNumbers, IsKept, IsLined, IsStep, IsWithin};
ghost use Rattle.std.specs.Prelude.{ℕ, suc, ◌≡◌, ◌<◌, ◌≤◌, ◌-◌, true, false, List, IfSome, length, slice_index};

use rx_seq::{Call, MOST_VALUE, Part, Reply, Row};

/// What the words that were read of a block say of a call.
#[derive(Clone, Copy, Debug)]
pub(crate) enum Step {
    /// More words are needed.
    Open,
    /// No state of the part has these words.
    Broken,
    /// The call has this reply, and leaves each state equal that has these words.
    Kept { reply: Reply },
    /// The words are the length and all numbers of the state.
    Whole,
}

/// What the words say of the call, where all but the last one can stand in a block of the part. It takes constant
/// time.
pub(crate) fn step_of(part: Part, call: Call, words: &[u64]) -> Step
    requires form { form_of part.kind ≡ block }
    requires fits { fits_part part call ≡ true }
    requires some { 0 < length words.now }
    requires lined { IsLined part (length words.now - 1) words.now }
    requires within { 1 < length words.now → length words.now ≤ suc (slice_index words.now 0) }
    ensures { IsStep part call words.now result }
{
    if !is_lined(part, words) {
        return Step::Broken;
    }
    if let Some(reply) = kept_reply(part, call, words) {
        return Step::Kept { reply };
    }
    if words.len() as u64 - 1 == words[0] {
        Step::Whole
    } else {
        Step::Open
    }
}

/// Whether the last of the words can stand in a block of the part too.
fn is_lined(part: Part, words: &[u64]) -> bool
    requires form { form_of part.kind ≡ block }
    requires some { 0 < length words.now }
    requires lined { IsLined part (length words.now - 1) words.now }
    requires within { 1 < length words.now → length words.now ≤ suc (slice_index words.now 0) }
    ensures yes { result ≡ true → IsLined part (length words.now) words.now }
    ensures no { result ≡ false → HaveNone part words.now }
{
    let last = words[words.len() - 1];
    if words.len() == 1 {
        return last == u64::from(part.cap);
    }
    last <= MOST_VALUE as u64
}

/// The reply of the call, where its walk stops at these words: they tell it, and that the state stays equal. A `Multi`
/// whose rows all hold has none.
fn kept_reply(part: Part, call: Call, words: &[u64]) -> Option<Reply>
    requires form { form_of part.kind ≡ block }
    requires fits { fits_part part call ≡ true }
    requires some { 0 < length words.now }
    requires lined { IsLined part (length words.now) words.now }
    ensures { IfSome result (IsKept part call words.now) }
{
    match call {
        Call::Read { i } => read_reply(words, i),
        Call::Shift { from, to, n } => shift_reply(words, from, to, n),
        Call::Multi { count, rows } => multi_reply(words, &rows[..count as usize]),
        _ => None,
    }
}

/// The value of register `i`, where its word was read.
fn register(words: &[u64], i: u32) -> Option<u32>
    requires within { IsWithin (length words.now) words.now }
    requires values { HaveNumbers (length words.now) words.now }
    ensures { IfSome result (λ v. (state : List ℕ) → Begins words.now state → (i < length state) × (slice_index state i ≡ v)) }
{
    if i as usize + 1 < words.len() {
        Some(words[i as usize + 1] as u32)
    } else {
        None
    }
}

/// The reply of a `Read`.
fn read_reply(words: &[u64], i: u32) -> Option<Reply>
    requires within { IsWithin (length words.now) words.now }
    requires values { HaveNumbers (length words.now) words.now }
    ensures { IfSome result (λ reply. (state : List ℕ) → Begins words.now state → Done (slice_index state i) ≡ reply) }
{
    let v = register(words, i)?;
    Some(Reply::Done { v })
}

/// The reply of a `Shift` of more than there is, of so much that the sum does not fit, or of nothing.
fn shift_reply(words: &[u64], from: u32, to: u32, n: u32) -> Option<Reply>
    requires within { IsWithin (length words.now) words.now }
    requires values { HaveNumbers (length words.now) words.now }
    ensures { IfSome result (λ reply. (state : List ℕ) → Begins words.now state → shifted state from to n ≡ answers state reply) }
{
    let have = register(words, from)?;
    if have < n {
        return Some(Reply::Short { v: have });
    }
    match register(words, to)?.checked_add(n) {
        None => Some(Reply::Over),
        Some(v) if n == 0 => Some(Reply::Done { v }),
        Some(_) => None,
    }
}

/// The reply of a `Multi` with these rows, of which one has another value.
fn multi_reply(words: &[u64], rows: &[Row]) -> Option<Reply>
    requires within { IsWithin (length words.now) words.now }
    requires values { HaveNumbers (length words.now) words.now }
    ensures { IfSome result (λ reply. (state : List ℕ) (count : ℕ) → Begins words.now state → transaction state count rows.now (first_difference state rows.now) ≡ answers state reply) }
{
    for row in rows {
        let value = register(words, row.i)?;
        if value != row.old {
            return Some(Reply::Differs { v: value });
        }
    }
    None
}
