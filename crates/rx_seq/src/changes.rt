// Which calls change nothing.
ghost use Rattle.rx_seq.specs.Quiet.{is_quiet, is_still, keeps_value, tells_change};
ghost use Rattle.std.specs.List.{list_all};
ghost use Rattle.std.specs.Prelude.{◌≡◌, take};

use crate::calls::{Call, Row};
use crate::replies::Reply;

/// Whether each of the rows has its old value for its new one.
fn keep_values(rows: &[Row]) -> bool
    ensures { result ≡ list_all keeps_value rows.now }
{
    rows.iter().all(|row| row.old == row.new)
}

/// Whether each of the first `count` rows does.
fn named_keep_values(count: u32, rows: &[Row; 4]) -> bool
    ensures { result ≡ list_all keeps_value (take count rows.now) }
{
    let (named, _) = rows.split_at(count.min(4) as usize);
    keep_values(named)
}

/// Whether a call changes nothing, whatever state it meets: one that looks, adds or shifts 0, or writes the value that
/// must be there. A set is none of these. It answers for every call.
///
/// It takes constant time and no memory.
pub fn still(call: Call) -> bool
    ensures { result ≡ is_still call }
{
    match call {
        Call::Get | Call::Has { .. } | Call::Read { .. } => true,
        Call::Add { v } => v == 0,
        Call::Swap { old, new } => old == new,
        Call::Shift { n, .. } => n == 0,
        Call::Multi { count, rows } => named_keep_values(count, &rows),
        _ => false,
    }
}

/// Whether a reply tells of a change, of a call that can change something.
fn tells_change(reply: Reply) -> bool
    ensures { result ≡ tells_change reply }
{
    matches!(reply, Reply::Done { .. } | Reply::Added | Reply::Removed)
}

/// Whether a call with this reply is quiet: it changes nothing on any state, or its reply tells that it changed
/// nothing. A quiet call raises no tag, and makes no other attempt repeat. It answers for every call and reply.
///
/// It takes constant time and no memory.
pub fn quiet(call: Call, reply: Reply) -> bool
    ensures { result ≡ is_quiet call reply }
{
    still(call) || !tells_change(reply)
}
