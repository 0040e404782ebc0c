// What the words of nodes say of a call, while they are read in order.
ghost use Rattle.rx_nodes.specs.Chains.{AreBelow, IsAbove, IsAddition, IsGoing, IsKept, IsLimit, IsLined, IsPassed, IsSought, IsTold, ServesNodes, added_reply as reply_of_added, added_value as value_of_added, read_nodes, removed_reply as reply_of_removed, taken_as};
ghost use Rattle.rx_nodes.specs.Copies.{leads};
ghost use Rattle.rx_seq.specs.declared.replies.Reply.TheVariants.{Full};
ghost use Rattle.rx_shape.specs.Forms.{InRange};
ghost use Rattle.rx_shape.specs.Nodes.{first_of as first_in, no_place, spare_of as spare_in, value_of as value_in};
ghost use Rattle.std.specs.Prelude.{ℕ, ◌≡◌, ◌≢◌, ◌≤◌, ◌<◌, ◌-◌, ◌+◌, ◌^◌, true, false, [], length, slice_index, take};

use rx_seq::{Call, Reply};
use rx_shape::{Home, NO_PLACE, first_of, next_of, node, spare_of, value_of};

/// A word of as many bits and more is neither a header nor a node.
const WORD_LIMIT: u64 = 72_057_594_037_927_936;

/// What the words that were read say of a call.
#[derive(Clone, Copy, Debug)]
pub(crate) enum Step {
    /// The header is to be read.
    First,
    /// The node at this place is to be read.
    Along { place: u32 },
    /// The first spare node is to be read: one number is added after so many nodes, and its node leads to this place.
    Spare { before: u32, kept: u32 },
    /// No version has these words.
    Broken,
    /// The call has this reply, and leaves each state equal that has these words.
    Kept { reply: Reply },
    /// A number is added after so many nodes. Its node leads to this place, and this is the word of the first spare node.
    Adding { before: u32, kept: u32, word: u64 },
    /// The node that was read last is taken out.
    Removing,
}

/// Whether a place is one of the object's.
#[inline(always)]
fn is_place(home: &Home, place: u32) -> bool
    requires { home.now.first + home.now.count ≤ 16777215 }
    ensures yes { result ≡ true → InRange home.now place }
    ensures no { result ≡ false → InRange home.now place → ⊥ }
{
    place.wrapping_sub(home.first) < home.count
}

/// How many spare nodes a header has at least.
#[inline(always)]
fn least_spares(head: u64) -> u32
    ensures none { spare_in head ≡ no_place → result ≡ 0 }
    ensures some { spare_in head ≢ no_place → result ≡ 1 }
{
    if spare_of(head) == NO_PLACE { 0 } else { 1 }
}

/// What the words of the nodes are below that a call passes by.
pub(crate) fn limit_of(call: &Call) -> u64
    ensures { IsLimit call.now result }
{
    match call {
        Call::Take => 0,
        Call::Insert { k } | Call::Remove { k } | Call::Has { k } => node(*k, 0),
        _ => WORD_LIMIT,
    }
}

/// What a header says. It takes constant time.
pub(crate) fn after_header(home: &Home, call: &Call, head: u64) -> Step
    requires serves { ServesNodes home.now call.now }
    ensures told { IsTold home.now call.now head [] result }
    ensures taken { (root : ℕ) → taken_as result root head [] ≡ read_nodes root head [] }
{
    if head >= WORD_LIMIT {
        return Step::Broken;
    }
    if let Call::Put { .. } = call {
        if spare_of(head) == NO_PLACE {
            return Step::Kept { reply: Reply::Full };
        }
    }
    reach(home, call, head, &[], first_of(head))
}

/// What is next where these nodes lead to this place.
#[inline(always)]
fn reach(home: &Home, call: &Call, head: u64, nodes: &[u64], place: u32) -> Step
    requires serves { ServesNodes home.now call.now }
    requires passed { IsPassed home.now call.now head nodes.now }
    requires place { place ≡ leads (first_in head) nodes.now }
    ensures told { IsTold home.now call.now head nodes.now result }
    ensures taken { (root : ℕ) → taken_as result root head nodes.now ≡ read_nodes root head nodes.now }
{
    if place == NO_PLACE {
        return finish(home, call, head, nodes);
    }
    if is_place(home, place) && nodes.len() as u32 + least_spares(head) < home.part.cap {
        Step::Along { place }
    } else {
        Step::Broken
    }
}

/// What a call makes of all nodes, of which none was the one that it looks for.
fn finish(home: &Home, call: &Call, head: u64, nodes: &[u64]) -> Step
    requires serves { ServesNodes home.now call.now }
    requires passed { IsPassed home.now call.now head nodes.now }
    requires end { leads (first_in head) nodes.now ≡ no_place }
    ensures told { IsTold home.now call.now head nodes.now result }
    ensures taken { (root : ℕ) → taken_as result root head nodes.now ≡ read_nodes root head nodes.now }
{
    match call {
        Call::Put { .. } | Call::Insert { .. } => {
            add(home, call, head, nodes, nodes.len() as u32, NO_PLACE)
        }
        Call::Take => Step::Kept {
            reply: Reply::Empty,
        },
        Call::Remove { .. } => Step::Kept {
            reply: Reply::Absent,
        },
        _ => Step::Kept { reply: Reply::No },
    }
}

/// A number is added, if there is a spare node.
fn add(home: &Home, call: &Call, head: u64, nodes: &[u64], before: u32, kept: u32) -> Step
    requires serves { ServesNodes home.now call.now }
    requires lined { IsLined home.now call.now head nodes.now }
    requires full { spare_in head ≡ no_place → IsKept home.now call.now head nodes.now Full }
    requires addition { spare_in head ≢ no_place → IsAddition home.now call.now head nodes.now before kept }
    ensures told { IsTold home.now call.now head nodes.now result }
    ensures taken { (root : ℕ) → taken_as result root head nodes.now ≡ read_nodes root head nodes.now }
{
    let spare = spare_of(head);
    if spare == NO_PLACE {
        Step::Kept { reply: Reply::Full }
    } else if is_place(home, spare) {
        Step::Spare { before, kept }
    } else {
        Step::Broken
    }
}

/// What the node says that was read last, at this place. It takes constant time.
pub(crate) fn after_node(
    home: &Home,
    call: &Call,
    limit: u64,
    head: u64,
    nodes: &[u64],
    place: u32,
) -> Step
    requires serves { ServesNodes home.now call.now }
    requires limit { IsLimit call.now limit }
    requires some { 0 < length nodes.now }
    requires going { IsGoing home.now call.now head (take (length nodes.now - 1) nodes.now) place }
    ensures told { IsTold home.now call.now head nodes.now result }
    ensures taken { (root : ℕ) → taken_as result root head nodes.now ≡ read_nodes root head nodes.now }
{
    let word = nodes[nodes.len() - 1];
    if word < limit {
        return reach(home, call, head, nodes, next_of(word));
    }
    if word >= WORD_LIMIT {
        return Step::Broken;
    }
    match call {
        Call::Insert { k } | Call::Remove { k } | Call::Has { k } => {
            if value_of(word) == *k {
                found(home, call, head, nodes)
            } else {
                missed(home, call, head, nodes, place)
            }
        }
        _ => Step::Removing,
    }
}

/// What a call of a list makes of nodes of which the last one has its number.
fn found(_home: &Home, call: &Call, _head: u64, _nodes: &[u64]) -> Step
    requires serves { ServesNodes _home.now call.now }
    requires lined { IsLined _home.now call.now _head _nodes.now }
    requires some { 0 < length _nodes.now }
    requires below { AreBelow call.now (take (length _nodes.now - 1) _nodes.now) }
    requires same { IsSought call.now (value_in (slice_index _nodes.now (length _nodes.now - 1))) }
    ensures told { IsTold _home.now call.now _head _nodes.now result }
    ensures taken { (root : ℕ) → taken_as result root _head _nodes.now ≡ read_nodes root _head _nodes.now }
{
    match call {
        Call::Insert { .. } => Step::Kept {
            reply: Reply::Present,
        },
        Call::Remove { .. } => Step::Removing,
        _ => Step::Kept { reply: Reply::Yes },
    }
}

/// What a call of a list makes of nodes of which the last one, at this place, has a greater number than its own.
fn missed(home: &Home, call: &Call, head: u64, nodes: &[u64], place: u32) -> Step
    requires serves { ServesNodes home.now call.now }
    requires lined { IsLined home.now call.now head nodes.now }
    requires some { 0 < length nodes.now }
    requires below { AreBelow call.now (take (length nodes.now - 1) nodes.now) }
    requires above { IsAbove call.now (value_in (slice_index nodes.now (length nodes.now - 1))) }
    requires place { place ≡ leads (first_in head) (take (length nodes.now - 1) nodes.now) }
    requires small { place < 16777216 }
    ensures told { IsTold home.now call.now head nodes.now result }
    ensures taken { (root : ℕ) → taken_as result root head nodes.now ≡ read_nodes root head nodes.now }
{
    match call {
        Call::Insert { .. } => add(home, call, head, nodes, nodes.len() as u32 - 1, place),
        Call::Remove { .. } => Step::Kept {
            reply: Reply::Absent,
        },
        _ => Step::Kept { reply: Reply::No },
    }
}

/// The number that a call adds, if it adds one.
pub(crate) fn added_value(call: &Call) -> u32
    ensures { result ≡ value_of_added call.now }
{
    match call {
        Call::Put { v } => *v,
        Call::Insert { k } => *k,
        _ => 0,
    }
}

/// The reply of adding a number after so many nodes.
pub(crate) fn added_reply(call: &Call, before: u32) -> Reply
    requires { before < 64 }
    ensures { result ≡ reply_of_added call.now before }
{
    match call {
        Call::Put { .. } => Reply::Done { v: before + 1 },
        _ => Reply::Added,
    }
}

/// The reply of taking out the node that has this word.
pub(crate) fn removed_reply(call: &Call, word: u64) -> Reply
    requires { word < 2 ^ 56 }
    ensures { result ≡ reply_of_removed call.now word }
{
    match call {
        Call::Take => Reply::Done { v: value_of(word) },
        _ => Reply::Removed,
    }
}
