// Plans that copy the nodes before the one that changes.
ghost use Rattle.rx_nodes.specs.Copies.{copies, lead, leads, pairs_from, path_pairs, path_writes, stations};
ghost use Rattle.rx_shape.specs.Nodes.{first_of as first_in, header_word, next_of as next_in, node_word, spare_of as spare_in};
ghost use Rattle.rx_shape.specs.Words.{low_of as low_in, pack as packed, tag_of as tag_in};
ghost use Rattle.std.specs.Prelude.{ℕ, ◌≡◌, ◌≤◌, ◌<◌, ◌+◌, ◌-◌, ◌^◌, [], ◌∷◌, ◌++◌, length, slice_index, take};

use rx_shape::{
    Pair, Plan, Write, first_of, header, low_of, next_of, node, pack, spare_of, tag_of, value_of,
};

/// Writes an own place, and trades it for this place.
#[inline(always)]
fn write_own(own: u32, value: u64, place: u32, out: &mut Plan)
    requires writes { length out.old.writes.items < 65 }
    requires pairs { length out.old.trade.pairs.items < 65 }
    ensures root { out.new.root ≡ out.old.root }
    ensures writes { out.new.writes.items ≡ out.old.writes.items ++ record { own = own; value = value } ∷ [] }
    ensures pairs { out.new.trade.pairs.items ≡ out.old.trade.pairs.items ++ record { own = own; place = place } ∷ [] }
{
    out.writes.push(Write { own, value });
    out.trade.pairs.push(Pair { own, place });
}

/// Begins a plan: the header, which leads to the copies and to this spare node, and copies of these nodes, the last of which
/// leads to this end. The old header and the old nodes are traded for the own places. It tells where the nodes lead.
fn copy_path(
    root: u64,
    own: &[u32],
    head: u64,
    nodes: &[u64],
    end: u32,
    spare: u32,
    out: &mut Plan,
) -> u32
    requires tag { tag_in root + 1 < 2 ^ 40 }
    requires room { length nodes.now + 1 < length own.now }
    requires few { length own.now ≤ 65 }
    requires own { (n : ℕ) → n < length own.now → slice_index own.now n < 2 ^ 24 }
    requires head { head < 2 ^ 56 }
    requires nodes { (n : ℕ) → n < length nodes.now → slice_index nodes.now n < 2 ^ 56 }
    requires end { end < 2 ^ 24 }
    requires spare { spare < 2 ^ 24 }
    ensures root { out.new.root ≡ packed (tag_in root + 1) (slice_index own.now 0) }
    ensures writes { out.new.writes.items ≡ record { own = 0; value = header_word (lead 1 own.now nodes.now end) spare } ∷ copies 1 own.now nodes.now end }
    ensures pairs { out.new.trade.pairs.items ≡ pairs_from 0 (low_in root ∷ stations (first_in head) nodes.now) }
    ensures place { result ≡ leads (first_in head) nodes.now }
{
    out.root = pack(tag_of(root) + 1, own[0]);
    out.writes.clear();
    out.trade.pairs.clear();
    let first = if nodes.is_empty() { end } else { own[1] };
    write_own(0, header(first, spare), low_of(root), out);
    let mut place = first_of(head);
    for n in 0..nodes.len() {
        let next = if n + 1 < nodes.len() { own[n + 2] } else { end };
        write_own(n as u32 + 1, node(value_of(nodes[n]), next), place, out);
        place = next_of(nodes[n]);
    }
    place
}

/// The plan that adds a value after these nodes: its node leads to this place, and stands where the first spare node stood,
/// whose word is told.
pub(crate) fn add_node(
    root: u64,
    own: &[u32],
    head: u64,
    nodes: &[u64],
    value: u32,
    kept: u32,
    word: u64,
    out: &mut Plan,
)
    requires tag { tag_in root + 1 < 2 ^ 40 }
    requires room { length nodes.now + 1 < length own.now }
    requires few { length own.now ≤ 65 }
    requires own { (n : ℕ) → n < length own.now → slice_index own.now n < 2 ^ 24 }
    requires head { head < 2 ^ 56 }
    requires nodes { (n : ℕ) → n < length nodes.now → slice_index nodes.now n < 2 ^ 56 }
    requires kept { kept < 2 ^ 24 }
    ensures root { out.new.root ≡ packed (tag_in root + 1) (slice_index own.now 0) }
    ensures writes { out.new.writes.items ≡ path_writes own.now nodes.now (slice_index own.now (length nodes.now + 1)) (next_in word) (node_word value kept) }
    ensures pairs { out.new.trade.pairs.items ≡ path_pairs root head nodes.now (spare_in head) }
{
    let last = nodes.len() + 1;
    copy_path(root, own, head, nodes, own[last], next_of(word), out);
    write_own(last as u32, node(value, kept), spare_of(head), out);
}

/// The plan that takes out the last of these nodes: an own place becomes the first spare node in its stead.
pub(crate) fn remove_node(root: u64, own: &[u32], head: u64, nodes: &[u64], out: &mut Plan)
    requires tag { tag_in root + 1 < 2 ^ 40 }
    requires some { 0 < length nodes.now }
    requires room { length nodes.now < length own.now }
    requires few { length own.now ≤ 65 }
    requires own { (n : ℕ) → n < length own.now → slice_index own.now n < 2 ^ 24 }
    requires head { head < 2 ^ 56 }
    requires nodes { (n : ℕ) → n < length nodes.now → slice_index nodes.now n < 2 ^ 56 }
    ensures root { out.new.root ≡ packed (tag_in root + 1) (slice_index own.now 0) }
    ensures writes { out.new.writes.items ≡ path_writes own.now (take (length nodes.now - 1) nodes.now) (next_in (slice_index nodes.now (length nodes.now - 1))) (slice_index own.now (length nodes.now)) (node_word 0 (spare_in head)) }
    ensures pairs { out.new.trade.pairs.items ≡ path_pairs root head (take (length nodes.now - 1) nodes.now) (leads (first_in head) (take (length nodes.now - 1) nodes.now)) }
{
    let last = nodes.len() - 1;
    let spare = own[last + 1];
    let place = copy_path(
        root,
        own,
        head,
        &nodes[..last],
        next_of(nodes[last]),
        spare,
        out,
    );
    write_own(last as u32 + 1, node(0, spare_of(head)), place, out);
}
