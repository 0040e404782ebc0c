// Plans of a block that moves its next state into the own block.
ghost use Rattle.rx_shape.specs.Moves.{block_pairs, block_writes};
ghost use Rattle.rx_shape.specs.Words.{low_of as low_in, pack as packed, tag_of as tag_in};
ghost use Rattle.std.specs.Prelude.{◌≡◌, ◌+◌, ◌<◌, ◌≤◌, ◌^◌, [], length, slice_index};

use crate::plans::{MOST_PLACES, Pair, Plan, Write};
use crate::roots::{low_of, pack, tag_of};
use arrayvec::ArrayVec;

/// The plan of a loud call that makes this state: it is written into the own block, which trades places with the old
/// one, and the tag is the next one. It takes time that grows with the state and the block.
pub(crate) fn move_block(root: u64, own: &[u32], state: &[u32], out: &mut Plan)
    requires tag { tag_in root + 1 < 2 ^ 40 }
    requires some { 0 < length own.now }
    requires few { length own.now ≤ MOST_PLACES }
    requires place { slice_index own.now 0 < 2 ^ 24 }
    requires state { length state.now ≤ 64 }
    ensures root { out.new.root ≡ packed (tag_in root + 1) (slice_index own.now 0) }
    ensures writes { out.new.writes.items ≡ block_writes state.now }
    ensures pairs { out.new.trade.pairs.items ≡ block_pairs 0 (low_in root) (length own.now) }
{
    out.root = pack(tag_of(root) + 1, own[0]);
    write_block(state, &mut out.writes);
    trade_block(low_of(root), own.len() as u32, &mut out.trade.pairs);
}

/// Writes the length and the numbers.
fn write_block(state: &[u32], writes: &mut ArrayVec<Write, MOST_PLACES>)
    requires { length state.now ≤ 64 }
    ensures { writes.new.items ≡ block_writes state.now }
{
    writes.clear();
    writes.push(Write {
        own: 0,
        value: state.len() as u64,
    });
    for number in 0..state.len() {
        writes.push(Write {
            own: number as u32 + 1,
            value: u64::from(state[number]),
        });
    }
}

/// Gives each own number its place of the block from this place on.
fn trade_block(place: u32, count: u32, pairs: &mut ArrayVec<Pair, MOST_PLACES>)
    requires place { place < 2 ^ 24 }
    requires count { count ≤ MOST_PLACES }
    ensures { pairs.new.items ≡ block_pairs 0 place count }
{
    pairs.clear();
    for own in 0..count {
        pairs.push(Pair {
            own,
            place: place + own,
        });
    }
}
