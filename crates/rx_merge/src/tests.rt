// Worked orders of the entries of some callers.
ghost use Rattle.rx_merge.specs.Merged.{AreOf};
ghost use Rattle.rx_merge.specs.Rows.{made as made_by};
ghost use Rattle.rx_seq.specs.declared.entries.Entry.{Entry as AnEntry};
ghost use Rattle.rx_seq.specs.declared.kinds.Part.{Part};
ghost use Rattle.std.specs.Prelude.{◌≡◌, List, [], ◌∷◌};

use super::*;
use rx_seq::{Call, Entry, Reply};
use std::alloc::Global;
use std::process::Abort;

/// Merges the lists of three callers, and wants this order.
fn wants(
    rt: &impl Abort,
    alloc: Global,
    zero: &[Entry],
    one: &[Entry],
    two: &[Entry],
    order: &[Entry],
)
    requires { (parts : List Part) × (history : List AnEntry) × AreOf parts 2 (zero.now ∷ one.now ∷ two.now ∷ []) history }
{
    let lists = [
        zero.to_vec(alloc).expect(rt, "memory"),
        one.to_vec(alloc).expect(rt, "memory"),
        two.to_vec(alloc).expect(rt, "memory"),
    ];
    let merged = merge(alloc, 2, &lists).expect(rt, "memory");
    assert_eq!(rt; merged.as_slice(), order);
}

/// An entry whose reply is done.
const fn made(caller: u32, index: u64, object: u32, call: Call, v: u32, tag: u64) -> Entry
    ensures { result ≡ made_by caller index object call v tag }
{
    let reply = Reply::Done { v };
    Entry {
        caller,
        index,
        object,
        call,
        reply,
        tag,
    }
}

#[test]
fn orders(rt: HostRuntime) {
    let alloc = rt.alloc();
    let late = made(0, 1, 0, Call::Add { v: 1 }, 6, 2);
    let early = made(1, 1, 0, Call::Add { v: 5 }, 5, 1);
    wants(&rt, alloc, &[late], &[early], &[], &[early, late]);
    let zero_writes = made(0, 1, 1, Call::Set { v: 7 }, 7, 2);
    let one_writes = made(1, 1, 0, Call::Set { v: 3 }, 3, 1);
    let one_reads = made(1, 2, 1, Call::Get, 7, 2);
    let two_writes = made(2, 1, 1, Call::Set { v: 4 }, 4, 1);
    let two_reads = made(2, 2, 0, Call::Get, 3, 1);
    wants(
        &rt,
        alloc,
        &[zero_writes],
        &[one_writes, one_reads],
        &[two_writes, two_reads],
        &[one_writes, two_writes, zero_writes, one_reads, two_reads],
    );
    let zero_sets = made(0, 1, 0, Call::Set { v: 5 }, 5, 1);
    let one_adds = made(1, 1, 1, Call::Add { v: 2 }, 2, 1);
    let one_looks = made(1, 2, 0, Call::Get, 0, 0);
    wants(
        &rt,
        alloc,
        &[zero_sets],
        &[one_adds, one_looks],
        &[],
        &[one_adds, one_looks, zero_sets],
    );
    let zero_looks = made(0, 1, 0, Call::Get, 5, 1);
    let one_looks_first = made(1, 1, 0, Call::Get, 0, 0);
    let one_adds_then = made(1, 2, 0, Call::Add { v: 5 }, 5, 1);
    wants(
        &rt,
        alloc,
        &[zero_looks],
        &[one_looks_first, one_adds_then],
        &[],
        &[one_looks_first, one_adds_then, zero_looks],
    );
}
