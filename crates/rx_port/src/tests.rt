// The start of a small bank, and two seats that add to one cell.
ghost use Rattle.rx_port.specs.Core.{new_attempt};
ghost use Rattle.rx_port.specs.Plain.{HasRoom, IsSeatOf, view_at};
ghost use Rattle.rx_port.specs.Rows.{add_one, small};
ghost use Rattle.rx_shape.specs.Words.{tag_of as tag_in};
ghost use Rattle.std.specs.Prelude.{ℕ, ◌≡◌, ◌<◌, ◌≤◌, ◌+◌, IfOk, Some};

use super::*;
use arrayvec::ArrayVec;
use rx_seq::{Call, Kind, NoMemory, Part, Reply};
use rx_shape::{Inline, Layout, Plan, Shape, Trade, tag_of};
use std::alloc::Global;
use std::test::Fail;

#[test]
fn start_of_a_bank(rt: HostRuntime) -> Result<(), Fail> {
    let parts = [
        Part {
            kind: Kind::Cell,
            cap: 1,
        },
        Part {
            kind: Kind::Queue,
            cap: 2,
        },
    ];
    let layout = Layout::new(rt.alloc(), &parts, 2, 5).map_err(|_| "no memory")?;
    let bank = Bank::new(rt.alloc(), layout).map_err(|_| "no memory")?;
    assert_eq!(rt; bank.counts(), Counts::default());
    assert_eq!(rt; bank.tag(1), 5);
    let mut state = ArrayVec::new();
    bank.state(0, &mut state);
    assert_eq!(rt; state.as_slice(), [0].as_slice());
    bank.state(1, &mut state);
    assert_eq!(rt; state.len(), 0);
    Ok(())
}

// The bank of one cell and two seats that `specs/Rows.antt` tells of.
fn small_bank(alloc: Global) -> Result<Bank, NoMemory>
    ensures layout { IfOk result (λ bank. bank.layout ≡ small) }
    ensures ours { IfOk result (λ bank. (seat : ℕ) → seat < 2 → IsSeatOf bank seat) }
    ensures room { IfOk result (λ bank. HasRoom 6 bank.core) }
{
    let parts = [Part {
        kind: Kind::Cell,
        cap: 1,
    }];
    let layout = Layout::new(alloc, &parts, 2, 0)?;
    Bank::new(alloc, layout)
}

// A seat begins to add 1.
fn begin_add(bank: &mut Bank, mut seat: u32) -> u64
    requires layout { bank.old.layout ≡ small }
    requires ours { IsSeatOf bank.old seat }
    requires room { HasRoom 1 bank.old.core }
    ensures layout { bank.new.layout ≡ small }
    ensures ours { (other : ℕ) → IsSeatOf bank.old other → IsSeatOf bank.new other }
    ensures room { (n : ℕ) → HasRoom (n + 1) bank.old.core → HasRoom n bank.new.core }
    ensures open { (view_at bank.new.core seat).attempt ≡ Some (new_attempt 0 add_one result) }
    ensures others { (other : ℕ) → (other ≡ seat → ⊥) → view_at bank.new.core other ≡ view_at bank.old.core other }
{
    bank.begin(&mut seat, 0, Call::Add { v: 1 })
}

// A seat that began at this root decides. The reply is that of its plan.
fn decide_add(bank: &mut Bank, mut seat: u32, root: u64) -> (Reply, u64)
    requires layout { bank.old.layout ≡ small }
    requires ours { IsSeatOf bank.old seat }
    requires room { HasRoom 1 bank.old.core }
    requires open { (view_at bank.old.core seat).attempt ≡ Some (new_attempt 0 add_one root) }
    requires tag { tag_in root ≤ 1 }
    ensures layout { bank.new.layout ≡ small }
    ensures ours { (other : ℕ) → IsSeatOf bank.old other → IsSeatOf bank.new other }
    ensures room { (n : ℕ) → HasRoom (n + 1) bank.old.core → HasRoom n bank.new.core }
    ensures others { (other : ℕ) → (other ≡ seat → ⊥) → view_at bank.new.core other ≡ view_at bank.old.core other }
{
    let part = Part {
        kind: Kind::Cell,
        cap: 1,
    };
    let mut plan = Plan {
        root: 0,
        writes: ArrayVec::new(),
        trade: Trade {
            pairs: ArrayVec::new(),
        },
    };
    let shape = Inline::start(part, Call::Add { v: 1 }, 0, 0);
    let own = ArrayVec::new();
    let reply = shape.plan(root, &own, &mut plan);
    let found = bank.decide(&mut seat, 0, root, plan.root, &plan.trade);
    (reply, found)
}

// Both seats begin at the same root, and the second decides first. The first then finds another root than its own,
// begins again, and wins.
#[test]
fn two_seats_on_a_cell(rt: HostRuntime) -> Result<(), Fail> {
    let mut bank = match small_bank(rt.alloc()) {
        Ok(bank) => bank,
        Err(_) => return Err("no memory".into()),
    };
    let first = begin_add(&mut bank, 0);
    let second = begin_add(&mut bank, 1);
    if tag_of(first) > 1 || tag_of(second) > 1 {
        return Err("tags start at 0".into());
    }
    let won = decide_add(&mut bank, 1, second);
    assert_eq!(rt; won, (Reply::Done { v: 1 }, 0));
    let lost = decide_add(&mut bank, 0, first);
    assert_eq!(rt; lost, (Reply::Done { v: 1 }, 16_777_217));
    let again = begin_add(&mut bank, 0);
    if tag_of(again) > 1 {
        return Err("one entry".into());
    }
    let won = decide_add(&mut bank, 0, again);
    assert_eq!(rt; won, (Reply::Done { v: 2 }, 16_777_217));
    let mut state = ArrayVec::new();
    bank.state(0, &mut state);
    assert_eq!(rt; state.as_slice(), [2].as_slice());
    assert_eq!(rt; bank.tag(0), 2);
    let counts = Counts {
        loads: 3,
        stores: 0,
        exchanges: 3,
    };
    assert_eq!(rt; bank.counts(), counts);
    Ok(())
}
