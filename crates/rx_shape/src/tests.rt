// Words of a small layout, and attempts on a cell and on registers.
ghost use Rattle.rx_seq.specs.Table.{IsPart};
ghost use Rattle.rx_shape.specs.Forms.{block, form_of};
ghost use Rattle.rx_shape.specs.Places.{run};
ghost use Rattle.std.specs.Prelude.{◌≡◌, ◌≤◌, ◌+◌};

use super::*;
use arrayvec::ArrayVec;
use rx_seq::{Call, Kind, Part, Reply, Row, fits};
use std::test::Fail;

#[test]
fn words_of_a_layout(rt: HostRuntime) -> Result<(), Fail> {
    let parts = [
        Part {
            kind: Kind::Cell,
            cap: 1,
        },
        Part {
            kind: Kind::Registers,
            cap: 2,
        },
    ];
    let layout = Layout::new(rt.alloc(), &parts, 2, 5).map_err(|_| "no memory")?;
    assert_eq!(rt; layout.parts().len(), 2);
    assert_eq!(rt; layout.seats(), 2);
    assert_eq!(rt; layout.first(), 5);
    assert_eq!(rt; layout.words(), 12);
    assert_eq!(rt; layout.first_place(0), 0);
    assert_eq!(rt; layout.places(0), 0);
    assert_eq!(rt; layout.first_place(1), 3);
    assert_eq!(rt; layout.places(1), 9);
    assert_eq!(rt; layout.start_word(2), 83_886_083);
    assert_eq!(rt; layout.start_word(3), 2);
    Ok(())
}

#[test]
fn words_of_nodes(rt: HostRuntime) -> Result<(), Fail> {
    let word = node(5, 12);
    assert_eq!(rt; word, 83_886_092);
    assert_eq!(rt; value_of(word), 5);
    assert_eq!(rt; next_of(word), 12);
    let word = header(11, NO_PLACE);
    assert_eq!(rt; first_of(word), 11);
    assert_eq!(rt; spare_of(word), NO_PLACE);
    let parts = [Part {
        kind: Kind::Queue,
        cap: 2,
    }];
    let layout = Layout::new(rt.alloc(), &parts, 1, 0).map_err(|_| "no memory")?;
    assert_eq!(rt; layout.start_word(2), header(NO_PLACE, 3));
    assert_eq!(rt; layout.start_word(3), node(0, 4));
    assert_eq!(rt; layout.start_word(4), node(0, NO_PLACE));
    assert_eq!(rt; layout.start_word(5), 0);
    Ok(())
}

#[test]
fn words_of_a_root(rt: HostRuntime) {
    assert_eq!(rt; pack(1, 1), 16_777_217);
    assert_eq!(rt; tag_of(16_777_217), 1);
    assert_eq!(rt; low_of(16_777_217), 1);
}

fn no_plan() -> Plan {
    Plan {
        root: 0,
        writes: ArrayVec::new(),
        trade: Trade {
            pairs: ArrayVec::new(),
        },
    }
}

/// An attempt on a cell with tag 1 and value 4. It tells the reply, or `None` where the call is none of a cell.
fn attempt_on_a_cell(call: Call, plan: &mut Plan) -> Option<Reply> {
    let cell = Part {
        kind: Kind::Cell,
        cap: 1,
    };
    if !fits(cell, call) {
        return None;
    }
    let shape = Inline::start(cell, call, 0, 0);
    let root = pack(1, 4);
    match shape.want(root) {
        Want::Ready => Some(shape.plan(root, &ArrayVec::new(), plan)),
        _ => None,
    }
}

#[test]
fn loud_calls_of_a_cell(rt: HostRuntime) {
    let mut plan = no_plan();
    let found = attempt_on_a_cell(Call::Add { v: 3 }, &mut plan);
    assert_eq!(rt; found, Some(Reply::Done { v: 7 }));
    assert_eq!(rt; plan.root, 33_554_439);
    assert_eq!(rt; plan.writes.len(), 0);
    assert_eq!(rt; plan.trade.pairs.len(), 0);
    let found = attempt_on_a_cell(Call::Swap { old: 4, new: 5 }, &mut plan);
    assert_eq!(rt; found, Some(Reply::Done { v: 5 }));
    assert_eq!(rt; plan.root, pack(2, 5));
    let found = attempt_on_a_cell(Call::Set { v: 4 }, &mut plan);
    assert_eq!(rt; found, Some(Reply::Done { v: 4 }));
    assert_eq!(rt; plan.root, pack(2, 4));
}

#[test]
fn quiet_calls_of_a_cell(rt: HostRuntime) {
    let mut plan = no_plan();
    let found = attempt_on_a_cell(Call::Get, &mut plan);
    assert_eq!(rt; found, Some(Reply::Done { v: 4 }));
    assert_eq!(rt; plan.root, pack(1, 4));
    let mut plan = no_plan();
    let found = attempt_on_a_cell(Call::Add { v: 0 }, &mut plan);
    assert_eq!(rt; found, Some(Reply::Done { v: 4 }));
    assert_eq!(rt; plan.root, pack(1, 4));
    let mut plan = no_plan();
    let found = attempt_on_a_cell(Call::Swap { old: 4, new: 4 }, &mut plan);
    assert_eq!(rt; found, Some(Reply::Done { v: 4 }));
    assert_eq!(rt; plan.root, pack(1, 4));
    let mut plan = no_plan();
    let found = attempt_on_a_cell(Call::Swap { old: 5, new: 6 }, &mut plan);
    assert_eq!(rt; found, Some(Reply::Differs { v: 4 }));
    assert_eq!(rt; plan.root, pack(1, 4));
}

/// So many places that follow each other.
fn places(first: u32, count: u32) -> ArrayVec<u32, MOST_PLACES>
    requires first { first ≤ 1000 }
    requires count { count ≤ MOST_PLACES }
    ensures { result.items ≡ run first count }
{
    let mut places = ArrayVec::new();
    for n in 0..count {
        places.push(first + n);
    }
    places
}

/// An attempt on a block that stands from place 10 on, with tag 7 and with these words. The own block stands after it.
/// It tells how many words were read, and the reply, or `None` where the words are of no version.
fn attempt(part: Part, call: Call, words: &[u64], plan: &mut Plan) -> (usize, Option<Reply>)
    requires part { IsPart part }
    requires form { form_of part.kind ≡ block }
{
    if !fits(part, call) {
        return (0, None);
    }
    let size = stock(part);
    let mut shape = Blocks::start(part, call, 10, 2 * size);
    let root = pack(7, 10);
    let mut read = 0;
    for (n, word) in words.iter().enumerate() {
        if let Want::Read { .. } = shape.want(root) {
            shape.take(*word);
            read = n + 1;
        }
    }
    match shape.want(root) {
        Want::Ready => {
            let own = places(10 + size, size);
            (read, Some(shape.plan(root, &own, plan)))
        }
        _ => (read, None),
    }
}

/// Whether the plan writes these values under the own numbers from 0 on.
fn writes(plan: &Plan, values: &[u64]) -> bool {
    if plan.writes.len() != values.len() {
        return false;
    }
    for (own, write) in plan.writes.iter().enumerate() {
        if write.own as usize != own || own >= values.len() || write.value != values[own] {
            return false;
        }
    }
    true
}

#[test]
fn attempts_on_registers(rt: HostRuntime) {
    let registers = Part {
        kind: Kind::Registers,
        cap: 3,
    };
    let mut plan = no_plan();
    let words = [3, 5, 6, 4_294_967_295];
    let found = attempt(registers, Call::Read { i: 1 }, &words, &mut plan);
    assert_eq!(rt; found, (3, Some(Reply::Done { v: 6 })));
    let shift = |from, to, n| Call::Shift { from, to, n };
    let found = attempt(registers, shift(2, 0, 2), &words, &mut plan);
    assert_eq!(rt; found, (4, Some(Reply::Done { v: 7 })));
    assert!(rt; writes(&plan, &[3, 7, 6, 4_294_967_293]));
    let found = attempt(registers, shift(0, 2, 6), &words, &mut plan);
    assert_eq!(rt; found, (2, Some(Reply::Short { v: 5 })));
    let found = attempt(registers, shift(0, 2, 1), &words, &mut plan);
    assert_eq!(rt; found, (4, Some(Reply::Over)));
    let found = attempt(registers, shift(0, 1, 0), &words, &mut plan);
    assert_eq!(rt; found, (3, Some(Reply::Done { v: 6 })));
    assert_eq!(rt; plan.root, pack(7, 10));
    assert_eq!(rt; plan.writes.len(), 0);
    let row = |i, old, new| Row { i, old, new };
    let multi = |old| Call::Multi {
        count: 2,
        rows: [row(0, 5, 1), row(1, old, 2), Row::default(), Row::default()],
    };
    let found = attempt(registers, multi(7), &words, &mut plan);
    assert_eq!(rt; found, (3, Some(Reply::Differs { v: 6 })));
    let found = attempt(registers, multi(6), &words, &mut plan);
    assert_eq!(rt; found, (4, Some(Reply::Done { v: 2 })));
    assert_eq!(rt; plan.root, pack(8, 14));
    assert!(rt; writes(&plan, &[3, 1, 2, 4_294_967_295]));
    assert_eq!(rt;
        attempt(registers, multi(6), &[2, 5, 6], &mut plan),
        (1, None)
    );
}

#[test]
fn multi_of_old_values(rt: HostRuntime) {
    let registers = Part {
        kind: Kind::Registers,
        cap: 2,
    };
    let same = Row {
        i: 0,
        old: 5,
        new: 5,
    };
    let call = Call::Multi {
        count: 1,
        rows: [same, Row::default(), Row::default(), Row::default()],
    };
    let mut plan = no_plan();
    let found = attempt(registers, call, &[2, 5, 6], &mut plan);
    assert_eq!(rt; found, (3, Some(Reply::Done { v: 1 })));
    assert_eq!(rt; plan.root, pack(7, 10));
    assert_eq!(rt; plan.writes.len(), 0);
    assert_eq!(rt; plan.trade.pairs.len(), 0);
}
