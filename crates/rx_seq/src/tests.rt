// Worked rows of the table, one object after another.
ghost use Rattle.rx_seq.specs.Table.{IsPart};

use super::*;
use std::process::Abort;

/// A call, the reply that it must have, and the state that it must leave.
#[derive(Clone, Copy)]
struct Step<'a> {
    call: Call,
    reply: Reply,
    after: &'a [u32],
}

fn wants<'a>(call: Call, reply: Reply, after: &'a [u32]) -> Step<'a> {
    Step { call, reply, after }
}

/// Makes the calls in turn on a new object.
fn run(rt: &impl Abort, part: Part, steps: &[Step])
    requires { IsPart part }
{
    let mut state = State::new();
    start(part, &mut state);
    for row in steps {
        assert!(rt; fits(part, row.call), "{:?}", row.call);
        let reply = apply(part, &mut state, row.call);
        assert_eq!(rt; reply, row.reply, "{:?}", row.call);
        assert_eq!(rt; state.as_slice(), row.after, "{:?}", row.call);
    }
}

const fn change(i: u32, old: u32, new: u32) -> Row {
    Row { i, old, new }
}

fn multi(count: u32, rows: [Row; 4]) -> Call {
    Call::Multi { count, rows }
}

#[test]
fn cells_queues_and_lists(rt: HostRuntime) {
    let cell = Part {
        kind: Kind::Cell,
        cap: 1,
    };
    let most = 16_777_215;
    run(
        &rt,
        cell,
        &[
            wants(Call::Set { v: most }, Reply::Done { v: most }, &[most]),
            wants(Call::Add { v: 1 }, Reply::Over, &[most]),
            wants(Call::Swap { old: most, new: 0 }, Reply::Done { v: 0 }, &[0]),
            wants(Call::Swap { old: 5, new: 6 }, Reply::Differs { v: 0 }, &[0]),
            wants(Call::Add { v: 7 }, Reply::Done { v: 7 }, &[7]),
            wants(Call::Get, Reply::Done { v: 7 }, &[7]),
        ],
    );
    let queue = Part {
        kind: Kind::Queue,
        cap: 2,
    };
    run(
        &rt,
        queue,
        &[
            wants(Call::Put { v: 5 }, Reply::Done { v: 1 }, &[5]),
            wants(Call::Put { v: 6 }, Reply::Done { v: 2 }, &[5, 6]),
            wants(Call::Put { v: 7 }, Reply::Full, &[5, 6]),
            wants(Call::Take, Reply::Done { v: 5 }, &[6]),
            wants(Call::Take, Reply::Done { v: 6 }, &[]),
            wants(Call::Take, Reply::Empty, &[]),
        ],
    );
    let list = Part {
        kind: Kind::List,
        cap: 3,
    };
    run(
        &rt,
        list,
        &[
            wants(Call::Insert { k: 9 }, Reply::Added, &[9]),
            wants(Call::Insert { k: 3 }, Reply::Added, &[3, 9]),
            wants(Call::Insert { k: 7 }, Reply::Added, &[3, 7, 9]),
            wants(Call::Insert { k: 7 }, Reply::Present, &[3, 7, 9]),
            wants(Call::Insert { k: 4 }, Reply::Full, &[3, 7, 9]),
            wants(Call::Has { k: 3 }, Reply::Yes, &[3, 7, 9]),
            wants(Call::Remove { k: 3 }, Reply::Removed, &[7, 9]),
            wants(Call::Remove { k: 3 }, Reply::Absent, &[7, 9]),
            wants(Call::Has { k: 3 }, Reply::No, &[7, 9]),
        ],
    );
}

#[test]
fn registers(rt: HostRuntime) {
    let part = Part {
        kind: Kind::Registers,
        cap: 4,
    };
    let most = 4_294_967_295;
    let first = [
        change(0, 0, 5),
        change(1, 0, 6),
        change(2, 0, 7),
        change(3, 0, 8),
    ];
    let second = [
        change(0, 5, 1),
        change(1, 6, 1),
        change(2, 9, 1),
        change(3, 8, 1),
    ];
    let third = [
        change(0, 13, most),
        Row::default(),
        Row::default(),
        Row::default(),
    ];
    run(
        &rt,
        part,
        &[
            wants(multi(4, first), Reply::Done { v: 4 }, &[5, 6, 7, 8]),
            wants(multi(4, second), Reply::Differs { v: 7 }, &[5, 6, 7, 8]),
            wants(Call::Read { i: 2 }, Reply::Done { v: 7 }, &[5, 6, 7, 8]),
            wants(
                Call::Shift {
                    from: 3,
                    to: 0,
                    n: 8,
                },
                Reply::Done { v: 13 },
                &[13, 6, 7, 0],
            ),
            wants(
                Call::Shift {
                    from: 3,
                    to: 0,
                    n: 1,
                },
                Reply::Short { v: 0 },
                &[13, 6, 7, 0],
            ),
            wants(multi(1, third), Reply::Done { v: 1 }, &[most, 6, 7, 0]),
            wants(
                Call::Shift {
                    from: 1,
                    to: 0,
                    n: 1,
                },
                Reply::Over,
                &[most, 6, 7, 0],
            ),
        ],
    );
    let repeated = [
        change(1, 0, 5),
        change(1, 0, 6),
        Row::default(),
        Row::default(),
    ];
    let misfits = [
        Call::Get,
        Call::Read { i: 4 },
        Call::Shift {
            from: 3,
            to: 3,
            n: 8,
        },
        multi(2, repeated),
        multi(1, first),
        multi(0, [Row::default(); 4]),
    ];
    for call in misfits {
        assert!(rt; !fits(part, call), "{call:?}");
    }
}

#[test]
fn quiet_calls(rt: HostRuntime) {
    let same = multi(
        2,
        [
            change(0, 5, 5),
            change(2, 7, 7),
            Row::default(),
            Row::default(),
        ],
    );
    let stills = [
        Call::Get,
        Call::Add { v: 0 },
        Call::Swap { old: 5, new: 5 },
        Call::Has { k: 3 },
        Call::Read { i: 2 },
        Call::Shift {
            from: 3,
            to: 0,
            n: 0,
        },
        same,
    ];
    for call in stills {
        assert!(rt; still(call), "{call:?}");
        assert!(rt; quiet(call, Reply::Done { v: 5 }), "{call:?}");
    }
    let louds = [
        Call::Set { v: 5 },
        Call::Add { v: 1 },
        Call::Swap { old: 5, new: 6 },
        Call::Put { v: 5 },
        Call::Take,
        multi(
            2,
            [
                change(0, 5, 5),
                change(2, 7, 8),
                Row::default(),
                Row::default(),
            ],
        ),
    ];
    for call in louds {
        assert!(rt; !still(call), "{call:?}");
        assert!(rt; !quiet(call, Reply::Done { v: 5 }), "{call:?}");
        assert!(rt; quiet(call, Reply::Over), "{call:?}");
    }
    assert!(rt; !quiet(Call::Insert { k: 3 }, Reply::Added));
    assert!(rt; !quiet(Call::Remove { k: 3 }, Reply::Removed));
    assert!(rt; quiet(Call::Put { v: 6 }, Reply::Full));
}
