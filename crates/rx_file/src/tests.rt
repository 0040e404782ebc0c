// The set of a file as it is written, its charges, two faults, and numbers. All other faults are cases of the program.
use super::{FileFault, number_of, read_set};
use arrayvec::ArrayVec;
use rx_seq::{Call, Kind, Part, Row};
use rx_set::{Demand, Item, Policy};
use std::test::Fail;

/// One object of each kind, and a task with each call on them.
const EACH_KIND: &str = r"
[[object]]
name = 'c'
kind = 'cell'

[[object]]
name = 'q'
kind = 'queue'
capacity = 64

[[object]]
name = 'l'
kind = 'list'
capacity = 1

[[object]]
name = 'r'
kind = 'registers'
capacity = 16

[[task]]
name = 't'
period = 9
body = [
    'get c', 'set c 1', 'add c 2', 'swap c 3 4', 'put q 4294967295', 'take q',
    'insert l 5', 'remove l 6', 'has l 7', 'read r 15', 'shift r 3 0 8',
    'multi r 15 8 9', 'multi r 1 2 3 4 5 6', 'multi r 1 2 3 4 5 6 7 8 9',
    ' multi  r 0 0 5 1 0 6 2 0 7 3 0 0008 ',
]
";

/// Two objects, two tasks, and two demand rows, the keys of the last in another order.
const WHOLE: &str = r"
policy = 'dm'

[[object]]
name = 'd'
kind = 'cell'

[[object]]
name = 'a'
kind = 'cell'

[[task]]
name = 'a'
period = 4
offset = 1
body = ['work 1', 'get a', 'set d 7']

[[task]]
name = 'b_2'
period = 8
deadline = 7
body = ['  work   0003 ', ' add  a 2', 'swap d 7 08']

[[demand]]
task = 'b_2'
job = 1000000
item = 1
ticks = 4

[[demand]]
ticks = 2
item = 1
job = 1
task = 'a'
";

/// A sensor that puts into a queue and counts, a controller that takes from the queue and shifts among registers, and a
/// logger that looks at both.
const CONTROL: &str = r"
object = [{name='samples', kind='queue', capacity=16}, {name='beats', kind='cell'}, {name='axes', kind='registers', capacity=8}]
task = [
  {name='sensor', period=500, body=['work 60', 'put samples 7', 'add beats 1']},
  {name='control', period=1000, body=['take samples', 'take samples', 'work 200', 'shift axes 0 1 5']},
  {name='logger', period=5000, body=['read axes 1', 'get beats', 'work 900']},
]
";

/// A task whose second item names an object that is not there.
const UNKNOWN: &str = "task = [{name = 'a', period = 9, body = ['work 1', 'get c']}]";

fn part(kind: Kind, cap: u32) -> Part {
    Part { kind, cap }
}

fn op(object: u32, call: Call) -> Item {
    Item::Op { object, call }
}

fn row(i: u32, old: u32, new: u32) -> Row {
    Row { i, old, new }
}

#[test]
fn each_kind(rt: HostRuntime) -> Result<(), Fail> {
    let Ok(set) = read_set(rt.alloc(), EACH_KIND.as_bytes()) else {
        return Err(Fail::from("no set"));
    };
    let mut parts: ArrayVec<Part, 16> = ArrayVec::new();
    set.parts(&mut parts);
    let expected = [
        part(Kind::Cell, 1),
        part(Kind::Queue, 64),
        part(Kind::List, 1),
        part(Kind::Registers, 16),
    ];
    assert!(rt; parts.as_slice() == expected.as_slice());
    let (from, to, n) = (3, 0, 8);
    let none = Row::default();
    let one = [row(15, 8, 9), none, none, none];
    let two = [row(1, 2, 3), row(4, 5, 6), none, none];
    let three = [row(1, 2, 3), row(4, 5, 6), row(7, 8, 9), none];
    let four = [row(0, 0, 5), row(1, 0, 6), row(2, 0, 7), row(3, 0, 8)];
    let items = [
        op(0, Call::Get),
        op(0, Call::Set { v: 1 }),
        op(0, Call::Add { v: 2 }),
        op(0, Call::Swap { old: 3, new: 4 }),
        op(1, Call::Put { v: 4_294_967_295 }),
        op(1, Call::Take),
        op(2, Call::Insert { k: 5 }),
        op(2, Call::Remove { k: 6 }),
        op(2, Call::Has { k: 7 }),
        op(3, Call::Read { i: 15 }),
        op(3, Call::Shift { from, to, n }),
        op(
            3,
            Call::Multi {
                count: 1,
                rows: one,
            },
        ),
        op(
            3,
            Call::Multi {
                count: 2,
                rows: two,
            },
        ),
        op(
            3,
            Call::Multi {
                count: 3,
                rows: three,
            },
        ),
        op(
            3,
            Call::Multi {
                count: 4,
                rows: four,
            },
        ),
    ];
    let tasks = set.tasks();
    assert_eq!(rt; tasks.len(), 1);
    assert!(rt; tasks[0].body.items() == items.as_slice());
    Ok(())
}

#[test]
fn whole_sets(rt: HostRuntime) -> Result<(), Fail> {
    let Ok(set) = read_set(rt.alloc(), WHOLE.as_bytes()) else {
        return Err(Fail::from("no set"));
    };
    assert_eq!(rt; set.policy(), Policy::Dm);
    assert_eq!(rt; set.objects().len(), 2);
    assert_eq!(rt; set.objects()[1].name.as_str(), "a");
    let tasks = set.tasks();
    assert_eq!(rt; tasks.len(), 2);
    let (a, b) = (&tasks[0], &tasks[1]);
    assert_eq!(rt; b.name.as_str(), "b_2");
    assert_eq!(rt; (a.period, a.deadline, a.offset), (4, 4, 1));
    assert_eq!(rt; (b.period, b.deadline, b.offset), (8, 7, 0));
    let first = [
        Item::Work { n: 1 },
        op(1, Call::Get),
        op(0, Call::Set { v: 7 }),
    ];
    assert!(rt; a.body.items() == first.as_slice());
    let second = [
        Item::Work { n: 3 },
        op(1, Call::Add { v: 2 }),
        op(0, Call::Swap { old: 7, new: 8 }),
    ];
    assert!(rt; b.body.items() == second.as_slice());
    let demands = [
        Demand {
            task: 1,
            job: 1_000_000,
            item: 1,
            ticks: 4,
        },
        Demand {
            task: 0,
            job: 1,
            item: 1,
            ticks: 2,
        },
    ];
    assert!(rt; set.demands() == demands.as_slice());
    Ok(())
}

#[test]
fn charges_of_a_control_loop(rt: HostRuntime) -> Result<(), Fail> {
    let Ok(set) = read_set(rt.alloc(), CONTROL.as_bytes()) else {
        return Err(Fail::from("no set"));
    };
    match set.policy() {
        Policy::Edf => Err(Fail::from("another policy")),
        Policy::Rm | Policy::Dm => {
            assert_eq!(rt; set.charge(2, 1), 38);
            assert_eq!(rt; set.charge(3, 1), 38);
            assert_eq!(rt; set.charge(3, 2), 22);
            assert_eq!(rt; set.retry_cost(), 38);
            Ok(())
        }
    }
}

#[test]
fn no_sets(rt: HostRuntime) {
    assert!(rt; matches!(read_set(rt.alloc(), b"\xFF"), Err(FileFault::NotToml)));
    assert!(rt;
        matches!(
            read_set(rt.alloc(), UNKNOWN.as_bytes()),
            Err(FileFault::Unknown { task: 1, item: 2 })
        )
    );
}

#[test]
fn numbers(rt: HostRuntime) {
    assert_eq!(rt; number_of(b"007", 20), Some(7));
    assert_eq!(rt;
        number_of(b"99999999999999999999", 20),
        Some(99_999_999_999_999_999_999)
    );
    assert_eq!(rt; number_of(b"12345678901", 10), None);
}
