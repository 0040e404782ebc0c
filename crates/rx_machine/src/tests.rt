// Two machines on one object of a bank.
ghost use Rattle.rx_machine.specs.Operations.{Follows, Operation};
ghost use Rattle.rx_machine.specs.Pairs.{AreTwo};
ghost use Rattle.rx_port.specs.Plain.{HasRoom, IsSeatOf, view_at};
ghost use Rattle.rx_seq.specs.Table.{IsPart};
ghost use Rattle.std.specs.Prelude.{ℕ, ◌≡◌, ◌≢◌, ◌<◌, ◌^◌, IfOk, IfSome};

use super::*;
use crate::laws::{machines_follow_their_seats, steps_on_a_bank};
use rx_port::{Bank, Counts};
use rx_seq::{Call, Kind, NoMemory, Part, Reply, Row, fits};
use rx_shape::{Layout, pack};
use std::alloc::Global;
use std::test::Fail;

// A bank with one object, and a machine for each of its two seats.
#[derive(Drop)]
struct Two {
    bank: Bank,
    first: Machine,
    second: Machine,
}

// Both machines on a new object, or none where a call does not fit it.
fn both_on(
    alloc: Global,
    part: Part,
    tag: u64,
    first: Call,
    second: Call,
) -> Result<Option<Two>, NoMemory>
    requires part { IsPart part }
    requires tag { tag < 2 ^ 40 }
    ensures { IfOk result (λ o. IfSome o (λ two. AreTwo two.bank two.first two.second)) }
{
    if !fits(part, first) || !fits(part, second) {
        return Ok(None);
    }
    machines_follow_their_seats();
    let layout = Layout::new(alloc, &[part], 2, tag)?;
    let first = Machine::start(&layout, 0, first);
    let second = Machine::start(&layout, 0, second);
    let bank = Bank::new(alloc, layout)?;
    Ok(Some(Two {
        bank,
        first,
        second,
    }))
}

// Makes a step, unless the operation has ended or the bank counts many events.
fn step_of(bank: &mut Bank, machine: &mut Machine, seat: u32) -> Option<Step>
    requires ours { IsSeatOf bank.old seat }
    requires follows { Follows bank.old.layout (view_at bank.old.core seat) machine.old }
    ensures ours { (other : ℕ) → IsSeatOf bank.old other → IsSeatOf bank.new other }
    ensures follows { Follows bank.new.layout (view_at bank.new.core seat) machine.new }
    ensures others { (other : ℕ) (that : Operation) → other ≢ seat → Follows bank.old.layout (view_at bank.old.core other) that → Follows bank.new.layout (view_at bank.new.core other) that }
{
    steps_on_a_bank();
    machines_follow_their_seats();
    let counts = bank.counts();
    let most = counts.loads.max(counts.stores).max(counts.exchanges);
    if machine.ended() || most > 1000 {
        return None;
    }
    let mut seat = seat;
    Some(machine.step(bank, &mut seat))
}

impl Two {
    // Makes a step of the first machine.
    fn step_first(&mut self) -> Option<Step>
        requires { AreTwo self.old.bank self.old.first self.old.second }
        ensures { AreTwo self.new.bank self.new.first self.new.second }
    {
        step_of(&mut self.bank, &mut self.first, 0)
    }

    // Makes a step of the second machine.
    fn step_second(&mut self) -> Option<Step>
        requires { AreTwo self.old.bank self.old.first self.old.second }
        ensures { AreTwo self.new.bank self.new.first self.new.second }
    {
        step_of(&mut self.bank, &mut self.second, 1)
    }

    // Passes over idle steps of the first machine.
    fn pass_first(&mut self)
        requires { AreTwo self.old.bank self.old.first self.old.second }
        ensures { AreTwo self.new.bank self.new.first self.new.second }
    {
        self.first.pass_idle();
    }

    // Makes the first machine that of another call, and makes its steps up to the first that ends an attempt. It tells
    // how many made an event and how many none before that one.
    fn call(&mut self, call: Call) -> Option<(u32, u32, Step)>
        requires { AreTwo self.old.bank self.old.first self.old.second }
        ensures { AreTwo self.new.bank self.new.first self.new.second }
    {
        machines_follow_their_seats();
        let layout = self.bank.layout();
        if layout.parts().len() == 0 || !fits(layout.parts()[0], call) {
            return None;
        }
        self.first.restart(layout, 0, call);
        let mut going = 0;
        let mut idle = 0;
        for _ in 0..200u32 {
            match self.step_first()? {
                Step::Going => going += 1,
                Step::Idle => idle += 1,
                last => return Some((going, idle, last)),
            }
        }
        None
    }
}

// A part of this kind.
fn part(kind: Kind, cap: u32) -> Part
    ensures kind { result.kind ≡ kind }
    ensures cap { result.cap ≡ cap }
{
    Part { kind, cap }
}

// Both machines begin at the same root, and the second decides first. The first then finds another root, begins again,
// and wins.
#[test]
fn lost_attempt(rt: HostRuntime) -> Result<(), Fail> {
    let add = Call::Add { v: 1 };
    let mut two = match both_on(rt.alloc(), part(Kind::Cell, 1), 0, add, add) {
        Ok(Some(two)) => two,
        _ => return Err("no memory".into()),
    };
    assert_eq!(rt; two.step_first(), Some(Step::Going));
    assert_eq!(rt; two.step_second(), Some(Step::Going));
    let reply = Reply::Done { v: 1 };
    assert_eq!(rt; two.step_second(), Some(Step::Won { reply, tag: 1 }));
    let lost = Step::Lost {
        expected: 0,
        found: 16_777_217,
    };
    assert_eq!(rt; two.step_first(), Some(lost));
    assert_eq!(rt; two.step_first(), Some(Step::Going));
    let reply = Reply::Done { v: 2 };
    assert_eq!(rt; two.step_first(), Some(Step::Won { reply, tag: 2 }));
    assert_eq!(rt; two.step_first(), None);
    let counts = Counts {
        loads: 3,
        stores: 0,
        exchanges: 3,
    };
    assert_eq!(rt; two.bank.counts(), counts);
    Ok(())
}

// An attempt has as many steps as its object's part says, and the idle ones come last before the exchange.
#[test]
fn attempts_of_each_kind(rt: HostRuntime) -> Result<(), Fail> {
    let get = Call::Get;
    let mut cell = match both_on(rt.alloc(), part(Kind::Cell, 1), 7, get, get) {
        Ok(Some(two)) => two,
        _ => return Err("no memory".into()),
    };
    let won = |v, tag| Step::Won {
        reply: Reply::Done { v },
        tag,
    };
    assert_eq!(rt; cell.call(Call::Set { v: 5 }), Some((1, 0, won(5, 8))));
    assert_eq!(rt; cell.call(get), Some((1, 0, won(5, 8))));
    let take = Call::Take;
    let mut queue = match both_on(rt.alloc(), part(Kind::Queue, 1), 0, take, take) {
        Ok(Some(two)) => two,
        _ => return Err("no memory".into()),
    };
    assert_eq!(rt; queue.call(Call::Put { v: 7 }), Some((5, 2, won(1, 1))));
    assert_eq!(rt; queue.call(take), Some((5, 2, won(7, 2))));
    let has = Call::Has { k: 3 };
    let mut list = match both_on(rt.alloc(), part(Kind::List, 2), 0, has, has) {
        Ok(Some(two)) => two,
        _ => return Err("no memory".into()),
    };
    let added = Step::Won {
        reply: Reply::Added,
        tag: 1,
    };
    assert_eq!(rt; list.call(Call::Insert { k: 3 }), Some((5, 4, added)));
    let yes = Step::Won {
        reply: Reply::Yes,
        tag: 1,
    };
    assert_eq!(rt; list.call(has), Some((3, 6, yes)));
    let read = Call::Read { i: 0 };
    let mut registers = match both_on(rt.alloc(), part(Kind::Registers, 2), 0, read, read) {
        Ok(Some(two)) => two,
        _ => return Err("no memory".into()),
    };
    let row = Row {
        i: 1,
        old: 0,
        new: 9,
    };
    let multi = Call::Multi {
        count: 1,
        rows: [row, Row::default(), Row::default(), Row::default()],
    };
    assert_eq!(rt; registers.call(multi), Some((7, 2, won(1, 1))));
    let shift = Call::Shift {
        from: 1,
        to: 0,
        n: 4,
    };
    assert_eq!(rt; registers.call(shift), Some((7, 2, won(4, 2))));
    Ok(())
}

// Where the idle steps are passed over, each word is read and written as before, and the exchange comes next.
#[test]
fn passed_idle_steps(rt: HostRuntime) -> Result<(), Fail> {
    let put = Call::Put { v: 7 };
    let mut two = match both_on(rt.alloc(), part(Kind::Queue, 64), 0, put, Call::Take) {
        Ok(Some(two)) => two,
        _ => return Err("no memory".into()),
    };
    for _ in 0..5 {
        two.pass_first();
        assert_eq!(rt; two.step_first(), Some(Step::Going));
    }
    two.pass_first();
    let reply = Reply::Done { v: 1 };
    assert_eq!(rt; two.step_first(), Some(Step::Won { reply, tag: 1 }));
    let counts = Counts {
        loads: 3,
        stores: 2,
        exchanges: 1,
    };
    assert_eq!(rt; two.bank.counts(), counts);
    Ok(())
}

// A call that changes nothing wins with the tag that was there, and spoils no other attempt. It is spoiled by one that
// changes something.
#[test]
fn quiet_call(rt: HostRuntime) -> Result<(), Fail> {
    let add = Call::Add { v: 1 };
    let mut two = match both_on(rt.alloc(), part(Kind::Cell, 1), 0, add, Call::Get) {
        Ok(Some(two)) => two,
        _ => return Err("no memory".into()),
    };
    let won = |v, tag| Some(Step::Won {
        reply: Reply::Done { v },
        tag,
    });
    assert_eq!(rt; two.step_first(), Some(Step::Going));
    assert_eq!(rt; two.step_second(), Some(Step::Going));
    assert_eq!(rt; two.step_second(), won(0, 0));
    assert_eq!(rt; two.step_first(), won(1, 1));
    let mut two = match both_on(rt.alloc(), part(Kind::Cell, 1), 0, add, Call::Get) {
        Ok(Some(two)) => two,
        _ => return Err("no memory".into()),
    };
    assert_eq!(rt; two.step_second(), Some(Step::Going));
    assert_eq!(rt; two.step_first(), Some(Step::Going));
    assert_eq!(rt; two.step_first(), won(1, 1));
    let lost = Step::Lost {
        expected: 0,
        found: pack(1, 1),
    };
    assert_eq!(rt; two.step_second(), Some(lost));
    assert_eq!(rt; two.step_second(), Some(Step::Going));
    assert_eq!(rt; two.step_second(), won(1, 1));
    Ok(())
}

// A root with the last tag ends the operation at once. A call that changes nothing does not bring it about.
#[test]
fn last_tag(rt: HostRuntime) -> Result<(), Fail> {
    let take = Call::Take;
    let last = 1_099_511_627_775;
    let mut two = match both_on(rt.alloc(), part(Kind::Queue, 3), last - 1, take, take) {
        Ok(Some(two)) => two,
        _ => return Err("no memory".into()),
    };
    let won = |reply, tag| Step::Won { reply, tag };
    let empty = won(Reply::Empty, last - 1);
    assert_eq!(rt; two.call(take), Some((2, 9, empty)));
    let put = won(Reply::Done { v: 1 }, last);
    assert_eq!(rt; two.call(Call::Put { v: 7 }), Some((5, 6, put)));
    assert_eq!(rt; two.call(take), Some((0, 0, Step::Spent { tag: last })));
    assert_eq!(rt; two.step_second(), Some(Step::Spent { tag: last }));
    assert_eq!(rt; two.step_second(), None);
    Ok(())
}

// While the second machine reads a list, the first one changes it so often that the nodes come back, with other numbers.
// What the second has read then is more nodes than there can be: it idles up to its last step, and loses.
#[test]
fn stale_reader(rt: HostRuntime) -> Result<(), Fail> {
    let has = Call::Has { k: 12 };
    let mut two = match both_on(rt.alloc(), part(Kind::List, 3), 0, has, has) {
        Ok(Some(two)) => two,
        _ => return Err("no memory".into()),
    };
    let won = |going, idle, reply, tag| Some((going, idle, Step::Won { reply, tag }));
    let insert = |k| Call::Insert { k };
    assert_eq!(rt; two.call(insert(1)), won(5, 6, Reply::Added, 1));
    assert_eq!(rt; two.step_second(), Some(Step::Going));
    assert_eq!(rt; two.step_second(), Some(Step::Going));
    assert_eq!(rt; two.call(insert(3)), won(7, 4, Reply::Added, 2));
    assert_eq!(rt; two.call(insert(9)), won(9, 2, Reply::Added, 3));
    for _ in 0..2 {
        assert_eq!(rt; two.step_second(), Some(Step::Going));
    }
    for _ in 0..7 {
        assert_eq!(rt; two.step_second(), Some(Step::Idle));
    }
    let lost = Step::Lost {
        expected: pack(1, 6),
        found: pack(3, 6),
    };
    assert_eq!(rt; two.step_second(), Some(lost));
    assert_eq!(rt; two.step_second(), Some(Step::Going));
    Ok(())
}
