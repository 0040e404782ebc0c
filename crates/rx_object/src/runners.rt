// Calls one after the other.
ghost use Rattle.rx_machine.specs.Operations.{fresh};
ghost use Rattle.rx_object.specs.Calls.{Tells, TellsAll};
ghost use Rattle.rx_seq.specs.History.{part_at};
ghost use Rattle.rx_seq.specs.Table.{fits_part};
ghost use Rattle.rx_shape.specs.Layout.{home};
ghost use Rattle.rx_table.specs.Tables.{IsSeatOf};
ghost use Rattle.std.specs.Prelude.{◌≡◌, ◌<◌, true, length, Some};

use crate::calls::{Outcome, Try, make, try_once};
use rx_machine::Machine;
use rx_seq::Call;
use rx_shape::Layout;
use rx_table::{Seat, Shared};

/// Makes calls one after the other. It keeps the machine that makes them, of about 2,600 bytes, so that no call but the
/// first builds one. It may be used with any table and any of its seats, and keeps nothing of a call for the next one.
#[derive(Drop)]
pub struct Runner {
    machine: Option<Machine>,
}

impl Runner {
    /// One that has made no call. It takes no memory, and constant time.
    pub fn new() -> Runner {
        Runner { machine: None }
    }

    /// Sets the machine anew, for a call on an object of a layout.
    fn set(&mut self, layout: &Layout, object: u32, call: Call)
        requires exists { object < length layout.now.parts }
        requires fits { fits_part (part_at layout.now.parts object) call ≡ true }
        ensures { self.new.machine ≡ Some (fresh (home layout.now object) object call) }
    {
        match &mut self.machine {
            Some(machine) => machine.restart(layout, object, call),
            None => self.machine = Some(Machine::start(layout, object, call)),
        }
    }

    /// Makes one attempt of a call, as the function `attempt` does, with the machine that is kept. What it costs is the
    /// steps of the attempt, but that idle ones are passed over.
    pub fn attempt(&mut self, shared: &Shared, seat: &mut Seat, object: u32, call: Call) -> Try
        requires ours { IsSeatOf shared.now seat.old }
        requires exists { object < length shared.now.layout.parts }
        requires fits { fits_part (part_at shared.now.layout.parts object) call ≡ true }
        ensures tells { Tells shared.now.layout seat.old.view seat.new.view object call result }
        ensures ours { IsSeatOf shared.now seat.new }
    {
        self.set(shared.layout(), object, call);
        match &mut self.machine {
            Some(machine) => try_once(machine, &mut shared.port(), seat),
            None => unreachable!(),
        }
    }

    /// Makes a whole call, as the function `operate` does, with the machine that is kept. What it costs is the steps of
    /// its attempts, but that idle ones are passed over.
    pub fn operate(&mut self, shared: &Shared, seat: &mut Seat, object: u32, call: Call) -> Outcome
        requires ours { IsSeatOf shared.now seat.old }
        requires exists { object < length shared.now.layout.parts }
        requires fits { fits_part (part_at shared.now.layout.parts object) call ≡ true }
        ensures tells { TellsAll shared.now.layout seat.old.view seat.new.view object call result }
        ensures ours { IsSeatOf shared.now seat.new }
    {
        self.set(shared.layout(), object, call);
        match &mut self.machine {
            Some(machine) => make(machine, shared, seat, object, call),
            None => unreachable!(),
        }
    }
}
