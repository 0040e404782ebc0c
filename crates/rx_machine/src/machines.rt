// Machines.
ghost use Rattle.rx_machine.specs.Operations.{Follows, fresh};
ghost use Rattle.rx_machine.specs.Steps.{Tells};
ghost use Rattle.rx_machine.specs.Turns.{IsIdleRun, Passes, Turns};
ghost use Rattle.rx_port.specs.Ports.{KeepsSeats};
ghost use Rattle.rx_port.specs.declared.views.View.{View};
ghost use Rattle.rx_seq.specs.History.{part_at};
ghost use Rattle.rx_seq.specs.Table.{fits_part};
ghost use Rattle.rx_shape.specs.Layout.{Layout, home};
ghost use Rattle.std.specs.Prelude.{ℕ, ◌≡◌, ◌<◌, ◌+◌, true, false, length};

use crate::machine_states;
use crate::machine_states::MachineState;
use crate::steps::Step;
use rx_port::Port;
use rx_seq::Call;
use rx_shape::Layout;
use std::marker::Model;

/// An operation on an object: a call, and attempts of it until one wins. An attempt loads the object's root, reads the
/// words that the call needs, writes a private copy, and exchanges the root (after Herlihy, 1993). It has a fixed number
/// of steps, which depends on the object's part alone: 2 on a cell, and twice the capacity and 6 more on any other. Each
/// step makes at most one memory event. Steps that are left over are idle, and come directly before the last one, which
/// is the exchange. A machine takes no memory, and is plain data of a fixed size of about 2,600 bytes: keep it in one
/// place and pass references to it.
#[derive(Drop)]
pub struct Machine {
    state: MachineState,
}

impl Model for Machine {
    ghost use Rattle.rx_machine.specs.Operations.{Operation};
    ghost use Rattle.rx_machine.specs.MachineStates.{IsMachineState, operation_of};

    ghost Value = { Operation };

    ghost view = { λ m. operation_of m.state };

    ghost invariant = { λ m. IsMachineState m.state };
}

impl Machine {
    /// The machine of a call on an object of the layout, which has made no step. The call fits the object. It takes
    /// constant time.
    pub fn start(layout: &Layout, object: u32, call: Call) -> Machine
        requires exists { object < length layout.now.parts }
        requires fits { fits_part (part_at layout.now.parts object) call ≡ true }
        ensures { result ≡ fresh (home layout.now object) object call }
    {
        Machine {
            state: machine_states::start(machine_states::home_of(layout, object), object, call),
        }
    }

    /// Makes it the machine of another call, on an object of this layout, as `start` does. It may be in the midst of an
    /// attempt, which is then dropped. It builds nothing and clears nothing, and takes constant time.
    pub fn restart(&mut self, layout: &Layout, object: u32, call: Call)
        requires exists { object < length layout.now.parts }
        requires fits { fits_part (part_at layout.now.parts object) call ≡ true }
        ensures { self.new ≡ fresh (home layout.now object) object call }
    {
        machine_states::restart(
            &mut self.state,
            machine_states::home_of(layout, object),
            object,
            call,
        );
    }

    /// Whether `Won` or `Spent` has been answered since it was made or made anew. It takes constant time.
    pub fn ended(&self) -> bool
        ensures { result ≡ self.now.ended }
    {
        self.state.ended
    }

    /// Makes the next step of the operation, which has not ended. All steps of one attempt are made with one seat of one
    /// port of the machine's layout, and no event of another attempt is made with that seat between them; events of
    /// other seats may come. The first step of an attempt is `begin`; it answers `Spent` exactly where it loads the last
    /// tag, and else `Going`. The steps after it answer `Going` exactly where they read or write a word, and `Idle`
    /// exactly where they make no event. The last step is `decide`: it answers `Won` exactly where the exchange found
    /// the expected root, with the reply of the call on the state that stood there, and `Lost` exactly where it found
    /// another word. A step takes constant time but in three cases: the first step of an attempt clears the words that the
    /// attempt before it has read, and the step that plans and an exchange that wins take time that grows with the
    /// capacity.
    pub fn step<P: Port>(&mut self, port: &mut P, seat: &mut P::Seat) -> Step
        requires live { self.old.ended ≡ false }
        requires follows { Follows (P.layout port.old) (P.view port.old seat.old) self.old }
        requires ours { P.ours port.old seat.old }
        requires room { P.room 1 port.old }
        ensures tells { Tells (P.layout port.old) P.stands P.view port.old seat.old port.new seat.new self.old self.new result }
        ensures turns { Turns self.old result self.new }
        ensures follows { Follows (P.layout port.new) (P.view port.new seat.new) self.new }
        ensures port { KeepsSeats P.layout P.ours P.room port.old port.new seat.new }
    {
        machine_states::make_step(&mut self.state, port, seat)
    }

    /// Passes over the idle steps that are left of an attempt: where it is given up, or planned with each of its writes
    /// made, its next step is the last one, and else nothing changes. The machine becomes what those steps would make of
    /// it. A caller to whom each step is a tick makes them all by `step`; one that counts no steps may call this where
    /// `step` answers `Idle`. It makes no event, and takes constant time.
    pub fn pass_idle(&mut self)
        ensures passes { Passes self.old self.new }
        ensures idle { IsIdleRun self.old self.new }
        ensures follows { (layout : Layout) (view : View) → Follows layout view self.old → Follows layout view self.new }
    {
        machine_states::pass_idle(&mut self.state);
    }
}
