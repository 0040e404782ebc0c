// The steps of an attempt, over any port.
ghost use Rattle.rx_machine.specs.AnyShapes.{any_next, any_taken};
ghost use Rattle.rx_machine.specs.Operations.{Follows, fresh};
ghost use Rattle.rx_machine.specs.MachineStates.{HasNoPlace, HasNoWrite, HasPassed, HasSettled, HasStepped, IsGoing, IsNextPlace, IsNextWrite, IsMachineState, operation_of};
ghost use Rattle.rx_machine.specs.declared.machine_states.Stage.TheVariants.{Reading};
ghost use Rattle.rx_port.specs.Core.{own_of};
ghost use Rattle.rx_port.specs.Ports.{KeepsSeats};
ghost use Rattle.rx_seq.specs.History.{part_at};
ghost use Rattle.rx_seq.specs.Table.{IsPart, fits_part};
ghost use Rattle.rx_shape.specs.Forms.{stock_size};
ghost use Rattle.rx_shape.specs.declared.plans.Want.TheVariants.{Ready};
ghost use Rattle.rx_shape.specs.Versions.{IsStale};
ghost use Rattle.rx_shape.specs.Layout.{home as place_of};
ghost use Rattle.std.specs.Prelude.{ℕ, ◌≡◌, ◌≢◌, ◌<◌, ◌≤◌, ◌+◌, MatchOption, true, length};

use crate::any_shape::AnyShape;
use crate::steps::Step;
use arrayvec::ArrayVec;
use rx_port::Port;
use rx_seq::{Call, Reply, attempt_steps};
use rx_shape::{
    Home, LAST_TAG, Layout, MOST_PLACES, Plan, Shape, Trade, Want, Write, stock, tag_of,
};

/// What the words that an attempt has read have shown.
#[derive(Clone, Copy, PartialEq, Eq)]
pub enum Stage {
    /// Nothing yet: more may have to be read.
    Reading,
    /// The plan.
    Writing,
    /// No version of the object has them.
    Waiting,
}

/// What a machine does. While an attempt is open, `made` steps of it were made, it loaded `root`, and `shape` has the
/// words that it read. Where it has a plan, `written` of its writes were made. What no attempt has set yet is left as it
/// was, so that a new call or a new attempt clears nothing.
#[derive(Drop)]
pub struct MachineState {
    pub home: Home,
    pub object: u32,
    pub call: Call,
    pub steps: u32,
    pub ended: bool,
    pub made: u32,
    pub root: u64,
    pub shape: AnyShape,
    pub stage: Stage,
    pub written: usize,
    pub own: ArrayVec<u32, MOST_PLACES>,
    pub plan: Plan,
    pub reply: Reply,
}

/// The places of an object of a layout. It takes constant time.
pub fn home_of(layout: &Layout, object: u32) -> Home
    requires { object < length layout.now.parts }
    ensures place { result ≡ place_of layout.now object }
    ensures part { IsPart result.part }
    ensures places { result.first + result.count ≤ 16777215 }
{
    Home {
        part: layout.parts()[object as usize],
        first: layout.first_place(object),
        count: layout.places(object),
    }
}

/// The state of a machine that has made no step.
pub fn start(home: Home, object: u32, call: Call) -> MachineState
    requires part { IsPart home.part }
    requires fits { fits_part home.part call ≡ true }
    requires places { home.first + home.count ≤ 16777215 }
    ensures operation { operation_of result ≡ fresh home object call }
    ensures state { IsMachineState result }
{
    MachineState {
        home,
        object,
        call,
        steps: attempt_steps(home.part),
        ended: false,
        made: 0,
        root: 0,
        shape: AnyShape::start(home.part, call, home.first, home.count),
        stage: Stage::Reading,
        written: 0,
        own: ArrayVec::new(),
        plan: Plan {
            root: 0,
            writes: ArrayVec::new(),
            trade: Trade {
                pairs: ArrayVec::new(),
            },
        },
        reply: Reply::default(),
    }
}

/// Makes the state that of a machine of another call, which has made no step.
pub fn restart(state: &mut MachineState, home: Home, object: u32, call: Call)
    requires part { IsPart home.part }
    requires fits { fits_part home.part call ≡ true }
    requires places { home.first + home.count ≤ 16777215 }
    ensures operation { operation_of state.new ≡ fresh home object call }
    ensures state { IsMachineState state.new }
{
    state.home = home;
    state.object = object;
    state.call = call;
    state.steps = attempt_steps(home.part);
    state.ended = false;
    state.made = 0;
}

/// Loads the root.
fn begin<P: Port>(state: &mut MachineState, port: &mut P, seat: &mut P::Seat) -> Step
    requires state { IsMachineState state.old }
    requires first { state.old.made ≡ 0 }
    requires follows { Follows (P.layout port.old) (P.view port.old seat.old) (operation_of state.old) }
    requires ours { P.ours port.old seat.old }
    requires room { P.room 1 port.old }
    ensures stepped { HasStepped (P.layout port.old) P.stands P.view port.old seat.old port.new seat.new state.old state.new result }
    ensures port { KeepsSeats P.layout P.ours P.room port.old port.new seat.new }
{
    state.root = port.begin(seat, state.object, state.call);
    let tag = tag_of(state.root);
    if tag == LAST_TAG {
        state.ended = true;
        return Step::Spent { tag };
    }
    let home = state.home;
    state
        .shape
        .restart(home.part, state.call, home.first, home.count);
    state.stage = Stage::Reading;
    state.made = 1;
    Step::Going
}

/// The next place that the attempt has to read, if there is one.
fn next_place(state: &MachineState) -> Option<u32>
    requires state { IsMachineState state.now }
    requires many { 0 < state.now.made }
    ensures { MatchOption result (HasNoPlace state.now) (IsNextPlace state.now) }
{
    match state.stage {
        Stage::Reading => match state.shape.want(state.root) {
            Want::Read { place } => Some(place),
            _ => None,
        },
        _ => None,
    }
}

/// Reads a place.
fn read<P: Port>(state: &mut MachineState, port: &mut P, seat: &mut P::Seat, place: u32) -> Step
    requires going { IsGoing (P.layout port.old) (P.view port.old seat.old) state.old }
    requires next { IsNextPlace state.old place }
    requires ours { P.ours port.old seat.old }
    requires room { P.room 1 port.old }
    ensures stepped { HasStepped (P.layout port.old) P.stands P.view port.old seat.old port.new seat.new state.old state.new result }
    ensures port { KeepsSeats P.layout P.ours P.room port.old port.new seat.new }
{
    let word = port.read(seat, state.object, place);
    state.shape.take(word);
    state.made += 1;
    Step::Going
}

/// Makes `own` the places that the seat owns of an object, in the order of their numbers.
fn collect<P: Port>(port: &P, seat: &P::Seat, object: u32, own: &mut ArrayVec<u32, MOST_PLACES>)
    requires ours { P.ours port.now seat.now }
    requires exists { object < length (P.layout port.now).parts }
    requires few { stock_size (part_at (P.layout port.now).parts object) ≤ MOST_PLACES }
    ensures { own.new.items ≡ own_of (P.view port.now seat.now) object }
{
    own.clear();
    let owned = port.owned(seat, object);
    if !owned.is_empty() {
        let _all = own.try_extend_from_slice(owned);
    }
}

/// Makes the plan.
fn plan<P: Port>(state: &mut MachineState, port: &P, seat: &P::Seat)
    requires going { IsGoing (P.layout port.now) (P.view port.now seat.now) state.old }
    requires stage { state.old.stage ≡ Reading }
    requires ready { any_next state.old.shape state.old.root ≡ Ready }
    requires ours { P.ours port.now seat.now }
    ensures { HasSettled (P.layout port.now) (P.view port.now seat.now) state.old state.new }
{
    collect(port, seat, state.object, &mut state.own);
    state.reply = state.shape.plan(state.root, &state.own, &mut state.plan);
    state.written = 0;
    state.stage = Stage::Writing;
}

/// Gives the attempt up: its exchange will find another root.
fn give_up<P: Port>(state: &mut MachineState, port: &P, seat: &P::Seat)
    requires going { IsGoing (P.layout port.now) (P.view port.now seat.now) state.old }
    requires stage { state.old.stage ≡ Reading }
    requires stale { IsStale state.old.home state.old.root (any_taken state.old.shape state.old.root) }
    ensures { HasSettled (P.layout port.now) (P.view port.now seat.now) state.old state.new }
{
    state.plan.trade.pairs.clear();
    state.stage = Stage::Waiting;
}

/// Makes the plan or gives up, if nothing more has to be read and neither was done. It makes no event.
fn settle<P: Port>(state: &mut MachineState, port: &P, seat: &P::Seat)
    requires going { IsGoing (P.layout port.now) (P.view port.now seat.now) state.old }
    requires place { HasNoPlace state.old }
    requires ours { P.ours port.now seat.now }
    ensures { HasSettled (P.layout port.now) (P.view port.now seat.now) state.old state.new }
{
    if state.stage != Stage::Reading {
        return;
    }
    match state.shape.want(state.root) {
        Want::Ready => plan(state, port, seat),
        _ => give_up(state, port, seat),
    }
}

/// The next word that the attempt has to write, if there is one.
fn next_write(state: &MachineState) -> Option<Write>
    requires state { IsMachineState state.now }
    requires many { 0 < state.now.made }
    requires stage { state.now.stage ≢ Reading }
    ensures { MatchOption result (HasNoWrite state.now) (IsNextWrite state.now) }
{
    if state.stage == Stage::Writing && state.written < state.plan.writes.len() {
        Some(state.plan.writes[state.written])
    } else {
        None
    }
}

/// Writes a word.
fn write<P: Port>(state: &mut MachineState, port: &mut P, seat: &mut P::Seat, write: Write) -> Step
    requires going { IsGoing (P.layout port.old) (P.view port.old seat.old) state.old }
    requires next { IsNextWrite state.old write }
    requires ours { P.ours port.old seat.old }
    requires room { P.room 1 port.old }
    ensures stepped { HasStepped (P.layout port.old) P.stands P.view port.old seat.old port.new seat.new state.old state.new result }
    ensures port { KeepsSeats P.layout P.ours P.room port.old port.new seat.new }
{
    port.write(seat, state.object, write.own, write.value);
    state.written += 1;
    state.made += 1;
    Step::Going
}

/// Exchanges the root.
fn decide<P: Port>(state: &mut MachineState, port: &mut P, seat: &mut P::Seat) -> Step
    requires going { IsGoing (P.layout port.old) (P.view port.old seat.old) state.old }
    requires none { HasNoWrite state.old }
    requires last { state.old.made + 1 ≡ state.old.steps }
    requires ours { P.ours port.old seat.old }
    requires room { P.room 1 port.old }
    ensures stepped { HasStepped (P.layout port.old) P.stands P.view port.old seat.old port.new seat.new state.old state.new result }
    ensures port { KeepsSeats P.layout P.ours P.room port.old port.new seat.new }
{
    let found = port.decide(
        seat,
        state.object,
        state.root,
        state.plan.root,
        &state.plan.trade,
    );
    state.made = 0;
    if found == state.root {
        state.ended = true;
        return Step::Won {
            reply: state.reply,
            tag: tag_of(state.plan.root),
        };
    }
    Step::Lost {
        expected: state.root,
        found,
    }
}

/// Makes a step after the last word was read: a write, or no event, or the exchange.
fn go_on<P: Port>(state: &mut MachineState, port: &mut P, seat: &mut P::Seat) -> Step
    requires going { IsGoing (P.layout port.old) (P.view port.old seat.old) state.old }
    requires stage { state.old.stage ≢ Reading }
    requires ours { P.ours port.old seat.old }
    requires room { P.room 1 port.old }
    ensures stepped { HasStepped (P.layout port.old) P.stands P.view port.old seat.old port.new seat.new state.old state.new result }
    ensures port { KeepsSeats P.layout P.ours P.room port.old port.new seat.new }
{
    if let Some(next) = next_write(state) {
        return write(state, port, seat, next);
    }
    if state.made + 1 == state.steps {
        return decide(state, port, seat);
    }
    state.made += 1;
    Step::Idle
}

/// Makes the next step.
pub fn make_step<P: Port>(state: &mut MachineState, port: &mut P, seat: &mut P::Seat) -> Step
    requires state { IsMachineState state.old }
    requires follows { Follows (P.layout port.old) (P.view port.old seat.old) (operation_of state.old) }
    requires ours { P.ours port.old seat.old }
    requires room { P.room 1 port.old }
    ensures stepped { HasStepped (P.layout port.old) P.stands P.view port.old seat.old port.new seat.new state.old state.new result }
    ensures port { KeepsSeats P.layout P.ours P.room port.old port.new seat.new }
{
    if state.made == 0 {
        return begin(state, port, seat);
    }
    if let Some(place) = next_place(state) {
        return read(state, port, seat, place);
    }
    settle(state, port, seat);
    go_on(state, port, seat)
}

/// Passes over the idle steps that are left: where nothing more has to be read or to be written, the next step is the
/// last one. It makes no event.
pub fn pass_idle(state: &mut MachineState)
    requires state { IsMachineState state.old }
    ensures { HasPassed state.old state.new }
{
    if state.made == 0 || state.stage == Stage::Reading {
        return;
    }
    if let Some(_) = next_write(state) {
        return;
    }
    state.made = state.steps - 1;
}
