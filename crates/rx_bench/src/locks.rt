// The same calls on a plain state under a lock.
ghost use Rattle.rx_bench.specs.Scripts.{IsMeasured};
ghost use Rattle.rx_seq.specs.Table.{IsPart, effect, fits_part};
ghost use Rattle.std.specs.Prelude.{◌≡◌, ◌≤◌, true, false};

use crate::plans::Plan;
use crate::scripts::{call_of, fill_call, fill_count};
use rx_seq::{Call, Part, State, apply, fits, start};
use std::marker::Model;
use std::sync::{Mutex, Wait};
use std::thread::{Threads, for_each_mut};

/// An object with its state. Contracts see both.
#[derive(Drop)]
struct Plain {
    part: Part,
    state: State,
}

impl Model for Plain {
    ghost use Rattle.rx_bench.specs.Locks.{Held};
    ghost use Rattle.rx_seq.specs.States.{IsState};
    ghost use Rattle.rx_seq.specs.Table.{IsPart};

    ghost Value = { Held };

    ghost view = { λ p. record { part = p.part; state = p.state.items } };

    ghost invariant = { λ p. IsPart p.part × IsState p.part p.state.items };
}

impl Plain {
    /// A new object.
    fn new(part: Part) -> Plain
        requires { IsPart part }
        ensures { result.part ≡ part }
    {
        let mut state = State::new();
        start(part, &mut state);
        Plain { part, state }
    }

    /// Makes a call, and says whether it fits.
    fn call(&mut self, call: Call) -> bool
        ensures part { self.new.part ≡ self.old.part }
        ensures fits { result ≡ fits_part self.old.part call }
        ensures made { result ≡ true → self.new.state ≡ (effect self.old.part self.old.state call).state }
        ensures refused { result ≡ false → self.new.state ≡ self.old.state }
    {
        if !fits(self.part, call) {
            return false;
        }
        apply(self.part, &mut self.state, call);
        true
    }
}

/// A new object, on which the calls were made that stand before those that are measured.
fn filled(part: Part) -> Plain
    requires { IsMeasured part }
{
    let mut plain = Plain::new(part);
    for number in 0..fill_count(part) {
        plain.call(fill_call(part, number));
    }
    plain
}

/// Makes so many calls of the script of a thread, each under the lock, and tells how many were made.
fn run(rt: &impl Wait, plain: &Mutex<Plain>, part: Part, thread: usize, calls: u32) -> u64
    requires { IsMeasured part }
    ensures { result ≤ calls }
{
    let mut made = 0;
    for number in 0..calls {
        let call = call_of(part, thread, number);
        if plain.lock(rt).call(call) {
            made += 1;
        }
    }
    made
}

/// Makes the calls of a plan under a lock, and tells how many were made.
pub fn under_lock<R: Threads + Wait + Sync>(rt: &R, plan: Plan) -> u64 {
    let plain = Mutex::new(filled(plan.part));
    let shared = &plain;
    let mut made = [0u64; 4];
    for_each_mut(
        rt,
        &mut made[..plan.threads as usize],
        plan.threads as usize,
        &|thread, made| *made = run(rt, shared, plan.part, thread, plan.calls),
    );
    made.iter()
        .fold(0u64, |sum, made| sum.saturating_add(*made))
}
