// In each window of drawn sets the retries are at most the preemptions.

use rx_ledger::{Event, Ledger};
use rx_set::generate;
use rx_tick::{Executive, Tick};
use rx_trace::new_executive;
use std::alloc::Global;
use std::test::Fail;

const TICKS: u64 = 20_000;

/// Appends an event, and fails where it is before the last one.
fn append(ledger: &mut Ledger, event: Event) -> Result<(), Fail> {
    let count = ledger.events().len();
    if count > 0 && event.at() < ledger.events()[count - 1].at() {
        return Err("an event before the last one".into());
    }
    match ledger.push(event) {
        Ok(()) => Ok(()),
        Err(_) => Err("no memory".into()),
    }
}

/// Makes the next slot, and appends its events.
fn append_slot(
    executive: &mut Executive,
    tick: &mut Tick,
    ledger: &mut Ledger,
) -> Result<(), Fail> {
    if executive.now() >= TICKS {
        return Err("a slot too many".into());
    }
    executive.tick(tick);
    for place in 0..tick.events.len() {
        append(ledger, tick.events[place])?;
    }
    Ok(())
}

/// The events of the slots of a drawn set.
fn ledger_of(alloc: Global, number: u64) -> Result<Ledger, Fail> {
    let set = generate(alloc, number)?;
    let mut executive = new_executive(alloc, &set)?;
    let mut ledger = Ledger::new(alloc);
    let mut tick = Tick::new();
    for _ in 0..TICKS {
        append_slot(&mut executive, &mut tick, &mut ledger)?;
    }
    Ok(ledger)
}

/// Whether there is a window with more retries than preemptions.
fn has_more_retries(ledger: &Ledger) -> bool {
    for window in 0..200 {
        let (a, b) = (100 * window, 100 * window + 100);
        if ledger.retries(a, b) > ledger.preemptions(a, b) {
            return true;
        }
    }
    false
}

#[test]
fn retries_in_windows(rt: HostRuntime) -> Result<(), Fail> {
    let mut some = false;
    for number in 0..20 {
        let ledger = ledger_of(rt.alloc(), number)?;
        assert!(rt; !has_more_retries(&ledger));
        if ledger.retries(0, TICKS) > 0 {
            some = true;
        }
    }
    assert!(rt; some);
    Ok(())
}
