//! Makes many calls on one object by one thread or several, on shared words or under a lock, and prints what it did. How
//! long it takes is for its caller to measure, as `bench/objects` does.
//!
//! Its words are `KIND CAPACITY THREADS CALLS` or `lock KIND CAPACITY THREADS CALLS`, where `KIND` is `cell`, `queue`, `list`
//! or `registers`, `CAPACITY` is 1 for a cell, 1 to 64 for a queue or a list and 16 for registers, `THREADS` is 1 to 4, and
//! `CALLS` is how many calls each thread makes. It ends with code 0; with code 2 and a line that says this for words of
//! another shape; with code 7 where the line cannot be written; and with code 8 where there is no memory, or the system
//! refuses the words.
#![tactic(auto)]

mod lanes;
mod locks;
mod plans;
mod scripts;

use crate::lanes::{Tally, on_table};
use crate::locks::under_lock;
use crate::plans::{Plan, name_of, plan_of};
use std::alloc::Global;
use std::process::ExitCode;
use std::rt::Env;
use std::sync::Wait;
use std::thread::Threads;
use std::{env, io};

// The codes of the program.
const NO_SHAPE: u8 = 2;

const NO_OUTPUT: u8 = 7;

const NO_MEMORY: u8 = 8;

/// The words after the program's name.
fn words(rt: &impl Env, alloc: Global) -> io::Result<Vec<String>> {
    let mut words = Vec::new(alloc);
    for word in env::args(&(rt, alloc))?.skip(1) {
        words.push(word)?;
    }
    Ok(words)
}

/// The code at the end, after a line was written or not.
fn code(written: io::Result<()>, code: u8) -> u8 {
    match written {
        Ok(()) => code,
        Err(_) => NO_OUTPUT,
    }
}

/// Makes the calls of a plan on shared words, and tells of them.
fn measure_table<R: Threads + Print + Sync>(rt: &R, alloc: Global, plan: Plan) -> u8 {
    let Tally { made, retries } = match on_table(rt, alloc, plan) {
        Ok(tally) => tally,
        Err(_) => return NO_MEMORY,
    };
    let (name, cap, threads) = (name_of(plan.part.kind), plan.part.cap, plan.threads);
    code(
        println!(rt; "{name} {cap} threads {threads} calls {made} retries {retries}"),
        0,
    )
}

/// Makes the calls of a plan under a lock, and tells of them.
fn measure_lock<R: Threads + Wait + Print + Sync>(rt: &R, plan: Plan) -> u8 {
    let made = under_lock(rt, plan);
    let (name, cap, threads) = (name_of(plan.part.kind), plan.part.cap, plan.threads);
    code(
        println!(rt; "lock {name} {cap} threads {threads} calls {made}"),
        0,
    )
}

/// Answers the words.
fn answer<R: Threads + Wait + Print + Sync>(rt: &R, alloc: Global, words: &[String]) -> u8 {
    match plan_of(words) {
        Some(plan) if plan.lock => measure_lock(rt, plan),
        Some(plan) => measure_table(rt, alloc, plan),
        None => code(
            println!(rt; "usage: rx_bench [lock] cell|queue|list|registers CAPACITY THREADS CALLS"),
            NO_SHAPE,
        ),
    }
}

fn main(rt: HostRuntime) -> ExitCode {
    let alloc = rt.alloc();
    match words(&rt, alloc) {
        Ok(words) => ExitCode::from(answer(&rt, alloc, words.as_slice())),
        Err(_) => ExitCode::from(NO_MEMORY),
    }
}
