// What the words of the command ask for.
ghost use Rattle.rx_bench.specs.Scripts.{IsMeasured};
ghost use Rattle.std.specs.Prelude.{◌≤◌};

use crate::scripts::is_measured;
use rx_seq::{Kind, Part};

/// The greatest number of threads.
const THREADS: u32 = 4;

/// What is measured: an object on shared words or under a lock, its kind and capacity, the number of threads, from 1 to 4,
/// and how many calls each of them makes.
#[derive(Clone, Copy, Debug, PartialEq, Eq)]
pub struct Plan {
    pub lock: bool,
    pub part: Part,
    pub threads: u32,
    pub calls: u32,
    ghost measured: { IsMeasured part },
    ghost some: { 1 ≤ threads },
    ghost few: { threads ≤ 4 },
}

/// The plan of the words `KIND CAPACITY THREADS CALLS` or `lock KIND CAPACITY THREADS CALLS`, or none where they have no such
/// shape. A cell has the capacity 1, a queue or a list 1 to 64, and registers 16; there are 1 to 4 threads.
pub fn plan_of(words: &[String]) -> Option<Plan> {
    match words {
        [kind, cap, threads, calls] => {
            read_plan(
                false,
                kind.as_str(),
                cap.as_str(),
                threads.as_str(),
                calls.as_str(),
            )
        }
        [lock, kind, cap, threads, calls] if lock.as_str() == "lock" => {
            read_plan(
                true,
                kind.as_str(),
                cap.as_str(),
                threads.as_str(),
                calls.as_str(),
            )
        }
        _ => None,
    }
}

fn read_plan(lock: bool, kind: &str, cap: &str, threads: &str, calls: &str) -> Option<Plan> {
    let part = Part {
        kind: kind_of(kind)?,
        cap: cap.parse::<u32>().ok()?,
    };
    let threads = threads.parse::<u32>().ok()?;
    let calls = calls.parse::<u32>().ok()?;
    if !is_measured(part) || threads < 1 || threads > THREADS {
        return None;
    }
    Some(Plan {
        lock,
        part,
        threads,
        calls,
    })
}

/// The kind of this name.
fn kind_of(word: &str) -> Option<Kind> {
    match word {
        "cell" => Some(Kind::Cell),
        "queue" => Some(Kind::Queue),
        "list" => Some(Kind::List),
        "registers" => Some(Kind::Registers),
        _ => None,
    }
}

/// The name of a kind.
pub fn name_of(kind: Kind) -> &'static str {
    match kind {
        Kind::Cell => "cell",
        Kind::Queue => "queue",
        Kind::List => "list",
        Kind::Registers => "registers",
    }
}
