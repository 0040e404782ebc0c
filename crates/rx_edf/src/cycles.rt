// The least common multiple of the periods.
ghost use Rattle.std.specs.Prelude.{◌≡◌, ◌≤◌, ◌<◌, ◌^◌, IfSome, IfNone};
ghost use Rattle.std.specs.Int.{IsGcd};
ghost use Rattle.rx_edf.specs.ChargedTasks.{AreChargedTasks, common, cycle_of as cycle_in};

use crate::charged_tasks::ChargedTask;

/// From here on a cycle is too wide.
const WIDE: u128 = 1 << 96;

/// The greatest common divisor of two numbers (Euclid).
fn gcd(a: u64, b: u64) -> u64
    ensures { IsGcd a b result }
{
    let mut x = a;
    let mut y = b;
    while y != 0 {
        let rest = x % y;
        x = y;
        y = rest;
    }
    x
}

/// The least multiple of a number that a period divides.
fn common_of(cycle: u128, period: u64) -> u128
    requires cycle { (1 ≤ cycle) × (cycle < 2 ^ 96) }
    requires period { (1 ≤ period) × (period ≤ 1000000) }
    ensures { result ≡ common cycle period }
{
    let rest = (cycle % u128::from(period)) as u64;
    cycle * u128::from(period / gcd(period, rest))
}

/// The least common multiple of all periods, if it is below 2^96.
pub fn cycle_of(charged: &[ChargedTask]) -> Option<u128>
    requires { AreChargedTasks charged.now }
    ensures some { IfSome result (λ cycle. (cycle ≡ cycle_in charged.now) × (cycle < 2 ^ 96)) }
    ensures none { IfNone result (2 ^ 96 ≤ cycle_in charged.now) }
{
    let mut cycle = 1;
    for place in 0..charged.len() {
        cycle = common_of(cycle, charged[place].period);
        if cycle >= WIDE {
            return None;
        }
    }
    Some(cycle)
}
