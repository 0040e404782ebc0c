// All lanes at once, in halves of halves.
ghost use Rattle.rx_lanes.specs.Lanes.{HasRun, IsReady, number_of};
ghost use Rattle.rx_set.specs.System.{parts_of};
ghost use Rattle.std.specs.List.{All};
ghost use Rattle.std.specs.Prelude.{◌≡◌, ◌<◌, ◌≤◌, length, map};
ghost use Rattle.std.specs.Thread.{IsSync};

use crate::gates::Gate;
use crate::lanes::Lane;
use rx_set::TaskSet;
use rx_table::Shared;
use std::thread::{Threads, join_mut};

/// Runs one lane.
fn run_one<G: Gate>(
    shared: &Shared,
    gate: &G,
    set: &TaskSet,
    jobs: u32,
    workers: u32,
    lane: &mut Lane,
)
    requires parts { shared.now.layout.parts ≡ parts_of set.now }
    requires workers { 1 ≤ workers }
    requires ready { IsReady shared.now set.now jobs workers lane.old }
    ensures run { HasRun shared.now set.now jobs workers lane.new }
    ensures number { lane.new.number ≡ lane.old.number }
{
    lane.run(shared, gate, set, jobs, workers);
}

/// Runs lanes: one by itself, and more in two halves, each in a thread of its own where one can be made.
#[cycle(halves)]
pub fn run_all<R: Threads + Sync, G: Gate + Sync>(
    rt: &R,
    shared: &Shared,
    gate: &G,
    set: &TaskSet,
    jobs: u32,
    workers: u32,
    lanes: &mut [Lane],
)
    requires parts { shared.now.layout.parts ≡ parts_of set.now }
    requires workers { 1 ≤ workers }
    requires ready { All (IsReady shared.now set.now jobs workers) lanes.old }
    ensures run { All (HasRun shared.now set.now jobs workers) lanes.new }
    ensures numbers { map number_of lanes.new ≡ map number_of lanes.old }
{
    if lanes.is_empty() {
        return;
    }
    if lanes.len() == 1 {
        run_one(shared, gate, set, jobs, workers, &mut lanes[0]);
        return;
    }
    let (front, back) = lanes.split_at_mut(lanes.len() / 2);
    run_halves(rt, shared, gate, set, jobs, workers, front, back);
}

/// Runs two parts of the lanes, neither of them empty, as two halves of a join.
#[cycle(halves)]
fn run_halves<R: Threads + Sync, G: Gate + Sync>(
    rt: &R,
    shared: &Shared,
    gate: &G,
    set: &TaskSet,
    jobs: u32,
    workers: u32,
    front: &mut [Lane],
    back: &mut [Lane],
)
    requires parts { shared.now.layout.parts ≡ parts_of set.now }
    requires workers { 1 ≤ workers }
    requires some { (0 < length front.old) × (0 < length back.old) }
    requires front { All (IsReady shared.now set.now jobs workers) front.old }
    requires back { All (IsReady shared.now set.now jobs workers) back.old }
    ensures front { All (HasRun shared.now set.now jobs workers) front.new }
    ensures front_numbers { map number_of front.new ≡ map number_of front.old }
    ensures back { All (HasRun shared.now set.now jobs workers) back.new }
    ensures back_numbers { map number_of back.new ≡ map number_of back.old }
{
    let mut first = ||
        requires { IsSync R.row × IsSync G.row × (shared.now.layout.parts ≡ parts_of set.now) × (1 ≤ workers) × All (IsReady shared.now set.now jobs workers) front.now }
        ensures { All (HasRun shared.entry.now set.entry.now jobs workers) front.exit.now × (map number_of front.exit.now ≡ map number_of front.entry.now) }
    { run_all(rt, shared, gate, set, jobs, workers, front) };
    let mut second = ||
        requires { IsSync R.row × IsSync G.row × (shared.now.layout.parts ≡ parts_of set.now) × (1 ≤ workers) × All (IsReady shared.now set.now jobs workers) back.now }
        ensures { All (HasRun shared.entry.now set.entry.now jobs workers) back.exit.now × (map number_of back.exit.now ≡ map number_of back.entry.now) }
    { run_all(rt, shared, gate, set, jobs, workers, back) };
    join_mut(rt, &mut first, &mut second);
}
