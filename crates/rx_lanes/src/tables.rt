// The table of a run, its lanes, and its closing.
ghost use Rattle.rx_lanes.specs.Lanes.{HasRun, IsNew, IsReady, answers_of, number_of, seat_of};
ghost use Rattle.rx_lanes.specs.Runs.{AreKept, items_of, table_of};
ghost use Rattle.rx_set.specs.System.{numbers};
ghost use Rattle.rx_table.specs.Tables.{AreNew, AreSeats};
ghost use Rattle.rx_table.specs.Closings.{HasEnded};
ghost use Rattle.std.specs.List.{All};
ghost use Rattle.std.specs.Prelude.{◌≡◌, ◌≤◌, [], IfOk, length, map, vec_capacity};

use crate::answers::Answer;
use crate::lanes::{Lane, lane_of};
use arrayvec::ArrayVec;
use rx_seq::NoMemory;
use rx_set::TaskSet;
use rx_shape::Layout;
use rx_table::{Closed, Opened, Seat, Shared};
use std::alloc::Global;

/// A new table of the objects of a set, with so many seats.
pub fn open(alloc: Global, set: &TaskSet, workers: u32) -> Result<Opened, NoMemory>
    requires { (1 ≤ workers) × (workers ≤ 16) }
    ensures layout { IfOk result (λ opened. opened.shared.layout ≡ table_of set.now workers) }
    ensures seats { IfOk result (λ opened. AreSeats opened.shared opened.seats.items) }
    ensures fresh { IfOk result (λ opened. AreNew opened.shared opened.seats.items) }
{
    let _tasks = set.tasks();
    let mut parts = ArrayVec::new();
    set.parts(&mut parts);
    let layout = Layout::new(alloc, parts.as_slice(), workers, 0)?;
    Shared::new(alloc, layout)
}

/// A lane for each seat, in order.
pub fn lanes_of(
    alloc: Global,
    set: &TaskSet,
    jobs: u32,
    workers: u32,
    mut seats: Vec<Seat>,
) -> Result<Vec<Lane>, NoMemory>
    requires jobs { jobs ≤ 200 }
    requires workers { (1 ≤ workers) × (workers ≤ 16) }
    requires seats { length seats.items ≡ workers }
    ensures seats { IfOk result (λ lanes. map seat_of lanes.items ≡ seats.items) }
    ensures numbers { IfOk result (λ lanes. map number_of lanes.items ≡ numbers (length seats.items)) }
    ensures new { IfOk result (λ lanes. All (IsNew set.now jobs workers) lanes.items) }
{
    let mut lanes = Vec::new(alloc);
    while !seats.is_empty() {
        let seat = seats.remove(0);
        let lane = lane_of(alloc, set, jobs, workers, lanes.len() as u32, seat)?;
        match lanes.push(lane) {
            Ok(()) => {}
            Err(_) => return Err(NoMemory),
        }
    }
    Ok(lanes)
}

/// The seats of lanes and their answers, in order.
fn take_apart(
    mut lanes: Vec<Lane>,
    mut seats: Vec<Seat>,
    mut answers: Vec<Vec<Answer>>,
) -> (Vec<Seat>, Vec<Vec<Answer>>)
    requires seats { (seats.items ≡ []) × (length lanes.items ≤ vec_capacity seats) }
    requires answers { (answers.items ≡ []) × (length lanes.items ≤ vec_capacity answers) }
    ensures seats { result.0.items ≡ map seat_of lanes.items }
    ensures answers { result.1.items ≡ map answers_of lanes.items }
{
    while !lanes.is_empty() {
        let lane = lanes.remove(0);
        let Lane {
            number: _,
            seat,
            runner: _,
            made: _,
            answers: told,
        } = lane;
        seats.push_reserved(seat);
        answers.push_reserved(told);
    }
    (seats, answers)
}

/// Room for the seats and the answers of so many lanes.
pub fn room_for(alloc: Global, count: u32) -> Result<(Vec<Seat>, Vec<Vec<Answer>>), NoMemory>
    ensures seats { IfOk result (λ room. (room.0.items ≡ []) × (count ≤ vec_capacity room.0)) }
    ensures answers { IfOk result (λ room. (room.1.items ≡ []) × (count ≤ vec_capacity room.1)) }
{
    let seats = match Vec::with_capacity(alloc, count as usize) {
        Ok(seats) => seats,
        Err(_) => return Err(NoMemory),
    };
    match Vec::with_capacity(alloc, count as usize) {
        Ok(answers) => Ok((seats, answers)),
        Err(_) => Err(NoMemory),
    }
}

/// Closes the table of lanes that have run, and tells the answers of each.
pub fn close(
    alloc: Global,
    set: &TaskSet,
    jobs: u32,
    workers: u32,
    shared: Shared,
    lanes: Vec<Lane>,
    room: (Vec<Seat>, Vec<Vec<Answer>>),
) -> Result<(Closed, Vec<Vec<Answer>>), NoMemory>
    requires limits { (1 ≤ workers) × (workers ≤ 16) × (jobs ≤ 200) }
    requires layout { shared.layout ≡ table_of set.now workers }
    requires lanes { map number_of lanes.items ≡ numbers workers }
    requires run { All (HasRun shared set.now jobs workers) lanes.items }
    requires seats { (room.0.items ≡ []) × (workers ≤ vec_capacity room.0) }
    requires answers { (room.1.items ≡ []) × (workers ≤ vec_capacity room.1) }
    ensures layout { IfOk result (λ r. r.0.layout ≡ table_of set.now workers) }
    ensures ended { IfOk result (λ r. HasEnded r.0) }
    ensures many { IfOk result (λ r. length r.1.items ≡ workers) }
    ensures kept { IfOk result (λ r. AreKept set.now jobs workers r.0.history (items_of r.1.items)) }
{
    let _tasks = set.tasks();
    let (seats, answers) = room;
    let (seats, answers) = take_apart(lanes, seats, answers);
    match shared.close(alloc, seats) {
        Ok(closed) => {
            let _layout = closed.layout();
            Ok((closed, answers))
        }
        Err(_) => Err(NoMemory),
    }
}
