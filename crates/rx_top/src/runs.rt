//! Running a set, and writing its schedule.
ghost use Rattle.std.specs.Prelude.{◌≡◌, ◌≤◌};
ghost use Rattle.rx_io.specs.States.{MayBeCalled};
ghost use Rattle.rx_set.specs.Valid.{IsValid};
ghost use Rattle.rx_top.specs.declared.left.Left.TheVariants.{Nothing};
ghost use Rattle.rx_top.specs.Outcome.{WritesAnswer, run_answer};

use crate::left::Left;
use crate::stops::Stop;
use rx_io::{Sink, Status};
use rx_report::Wording;
use rx_set::TaskSet;
use rx_trace::{Ended, new_executive, write_run};
use std::alloc::Global;

/// Runs a set, writes the report of its schedule, and leaves its bank.
pub(crate) fn run_set<K: Sink>(
    alloc: Global,
    ticks: u64,
    set: &TaskSet,
    sink: &mut K,
    left: &mut Left,
) -> Result<Status, Stop>
    requires valid { IsValid set.now }
    requires up { MayBeCalled (K.tells sink.old).failures }
    requires limits { ticks ≤ 1000000 }
    requires nothing { left.old ≡ Nothing }
    ensures { WritesAnswer (run_answer ticks set.now) (K.tells sink.old) (K.tells sink.new) left.new result }
{
    let wording = Wording::new(alloc, set)?;
    let executive = new_executive(alloc, set)?;
    let Ended { missed, bank } = write_run(set, &wording, executive, ticks, sink)?;
    *left = Left::Bank { bank };
    Ok(if missed == 0 {
        Status::Done
    } else {
        Status::Adverse
    })
}
