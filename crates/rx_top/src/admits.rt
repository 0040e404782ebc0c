//! What the admission test says of a set.
ghost use Rattle.std.specs.Prelude.{◌≡◌, ◌≢◌, ◌≤◌, [], ◌∷◌, length, IfOk};
ghost use Rattle.rx_io.specs.States.{MayBeCalled};
ghost use Rattle.rx_io.specs.Causes.{Puts};
ghost use Rattle.rx_set.specs.Valid.{IsValid};
ghost use Rattle.rx_set.specs.Admission.{least_time};
ghost use Rattle.rx_set.specs.declared.policies.Policy.TheVariants.{Edf};
ghost use Rattle.rx_fixed.specs.Verdicts.{verdict_of};
ghost use Rattle.rx_report.specs.VerdictLines.{rank_line};
ghost use Rattle.rx_top.specs.declared.left.Left.TheVariants.{Nothing};
ghost use Rattle.rx_top.specs.Outcome.{WritesAnswer, admit_answer, edf_status, fixed_status};
ghost use Rattle.rx_trace.specs.Tests.{first_ranks, fixed_report};

use crate::stops::Stop;
use rx_edf::EdfVerdict;
use rx_fixed::{Verdict, least, test as test_ranks};
use rx_io::{Failed, Sink, Status, put};
use rx_report::{Line, rank_line};
use rx_set::{Policy, TaskSet};
use rx_trace::{put_verdict, write_spans};

/// Hands in the line of a rank.
fn put_rank<K: Sink>(set: &TaskSet, rank: u32, line: &mut Line, sink: &mut K) -> Result<(), Failed>
    requires up { MayBeCalled (K.tells sink.old).failures }
    requires policy { set.now.policy ≢ Edf }
    requires rank { (1 ≤ rank) × (rank ≤ length set.now.tasks) }
    ensures { Puts (K.tells sink.old) (K.tells sink.new) result (rank_line set.now rank (least_time set.now rank) ∷ []) }
{
    rank_line(set, rank, least(set, rank), line);
    put(sink, line.as_slice())
}

/// Hands in the lines of all ranks.
fn put_ranks<K: Sink>(set: &TaskSet, line: &mut Line, sink: &mut K) -> Result<(), Failed>
    requires up { MayBeCalled (K.tells sink.old).failures }
    requires policy { set.now.policy ≢ Edf }
    ensures { Puts (K.tells sink.old) (K.tells sink.new) result (first_ranks set.now (length set.now.tasks)) }
{
    for place in 0..set.tasks().len() {
        put_rank(set, place as u32 + 1, line, sink)?;
    }
    Ok(())
}

/// Makes the test for fixed priorities of a set, hands in its report line by line, and answers its verdict. It takes no
/// memory.
fn write_admission<K: Sink>(set: &TaskSet, line: &mut Line, sink: &mut K) -> Result<Verdict, Failed>
    requires up { MayBeCalled (K.tells sink.old).failures }
    requires policy { set.now.policy ≢ Edf }
    ensures puts { Puts (K.tells sink.old) (K.tells sink.new) result (fixed_report set.now) }
    ensures verdict { IfOk result (λ verdict. verdict ≡ verdict_of set.now) }
{
    let verdict = test_ranks(set);
    put_verdict(&verdict, line, sink)?;
    put_ranks(set, line, sink)?;
    Ok(verdict)
}

/// The status of a verdict of the test for fixed priorities.
fn fixed_status(verdict: &Verdict) -> Status
    ensures { result ≡ fixed_status verdict.now }
{
    match verdict {
        Verdict::Yes => Status::Done,
        Verdict::No { .. } => Status::Adverse,
    }
}

/// The status of a verdict of the test for earliest deadlines first.
fn edf_status(verdict: &EdfVerdict) -> Status
    ensures { result ≡ edf_status verdict.now }
{
    match verdict {
        EdfVerdict::Yes => Status::Done,
        EdfVerdict::No { .. } => Status::Adverse,
        EdfVerdict::Wide => Status::Wide,
        EdfVerdict::Long { .. } => Status::Long,
    }
}

/// Writes what the admission test of its policy says of a set.
pub(crate) fn admit_set<K: Sink>(set: &TaskSet, sink: &mut K) -> Result<Status, Stop>
    requires valid { IsValid set.now }
    requires up { MayBeCalled (K.tells sink.old).failures }
    ensures { WritesAnswer (admit_answer set.now) (K.tells sink.old) (K.tells sink.new) Nothing result }
{
    let mut line = Line::new();
    match set.policy() {
        Policy::Rm | Policy::Dm => Ok(fixed_status(&write_admission(set, &mut line, sink)?)),
        Policy::Edf => Ok(edf_status(&write_spans(set, &mut line, sink)?)),
    }
}
