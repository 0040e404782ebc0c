//! Writing the line of an admission test.
ghost use Rattle.std.specs.Prelude.{◌≡◌, [], ◌∷◌, IfOk};
ghost use Rattle.rx_io.specs.States.{MayBeCalled};
ghost use Rattle.rx_io.specs.Causes.{Puts};
ghost use Rattle.rx_set.specs.declared.policies.Policy.TheVariants.{Edf};
ghost use Rattle.rx_report.specs.VerdictLines.{fixed_line};
ghost use Rattle.rx_edf.specs.Verdicts.{verdict_of as edf_verdict_of};
ghost use Rattle.rx_report.specs.SpanLines.{edf_line};
ghost use Rattle.rx_trace.specs.Tests.{test_line};

use rx_edf::{EdfVerdict, test as test_spans};
use rx_fixed::{Verdict, test as test_ranks};
use rx_io::{Failed, Sink, put};
use rx_report::{Line, edf_line, fixed_line};
use rx_set::{Policy, TaskSet};

/// Hands in the line of a verdict of the test for fixed priorities, as `rx_report::fixed_line` makes it.
///
/// `line` is room to make it in, whatever it holds. At `Failed` the sink failed in this call, and a front of the line was
/// taken. It takes no memory. Wants a sink whose latest call did not fail, with a count of faults below 2^63.
pub fn put_verdict<K: Sink>(verdict: &Verdict, line: &mut Line, sink: &mut K) -> Result<(), Failed>
    requires { MayBeCalled (K.tells sink.old).failures }
    ensures { Puts (K.tells sink.old) (K.tells sink.new) result (fixed_line verdict.now ∷ []) }
{
    fixed_line(verdict, line);
    put(sink, line.as_slice())
}

/// Makes the test for earliest deadlines first of a set, hands in its line, as `rx_report::edf_line` makes it, and answers
/// its verdict.
///
/// `line` is room to make it in, whatever it holds. At `Failed` the sink failed in this call, and a front of the line was
/// taken. It takes no memory, and the time of `rx_edf::test`. Wants the policy `edf`, and a sink whose latest call did not
/// fail, with a count of faults below 2^63.
pub fn write_spans<K: Sink>(
    set: &TaskSet,
    line: &mut Line,
    sink: &mut K,
) -> Result<EdfVerdict, Failed>
    requires up { MayBeCalled (K.tells sink.old).failures }
    requires policy { set.now.policy ≡ Edf }
    ensures puts { Puts (K.tells sink.old) (K.tells sink.new) result (edf_line (edf_verdict_of set.now) ∷ []) }
    ensures verdict { IfOk result (λ verdict. verdict ≡ edf_verdict_of set.now) }
{
    let verdict = test_spans(set);
    edf_line(&verdict, line);
    put(sink, line.as_slice())?;
    Ok(verdict)
}

/// Makes the admission test of a set, that of its policy, and hands in its line: `test yes`, or why not.
///
/// `line` is room to make it in, whatever it holds. At `Failed` the sink failed in this call, and a front of the line was
/// taken. It takes no memory, and the time of `rx_fixed::test` or `rx_edf::test`. Wants a sink whose latest call did not
/// fail, with a count of faults below 2^63.
pub fn put_test<K: Sink>(set: &TaskSet, line: &mut Line, sink: &mut K) -> Result<(), Failed>
    requires { MayBeCalled (K.tells sink.old).failures }
    ensures { Puts (K.tells sink.old) (K.tells sink.new) result (test_line set.now ∷ []) }
{
    match set.policy() {
        Policy::Rm | Policy::Dm => put_verdict(&test_ranks(set), line, sink),
        Policy::Edf => {
            write_spans(set, line, sink)?;
            Ok(())
        }
    }
}
