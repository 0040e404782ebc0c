// The lines of the test for fixed priorities.
ghost use Rattle.std.specs.Prelude.{◌≡◌, ◌≤◌, ◌+◌, ◌++◌, length};
ghost use Rattle.rx_set.specs.View.{row_of};
ghost use Rattle.rx_report.specs.VerdictLines.{fixed_line, rank_line, task_ranked, time_text, verdict_text};

use crate::buffers::{LineBuffer, push_text};
use crate::lines::{Line, push_field};
use rx_fixed::Verdict;
use rx_set::{Task, TaskSet};

/// Appends what the test answers, which is at most 33 bytes.
fn push_verdict(line: &mut LineBuffer, verdict: &Verdict)
    requires { length line.old.items + 33 ≤ 1024 }
    ensures text { line.new.items ≡ line.old.items ++ verdict_text verdict.now }
    ensures few { length line.new.items ≤ length line.old.items + 33 }
{
    match *verdict {
        Verdict::Yes => push_text(line, b"test yes"),
        Verdict::No { rank } => push_field(line, b"test no rank", u64::from(rank)),
    }
}

/// Makes `out` the line of what the test for fixed priorities answers, with its line feed: `test yes`, or `test no rank R`
/// where `R` is the rank that it tells. What stood in `out` is gone. It takes no memory, and its cost is that of the bytes
/// written.
pub fn fixed_line(verdict: &Verdict, out: &mut Line)
    ensures { out.new.items ≡ fixed_line verdict.now }
{
    let mut line = LineBuffer::new();
    push_verdict(&mut line, verdict);
    push_text(&mut line, b"\n");
    line.copy_to(out);
}

/// The task that has a rank.
fn task_ranked(set: &TaskSet, rank: u32) -> &Task
    requires { (1 ≤ rank) × (rank ≤ length set.now.tasks) }
    ensures { row_of result.now ≡ task_ranked set.now rank }
{
    &set.tasks()[set.ranked(rank) as usize]
}

/// Appends the least time, or that there is none, which is at most 27 bytes.
fn push_time(line: &mut LineBuffer, least: Option<u64>)
    requires { length line.old.items + 27 ≤ 1024 }
    ensures text { line.new.items ≡ line.old.items ++ time_text least }
    ensures few { length line.new.items ≤ length line.old.items + 27 }
{
    match least {
        Some(t) => push_field(line, b" least", t),
        None => push_text(line, b" fails"),
    }
}

/// Makes `out` the line of a rank of the set, with its line feed: `rank R T least L deadline D`, or `rank R T fails
/// deadline D` where there is no least time. `T` is the name of the task that has this rank, and `D` is its deadline; `L`
/// is the time that is given, which is written whatever it is. What stood in `out` is gone. The rank is from 1 to the
/// number of tasks. It takes no memory, and its cost is that of the bytes written and of looking the task up.
pub fn rank_line(set: &TaskSet, rank: u32, least: Option<u64>, out: &mut Line)
    requires { (1 ≤ rank) × (rank ≤ length set.now.tasks) }
    ensures { out.new.items ≡ rank_line set.now rank least }
{
    let task = task_ranked(set, rank);
    let mut line = LineBuffer::new();
    push_field(&mut line, b"rank", u64::from(rank));
    push_text(&mut line, b" ");
    push_text(&mut line, task.name.as_str().as_bytes());
    push_time(&mut line, least);
    push_field(&mut line, b" deadline", task.deadline);
    push_text(&mut line, b"\n");
    line.copy_to(out);
}

#[cfg(test)]
mod tests {
    use super::*;

    #[test]
    fn writes_answers(rt: HostRuntime) {
        let cases: [(Verdict, &[u8]); 2] = [
            (Verdict::Yes, b"test yes\n"),
            (Verdict::No { rank: u32::MAX }, b"test no rank 4294967295\n"),
        ];
        let mut line = Line::new();
        for (verdict, text) in cases {
            fixed_line(&verdict, &mut line);
            assert_eq!(rt; line.as_slice(), text);
        }
    }
}
