// The line of the totals.
ghost use Rattle.std.specs.Prelude.{◌≡◌};
ghost use Rattle.rx_report.specs.Lines.{total_line};

use crate::buffers::{LineBuffer, push_text};
use crate::lines::{Line, push_field};
use rx_ledger::Totals;

/// Makes `out` the line of the totals, which ends a report:
/// `total ticks A idle B released C finished D replies E retries F preempted G missed H` and a line feed. What stood in
/// `out` is gone. It takes no memory, and its cost is that of the bytes written.
pub fn total_line(totals: &Totals, out: &mut Line)
    ensures { out.new.items ≡ total_line totals.now }
{
    let mut line = LineBuffer::new();
    push_field(&mut line, b"total ticks", totals.ticks);
    push_field(&mut line, b" idle", totals.idle);
    push_field(&mut line, b" released", totals.released);
    push_field(&mut line, b" finished", totals.finished);
    push_field(&mut line, b" replies", totals.replies);
    push_field(&mut line, b" retries", totals.retries);
    push_field(&mut line, b" preempted", totals.preempted);
    push_field(&mut line, b" missed", totals.missed);
    push_text(&mut line, b"\n");
    line.copy_to(out);
}

#[cfg(test)]
mod tests {
    use super::*;

    #[test]
    fn writes_totals(rt: HostRuntime) {
        let most = u64::MAX;
        let cases: [(Totals, &[u8]); 2] = [
            (
                Totals {
                    ticks: 10,
                    idle: 2,
                    released: 3,
                    finished: 4,
                    replies: 5,
                    retries: 6,
                    preempted: 7,
                    missed: 0,
                },
                b"total ticks 10 idle 2 released 3 finished 4 replies 5 retries 6 preempted 7 missed 0\n",
            ),
            (
                Totals {
                    ticks: most,
                    ..Totals::new()
                },
                b"total ticks 18446744073709551615 idle 0 released 0 finished 0 replies 0 retries 0 preempted 0 missed 0\n",
            ),
        ];
        let mut line = Line::new();
        for (totals, text) in cases {
            total_line(&totals, &mut line);
            assert_eq!(rt; line.as_slice(), text);
        }
    }
}
