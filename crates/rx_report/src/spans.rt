// The lines of the test for earliest deadlines first, and of the counts of an interval.
ghost use Rattle.std.specs.Prelude.{◌≡◌, ◌≤◌, ◌+◌, ◌++◌, length};
ghost use Rattle.rx_report.specs.Lines.{spaced};
ghost use Rattle.rx_report.specs.SpanLines.{edf_line, verdict_text, window_line};

use crate::buffers::{LineBuffer, push_text};
use crate::lines::{Line, push_field, push_spaced};
use itoa::Buffer;
use rx_edf::EdfVerdict;

/// Appends a text, a space and a number of 128 bits, which has at most 39 digits.
fn push_wide(line: &mut LineBuffer, text: &[u8], n: u128)
    requires { length line.old.items + length text.now + 40 ≤ 1024 }
    ensures text { line.new.items ≡ line.old.items ++ text.now ++ spaced n }
    ensures few { length line.new.items ≤ length line.old.items + length text.now + 40 }
{
    let mut buffer = Buffer::new();
    push_text(line, text);
    push_text(line, b" ");
    push_text(line, buffer.format(n).as_bytes());
}

/// Appends what the test answers, which is at most 90 bytes.
fn push_verdict(line: &mut LineBuffer, verdict: &EdfVerdict)
    requires { length line.old.items + 90 ≤ 1024 }
    ensures text { line.new.items ≡ line.old.items ++ verdict_text verdict.now }
    ensures few { length line.new.items ≤ length line.old.items + 90 }
{
    match *verdict {
        EdfVerdict::Yes => push_text(line, b" yes"),
        EdfVerdict::No { t, need } => {
            push_wide(line, b" no t", t);
            push_wide(line, b" need", need);
        }
        EdfVerdict::Wide => push_text(line, b" wide"),
        EdfVerdict::Long { points } => push_wide(line, b" long", points),
    }
}

/// Makes `out` the line of what the test for earliest deadlines first answers, with its line feed: `test yes`,
/// `test no t T need V`, `test wide` or `test long P`. What stood in `out` is gone. It takes no memory, and its cost is
/// that of the bytes written.
pub fn edf_line(verdict: &EdfVerdict, out: &mut Line)
    ensures { out.new.items ≡ edf_line verdict.now }
{
    let mut line = LineBuffer::new();
    push_text(&mut line, b"test");
    push_verdict(&mut line, verdict);
    push_text(&mut line, b"\n");
    line.copy_to(out);
}

/// Makes `out` the line of an interval, with its line feed: `window A B retries X preemptions Y`. What stood in `out` is
/// gone. It takes no memory, and its cost is that of the bytes written.
pub fn window_line(a: u64, b: u64, retries: u64, preemptions: u64, out: &mut Line)
    ensures { out.new.items ≡ window_line a b retries preemptions }
{
    let mut line = LineBuffer::new();
    push_text(&mut line, b"window");
    push_spaced(&mut line, a);
    push_spaced(&mut line, b);
    push_field(&mut line, b" retries", retries);
    push_field(&mut line, b" preemptions", preemptions);
    push_text(&mut line, b"\n");
    line.copy_to(out);
}

#[cfg(test)]
mod tests {
    use super::*;

    #[test]
    fn writes_verdicts(rt: HostRuntime) {
        let most = u128::MAX;
        let cases: [(EdfVerdict, &[u8]); 5] = [
            (EdfVerdict::Yes, b"test yes\n"),
            (EdfVerdict::No { t: 3, need: 4 }, b"test no t 3 need 4\n"),
            (EdfVerdict::Wide, b"test wide\n"),
            (
                EdfVerdict::Long {
                    points: 124_999_999_999,
                },
                b"test long 124999999999\n",
            ),
            (
                EdfVerdict::No {
                    t: most,
                    need: most,
                },
                b"test no t 340282366920938463463374607431768211455 need 340282366920938463463374607431768211455\n",
            ),
        ];
        let mut line = Line::new();
        for (verdict, text) in cases {
            edf_line(&verdict, &mut line);
            assert_eq!(rt; line.as_slice(), text);
        }
    }

    #[test]
    fn writes_windows(rt: HostRuntime) {
        let most = u64::MAX;
        let cases: [(u64, u64, u64, u64, &[u8]); 2] = [
            (0, 100, 3, 7, b"window 0 100 retries 3 preemptions 7\n"),
            (
                most,
                most,
                0,
                most,
                b"window 18446744073709551615 18446744073709551615 retries 0 preemptions 18446744073709551615\n",
            ),
        ];
        let mut line = Line::new();
        for (a, b, retries, preemptions, text) in cases {
            window_line(a, b, retries, preemptions, &mut line);
            assert_eq!(rt; line.as_slice(), text);
        }
    }
}
