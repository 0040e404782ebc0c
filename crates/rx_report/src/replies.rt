// The text of a reply.
ghost use Rattle.std.specs.Prelude.{◌≡◌, ◌≤◌, ◌+◌, ◌++◌, length};
ghost use Rattle.rx_report.specs.Lines.{reply_text};

use crate::buffers::{LineBuffer, push_text};
use crate::lines::push_field;
use rx_seq::Reply;

/// Appends what a call answered: a word, and the number that some replies have.
pub(crate) fn push_reply(line: &mut LineBuffer, reply: Reply)
    requires { length line.old.items + 28 ≤ 1024 }
    ensures text { line.new.items ≡ line.old.items ++ reply_text reply }
    ensures few { length line.new.items ≤ length line.old.items + 28 }
{
    match reply {
        Reply::Done { v } => push_field(line, b"done", u64::from(v)),
        Reply::Over => push_text(line, b"over"),
        Reply::Differs { v } => push_field(line, b"differs", u64::from(v)),
        Reply::Full => push_text(line, b"full"),
        Reply::Empty => push_text(line, b"empty"),
        Reply::Added => push_text(line, b"added"),
        Reply::Present => push_text(line, b"present"),
        Reply::Removed => push_text(line, b"removed"),
        Reply::Absent => push_text(line, b"absent"),
        Reply::Yes => push_text(line, b"yes"),
        Reply::No => push_text(line, b"no"),
        Reply::Short { v } => push_field(line, b"short", u64::from(v)),
    }
}

#[cfg(test)]
mod tests {
    use super::*;

    #[test]
    fn writes_replies(rt: HostRuntime) {
        let cases: [(Reply, &[u8]); 12] = [
            (Reply::Done { v: u32::MAX }, b"done 4294967295"),
            (Reply::Over, b"over"),
            (Reply::Differs { v: 7 }, b"differs 7"),
            (Reply::Full, b"full"),
            (Reply::Empty, b"empty"),
            (Reply::Added, b"added"),
            (Reply::Present, b"present"),
            (Reply::Removed, b"removed"),
            (Reply::Absent, b"absent"),
            (Reply::Yes, b"yes"),
            (Reply::No, b"no"),
            (Reply::Short { v: 0 }, b"short 0"),
        ];
        let mut line = LineBuffer::new();
        for (reply, text) in cases {
            line.clear();
            push_reply(&mut line, reply);
            assert_eq!(rt; line.as_slice(), text);
        }
    }
}
