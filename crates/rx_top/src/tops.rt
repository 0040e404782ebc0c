//! The top call.
ghost use Rattle.std.specs.Prelude.{map, string_bytes};
ghost use Rattle.rx_io.specs.States.{MayBeCalled};
ghost use Rattle.rx_top.specs.Words.{command_of};
ghost use Rattle.rx_top.specs.Outcome.{Admission, Drawing, Headline, IsLast, Outcome, Sharing, ends};
ghost use Rattle.rx_top.specs.Determined.{Determined, Unread};

use crate::answers::answer_words;
use crate::left::Left;
use crate::words::command_of;
use rx_edf::laws::verdicts_are_exact;
use rx_io::{Sink, Source, Status};
use rx_lanes::Gate;
use rx_report::laws::lines_tell_their_calls;
use rx_set::laws::{drawn_sets_are_valid, least_times_serve};
use rx_tick::charges::retries_are_bounded;
use rx_tick::laws::entries_follow_the_bodies;
use rx_tick::windows::{fitting_spans_miss_nothing, served_sets_miss_nothing};
use std::alloc::Global;
use std::thread::Threads;

/// Does all that the program does: answers the words after its name, reads the input from `source`, and writes what it
/// tells to `sink`.
///
/// `admit` reads a task file, in the form that `rx_file::read_set` says, and writes the line of the admission test (a
/// schedulability test) of its policy, and under fixed priorities a line for each rank with the least time that serves it,
/// which response-time analysis takes as the bound of a worst-case response. `run N` reads one and writes the report of
/// its schedule: the line of the test, the events of the slots 0 to N - 1, the misses at time N, a line for each object,
/// and the line of the totals. `lanes K J` reads one, has K lanes make the operations of J jobs of each task on one shared
/// table (`rx_lanes::run_lanes`), in threads of `rt` where it gives them, and writes how many lanes and jobs there were, a
/// line for each operation, in the merged order, a line for each object, and how many operations there were. A lane passes
/// `gate` before each of its operations. `gen X` draws the set of a number (`rx_set::generate`), runs it for 100,000 ticks,
/// and writes the line of the test, a line for each of ten intervals, a line for each object, and the line of the totals.
/// N, K, J and X are words of 1 to 20 ASCII digits, leading zeros allowed; N is at most 1,000,000, K is 1 to 16, J is 1 to
/// 200, and X is less than 2^64. All other words have no shape.
///
/// - `Done`: the whole report was written; that of `run` tells no miss, and that of `admit` says yes.
/// - `Adverse`: the whole report was written; that of `run` tells a miss, and that of `admit` says no.
/// - `Wide` and `Long`: exactly where the test for earliest deadlines first answers `admit` so. Its line was written.
/// - `Words`: exactly where the words have no shape. The line `words` was written, and the source is as it was.
/// - `ReadFault`: only where the source failed in this call. Nothing was written.
/// - `TooLarge`: exactly where the input has more than 1,048,576 bytes, of which 1,048,577 are then read. The line
///   `too large` was written.
/// - `NotToml`: exactly where the input is no TOML document. The line `not toml` was written.
/// - `BadSet`: exactly where the input is a TOML document and no set of tasks. The line of its first fault was written, as
///   `rx_report::fault_line` says.
/// - `WriteFault`: only where the sink failed in this call. A front of what was to be written was taken.
/// - `NoMemory`: may come for any words that have a shape. Nothing was written.
///
/// At `Done` and `Adverse` of `run`, and at `Done` of `gen`, `left` is the bank of the executive whose report was written:
/// it stands for the history of that schedule. At `Done` of `lanes` it is the closed table of the lanes, where each lane's
/// seat has the entries of its tasks. In every other case it is `Nothing`, whatever it was before.
///
/// Where the status is another than `ReadFault`, `WriteFault` and `NoMemory`, neither the source nor the sink failed,
/// and an input that is read and not too large is read to its end. Each call of the source asks for 4,096 bytes, or for
/// as many as are left up to the limit. Each line is handed to the sink in a call of its own, and all that the sink left
/// of it in another. A call that fails is the last one of its source or sink. It takes memory for the input and
/// its document, for each word of the bank or of the table, for a machine a task or a lane, and for `lanes` 16 bytes
/// and two entries for each operation, all of it before the first write, and none for words of no shape; `gen` takes
/// memory for its events instead of the input. The time is that of reading the file and of the test, and for each slot
/// that of `Executive::tick` and of its lines; for `lanes` that of `run_lanes`, and for each operation that of
/// `rx_report::entry_line`.
/// Wants a source and a sink whose latest calls did not fail, each with a count of faults below 2^63.
pub fn top<R: Threads + Sync, S: Source, K: Sink, G: Gate + Sync>(
    rt: &R,
    alloc: Global,
    words: &[String],
    source: &mut S,
    sink: &mut K,
    gate: &G,
    left: &mut Left,
) -> Status
    requires source { MayBeCalled (S.tells source.old).failures }
    requires sink { MayBeCalled (K.tells sink.old).failures }

    // Each status has its cause, with all that was read and written, and what is left.
    ensures outcome { Outcome (command_of (map string_bytes words.now))
        (ends (S.tells source.old) (K.tells sink.old)) (ends (S.tells source.new) (K.tells sink.new)) left.new result }

    // A call of the source or the sink that failed is the last one of it.
    ensures last { IsLast (ends (S.tells source.new) (K.tells sink.new)) result }

    // A command that reads gives the one answer to its input, and lanes one of theirs; a drawing and words of no shape have theirs.
    ensures determined { Determined (command_of (map string_bytes words.now))
        (ends (S.tells source.old) (K.tells sink.old)) (ends (S.tells source.new) (K.tells sink.new)) left.new result }
    ensures unread { Unread (command_of (map string_bytes words.now))
        (ends (S.tells source.old) (K.tells sink.old)) (ends (S.tells source.new) (K.tells sink.new)) left.new result }

    // Given memory and no fault, `run` on a set writes the report of its schedule, and leaves its bank;
    ensures headline { Headline (command_of (map string_bytes words.now))
        (ends (S.tells source.old) (K.tells sink.old)) (ends (S.tells source.new) (K.tells sink.new)) left.new result }

    // `admit` on a set writes what the test of its policy says, and its status is that verdict;
    ensures admission { Admission (command_of (map string_bytes words.now))
        (ends (S.tells source.old) (K.tells sink.old)) (ends (S.tells source.new) (K.tells sink.new)) left.new result }

    // `lanes` on a set writes one legal history of its operations, whatever the threads did, and leaves the table that has it;
    ensures sharing { Sharing (command_of (map string_bytes words.now))
        (ends (S.tells source.old) (K.tells sink.old)) (ends (S.tells source.new) (K.tells sink.new)) left.new result }

    // and `gen` writes the report of the set of its number, and leaves the bank of its run.
    ensures drawing { Drawing (command_of (map string_bytes words.now))
        (ends (S.tells source.old) (K.tells sink.old)) (ends (S.tells source.new) (K.tells sink.new)) left.new result }
{
    least_times_serve();
    verdicts_are_exact();
    drawn_sets_are_valid();
    entries_follow_the_bodies();
    retries_are_bounded();
    served_sets_miss_nothing();
    fitting_spans_miss_nothing();
    lines_tell_their_calls();
    *left = Left::Nothing;
    match answer_words(rt, alloc, command_of(words), source, sink, gate, left) {
        Ok(status) => status,
        Err(stop) => stop.status(),
    }
}
