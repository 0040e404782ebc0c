//! The program: it hands the words after its name, standard input and standard output to `top`, and ends with the code
//! of its status.
//!
//! Where there is no memory for the words or for what it gathers of its output, it ends with code 8, and where the
//! system refuses the words for another cause, as one that is no UTF-8, with code 11. In both cases it reads and
//! writes nothing. Where the last of the output cannot be handed to the system it ends with code 7.
#![tactic(auto)]

ghost use Rattle.std.specs.Prelude.{◌≡◌, ◌≢◌, [], IfErr, IfOk};
ghost use Rattle.std.specs.Io.KnownBytes.{Keeps};
ghost use Rattle.std.specs.IoError.{error_kind};
ghost use Rattle.std.specs.Process.{exit_status};
ghost use Rattle.rx_io.specs.declared.status.Status.TheVariants.{WriteFault};
ghost use Rattle.rx_io.specs.Pages.{page_contents};
ghost use Rattle.rx_io.specs.States.{MayBeCalled, failures_of};
ghost use Rattle.rx_io.specs.Statuses.{code_of};

use rx_io::{InSource, PageSink, Status};
use rx_lanes::NoGate;
use rx_top::{Left, top};
use std::alloc::Global;
use std::io::{ErrorKind, Write};
use std::process::ExitCode;
use std::rt::Env;
use std::thread::Threads;
use std::{env, io};

// The code where the system refuses the words for another cause than memory.
const REFUSED: u8 = 11;

/// The words after the program's name.
fn words(rt: &impl Env, alloc: Global) -> io::Result<Vec<String>> {
    let mut words = Vec::new(alloc);
    for word in env::args(&(rt, alloc))?.skip(1) {
        words.push(word)?;
    }
    Ok(words)
}

/// Hands what is gathered to the system, and answers the status that it is given, or that this could not be done. Where
/// that says that a write failed, nothing more is handed on.
fn finish<W: Write>(status: Status, sink: &mut PageSink<W>) -> Status
    requires { status ≢ WriteFault → MayBeCalled (failures_of sink.old.down) }
    ensures done { result ≢ WriteFault → (result ≡ status) × (sink.new.gathered ≡ []) }
    ensures kept { status ≡ WriteFault → sink.new ≡ sink.old }
    ensures bytes { Keeps (page_contents W.contents sink.old) (page_contents W.contents sink.new) }
{
    if status != Status::WriteFault && sink.flush().is_ok() {
        return status;
    }
    Status::WriteFault
}

/// Answers the words over standard input and standard output.
fn answer(rt: &(impl Input + Print + Threads + Sync), alloc: Global, words: &[String]) -> Status {
    let mut sink = match PageSink::new(alloc, io::writer(rt)) {
        Ok(sink) => sink,
        Err(_) => return Status::NoMemory,
    };
    let mut source = InSource::new(rt.reader());
    let mut left = Left::Nothing;
    let status = top(rt, alloc, words, &mut source, &mut sink, &NoGate, &mut left);
    // What could not be handed on is let go.
    finish(status, &mut sink)
}

/// The code that the program ends with: that of its status, 8 where there was no memory for its words, and 11 where the
/// system refused them.
fn exit_code(ended: io::Result<Status>) -> ExitCode
    ensures status { IfOk ended (λ status. exit_status result ≡ code_of status) }
    ensures memory { IfErr ended (λ error. error_kind error ≡ ErrorKind.OutOfMemory → exit_status result ≡ 8) }
    ensures refused { IfErr ended (λ error. error_kind error ≢ ErrorKind.OutOfMemory → exit_status result ≡ 11) }
{
    let code = match ended {
        Ok(status) => status.code(),
        Err(error) if error.kind() == ErrorKind::OutOfMemory => Status::NoMemory.code(),
        Err(_) => REFUSED,
    };
    ExitCode::from(code)
}

/// Reads the words and answers them.
fn run(rt: &(impl Env + Input + Print + Threads + Sync), alloc: Global) -> io::Result<Status> {
    let words = words(rt, alloc)?;
    Ok(answer(rt, alloc, words.as_slice()))
}

fn main(rt: HostRuntime) -> ExitCode {
    exit_code(run(&rt, rt.alloc()))
}
