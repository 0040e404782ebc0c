ghost use Rattle.std.specs.Prelude.{◌≤◌, length};
ghost use Rattle.rx_io.specs.States.{MayBeCalled, failures_of};

use super::*;
use std::alloc::Global;
use std::io;
use std::io::{ErrorKind, Read, Write};
use std::test::Fail;

// Takes nothing.
#[derive(Drop)]
struct Stuck;

impl Write for Stuck {
    fn write(&mut self, _buf: &[u8]) -> io::Result<usize> {
        Ok(0)
    }

    fn flush(&mut self) -> io::Result<()> {
        Ok(())
    }
}

// Takes at most `step` bytes a call. It fails in one of its calls, and a signal interrupts another.
#[derive(Drop)]
struct Steps {
    taken: Vec<u8>,
    step: usize,
    calls: u64,
    fails: u64,
    interrupted: u64,
}

impl Write for Steps {
    fn write(&mut self, buf: &[u8]) -> io::Result<usize> {
        self.calls = self.calls.saturating_add(1);
        if self.calls == self.fails {
            return Err(io::Error::from(ErrorKind::Other));
        }
        if self.calls == self.interrupted {
            return Err(io::Error::from(ErrorKind::Interrupted));
        }
        let count = self.step.min(buf.len());
        self.taken.extend_from_slice(&buf[..count])?;
        Ok(count)
    }

    fn flush(&mut self) -> io::Result<()> {
        Ok(())
    }
}

// Gives nothing but an error.
#[derive(Drop)]
struct Broken;

impl Read for Broken {
    fn read(&mut self, _buf: &mut [u8]) -> io::Result<usize> {
        Err(io::Error::from(ErrorKind::Other))
    }
}

#[test]
fn reads_all_by_steps_up_to_the_most(rt: HostRuntime) -> Result<(), Fail> {
    let alloc = rt.alloc();
    // The step, the call that fails (0 for none), the most, and what is read.
    for (step, fails, most, want) in [
        (1024, 0, 100, Ok("abcdefg")),
        (3, 0, 7, Ok("abcdefg")),
        (3, 0, 6, Ok("abcdefg")),
        (1, 0, 3, Ok("abcd")),
        (3, 1, 100, Err(ReadError::Fault)),
        (3, 4, 100, Err(ReadError::Fault)),
        (3, 5, 100, Ok("abcdefg")),
        (3, 3, 5, Ok("abcdef")),
    ] {
        assert!(rt; step > 0);
        let bytes = b"abcdefg".as_slice().to_vec(alloc)?;
        let mut source = MemorySource::new(bytes, step, [fails].to_vec(alloc)?);
        match read_all(alloc, &mut source, most) {
            Ok(input) => {
                assert_eq!(rt;
                    Ok(input.as_slice()),
                    want.map(str::as_bytes),
                    "fails {fails}"
                )
            }
            Err(error) => assert_eq!(rt; Err(error), want.map(str::as_bytes), "fails {fails}"),
        }
    }
    Ok(())
}

#[test]
fn puts_by_steps_up_to_the_room(rt: HostRuntime) -> Result<(), Fail> {
    let alloc = rt.alloc();
    // The room, the step, the call that fails (0 for none), the answer, and what was taken.
    for (room, step, fails, want, taken) in [
        (100, 1024, 0, Ok(()), "abcdefg"),
        (7, 3, 0, Ok(()), "abcdefg"),
        (6, 3, 0, Err(Failed), "abcdef"),
        (0, 1, 0, Err(Failed), ""),
        (100, 3, 1, Err(Failed), ""),
        (100, 3, 3, Err(Failed), "abcdef"),
        (100, 3, 4, Ok(()), "abcdefg"),
    ] {
        assert!(rt; step > 0);
        let made = MemorySink::new(alloc, room, step, [fails].to_vec(alloc)?);
        let mut sink = made.map_err(|_| "no memory")?;
        assert_eq!(rt;
            put(&mut sink, b"abcdefg"),
            want,
            "room {room}, fails {fails}"
        );
        assert_eq!(rt;
            sink.taken(),
            taken.as_bytes(),
            "room {room}, fails {fails}"
        );
    }
    Ok(())
}

#[test]
fn adapts_readers_and_writers(rt: HostRuntime) -> Result<(), Fail> {
    let alloc = rt.alloc();
    let mut source = InSource::new(b"abc".as_slice());
    let input = read_all(alloc, &mut source, 100).map_err(|_| "not read")?;
    assert_eq!(rt; input.as_slice(), b"abc".as_slice());
    assert!(rt; source.into_inner().is_empty());
    let mut broken = InSource::new(Broken);
    assert!(rt; matches!(&read_all(alloc, &mut broken, 100), Err(ReadError::Fault)));

    let mut sink = OutSink::new(Vec::new(alloc));
    assert_eq!(rt; put(&mut sink, b"abc"), Ok(()));
    assert_eq!(rt; sink.into_inner().as_slice(), b"abc".as_slice());
    assert_eq!(rt; OutSink::new(Stuck).write(b""), Ok(0));
    assert_eq!(rt; OutSink::new(Stuck).write(b"a"), Err(Failed));
    Ok(())
}

// Hands in three pieces, and then what is gathered.
fn put_three<W: Write>(sink: &mut PageSink<W>, pieces: [&[u8]; 3]) -> Result<(), Failed>
    requires { MayBeCalled (failures_of sink.old.down) }
{
    put(sink, pieces[0])?;
    put(sink, pieces[1])?;
    put(sink, pieces[2])?;
    sink.flush()
}

// Whether all of it could be done, and the writer.
fn hand_in<W: Write + Drop>(
    alloc: Global,
    inner: W,
    pieces: [&[u8]; 3],
) -> Result<(bool, W), Fail> {
    let mut sink = PageSink::new(alloc, inner).map_err(|_| "no memory")?;
    let done = put_three(&mut sink, pieces).is_ok();
    Ok((done, sink.into_inner()))
}

// The bytes in three pieces, cut at these places.
fn three_pieces(bytes: &[u8], mid: usize, end: usize) -> [&[u8]; 3]
    requires { (mid ≤ end) × (end ≤ length bytes.now) }
{
    [&bytes[..mid], &bytes[mid..end], &bytes[end..]]
}

// So many bytes, of which no two that are near each other are the same.
fn some_bytes(alloc: Global, count: usize) -> Result<Vec<u8>, Fail> {
    let mut bytes = Vec::new(alloc);
    for at in 0..count {
        bytes.push((at % 251) as u8)?;
    }
    Ok(bytes)
}

#[test]
fn gathers_pieces_around_the_end_of_a_page(rt: HostRuntime) -> Result<(), Fail> {
    let alloc = rt.alloc();
    let bytes = some_bytes(alloc, 140_000)?;
    let all = bytes.as_slice();
    assert!(rt; all.len() == 140_000);
    for step in [1, 70_000] {
        // How long the first piece and the second are; the third has five bytes.
        for (first, second) in [
            (0, 65_536),
            (1, 65_534),
            (1, 65_535),
            (1, 65_536),
            (65_535, 1),
            (65_536, 1),
            (65_536, 65_536),
            (65_537, 3),
        ] {
            assert!(rt; first <= 65_537 && second <= 65_536);
            let (mid, end) = (first + second, first + second + 5);
            let writer = Steps {
                taken: Vec::new(alloc),
                step,
                calls: 0,
                fails: 0,
                interrupted: 0,
            };
            let pieces = [&all[..first], &all[first..mid], &all[mid..end]];
            let (done, writer) = hand_in(alloc, writer, pieces)?;
            assert!(rt; done, "{first} and {second} by {step}");
            assert!(rt;
                writer.taken.as_slice() == &all[..end],
                "{first} and {second} by {step}"
            );
        }
    }
    Ok(())
}

#[test]
fn leaves_a_prefix_where_the_writer_fails(rt: HostRuntime) -> Result<(), Fail> {
    let alloc = rt.alloc();
    let bytes = some_bytes(alloc, 200_000)?;
    let all = bytes.as_slice();
    assert!(rt; all.len() == 200_000);
    let pieces = three_pieces(all, 60_000, 120_000);
    // The call that fails, and how many bytes were taken before it. The second call is interrupted; the sixth is for the
    // last piece, of which the page then takes the rest.
    for (fails, taken) in [
        (1, 0),
        (3, 30_000),
        (4, 60_000),
        (5, 90_000),
        (6, 120_000),
        (7, 150_000),
        (8, 180_000),
        (9, 200_000),
    ] {
        assert!(rt; taken <= 200_000);
        let writer = Steps {
            taken: Vec::new(alloc),
            step: 30_000,
            calls: 0,
            fails,
            interrupted: 2,
        };
        let (done, writer) = hand_in(alloc, writer, pieces)?;
        assert_eq!(rt; done, fails == 9, "fails {fails}");
        assert!(rt; writer.taken.as_slice() == &all[..taken], "fails {fails}");
    }

    // A writer that takes nothing fails the last handing over.
    let (done, _writer) = hand_in(alloc, Stuck, [b"a".as_slice(), b"", b""])?;
    assert!(rt; !done);
    Ok(())
}
