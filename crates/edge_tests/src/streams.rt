ghost use Rattle.std.specs.Prelude.{◌<◌, ◌≤◌, ◌^◌, IfOk};

use mlir_base::{List, Name};
use mlir_streams::{
    CleanShelf, CleanSink, Failed, FetchError, HostShelf, HostSink, MemShelf, MemSink, OpenError,
    Shelf, Sink, WriteError, read_whole, write_whole,
};
use std::alloc::{AllocError, Global};
use std::io::{ErrorKind, Read, Write};
use std::test::Fail;
use std::{fs, io};

fn bytes_of(alloc: Global, text: &str) -> Result<List<u8>, AllocError> {
    let mut bytes = Vec::new(alloc);
    bytes.extend_from_slice(text.as_bytes())?;
    Ok(List::from_vec(bytes))
}

fn numbers(alloc: Global, number: u32) -> Result<List<u32>, AllocError> {
    let mut all = Vec::new(alloc);
    all.push(number)?;
    Ok(List::from_vec(all))
}

// A file of this name.
fn file(alloc: Global, name: &str, text: &str) -> Result<(Name, List<u8>), AllocError> {
    match Name::new(alloc, name) {
        Ok(name) => Ok((name, bytes_of(alloc, text)?)),
        Err(_) => Err(AllocError),
    }
}

// Standard input holds `abcdef`.
fn files(alloc: Global) -> Result<List<(Name, List<u8>)>, AllocError> {
    let mut all = Vec::new(alloc);
    all.push(file(alloc, "other", "xyz")?)?;
    all.push(file(alloc, "", "abcdef")?)?;
    Ok(List::from_vec(all))
}

// Standard input as a shelf gives it, of at most so many bytes.
fn standard_input<S: Shelf>(
    alloc: Global,
    shelf: &mut S,
    limit: usize,
) -> Result<Vec<u8>, FetchError>
    requires { limit < 2 ^ 32 }
{
    match shelf.open_file("") {
        Ok(()) => read_whole(alloc, shelf, limit),
        Err(OpenError::Absent) => Err(FetchError::Limit),
        Err(OpenError::Failed) => Err(FetchError::Failed),
        Err(OpenError::Memory) => Err(FetchError::Memory),
    }
}

// How reading standard input ends.
fn end_of(read: &Result<Vec<u8>, FetchError>) -> &str {
    match read {
        Ok(text) if text.as_slice() == b"abcdef".as_slice() => "whole",
        Ok(_) => "part",
        Err(FetchError::Limit) => "limit",
        Err(FetchError::Failed) => "failed",
        Err(FetchError::Memory) => "memory",
    }
}

#[test]
fn fakes_fail_where_they_are_told_to(rt: HostRuntime) -> Result<(), Fail> {
    let alloc = rt.alloc();
    // The failing call of opening and of the reads, which give 4, 2 and 0 bytes, and the limit.
    for (failing, limit, end) in [
        (0u32, 6usize, "whole"),
        (0, 5, "limit"),
        (1, 6, "failed"),
        (2, 6, "failed"),
        (4, 6, "failed"),
        (5, 6, "whole"),
    ] {
        let mut shelf = MemShelf::new(files(alloc)?, 4, numbers(alloc, failing)?);
        let read = standard_input(alloc, &mut shelf, limit);
        assert!(rt; end_of(&read) == end, "at {failing}");
    }
    // The bytes that a write takes at most, its failing call, and what is held afterwards.
    for (most, failing, held) in [
        (1u32, 0u32, "abcdef"),
        (0, 0, ""),
        (4, 1, ""),
        (4, 2, "abcd"),
        (4, 3, "abcdef"),
    ] {
        let mut sink = MemSink::new(alloc, most, numbers(alloc, failing)?);
        let is_whole = write_whole(&mut sink, b"abcdef").is_ok();
        assert!(rt; sink.bytes() == held.as_bytes(), "at {most} {failing}");
        assert!(rt; is_whole == (held == "abcdef"), "at {most} {failing}");
    }
    let mut shelf = CleanShelf::new(files(alloc)?);
    assert!(rt; shelf.open_file("absent") == Err(OpenError::Absent));
    let read = standard_input(alloc, &mut shelf, 6);
    assert!(rt; end_of(&read) == "whole");
    let mut sink = CleanSink::new(alloc);
    assert!(rt; sink.write(b"ab") == Ok(2) && sink.bytes() == b"ab".as_slice());
    Ok(())
}

// A device that is interrupted some times, then moves one piece, and then fails.
#[derive(Drop)]
struct Unsteady {
    interrupted: u32,
    piece: Option<usize>,
}

impl Unsteady {
    fn next(&mut self, room: usize) -> io::Result<usize>
        ensures { IfOk result (λ count. count ≤ room) }
    {
        if let Some(left) = self.interrupted.checked_sub(1) {
            self.interrupted = left;
            return Err(io::Error::from(ErrorKind::Interrupted));
        }
        match self.piece.take() {
            Some(count) => Ok(count.min(room)),
            None => Err(io::Error::from(ErrorKind::Other)),
        }
    }
}

impl Read for Unsteady {
    fn read(&mut self, buf: &mut [u8]) -> io::Result<usize> {
        let count = self.next(buf.len())?;
        buf[..count].fill(b'a');
        Ok(count)
    }
}

impl Write for Unsteady {
    fn write(&mut self, buf: &[u8]) -> io::Result<usize> {
        self.next(buf.len())
    }

    fn flush(&mut self) -> io::Result<()> {
        Ok(())
    }
}

#[test]
fn an_interrupted_call_is_tried_again(rt: HostRuntime) -> Result<(), Fail> {
    for (interrupted, piece, read, written) in [
        (2u32, Some(3usize), Ok(3usize), Ok(3usize)),
        (2, Some(0), Ok(0), Ok(0)),
        (2, None, Err(Failed), Err(WriteError::Failed)),
        (5_000, Some(3), Err(Failed), Err(WriteError::Failed)),
    ] {
        let mut buf = [b'-'; 4];
        let mut shelf = HostShelf::new(&rt, Unsteady { interrupted, piece });
        assert!(rt; shelf.open_file("") == Ok(()));
        assert!(rt; shelf.read(&mut buf) == read, "at {interrupted} {piece:?}");
        let moved = read.unwrap_or(0);
        assert!(rt; buf[..moved].iter().all(|byte| *byte == b'a'));
        assert!(rt; buf[moved..].iter().all(|byte| *byte == b'-'));
        let mut sink = HostSink::new(Unsteady { interrupted, piece });
        assert!(rt;
            sink.write(b"abcd") == written,
            "at {interrupted} {piece:?}"
        );
    }
    Ok(())
}

#[test]
fn real_files_are_written_and_read(rt: HostRuntime) -> Result<(), Fail> {
    let name = "edge_tests.txt";
    {
        let mut sink = HostSink::new(fs::create(&rt, name)?);
        assert!(rt; write_whole(&mut sink, b"real") == Ok(()));
    }
    let mut shelf = HostShelf::new(&rt, rt.stdin());
    assert!(rt; shelf.open_file(name) == Ok(()));
    let read = read_whole(rt.alloc(), &mut shelf, 4);
    fs::remove_file(&rt, name)?;
    assert!(rt; matches!(&read, Ok(text) if text.as_slice() == b"real".as_slice()));
    assert!(rt; shelf.open_file(name) == Err(OpenError::Absent));
    // A directory opens, and its reads fail.
    let mut buf = [0u8; 4];
    assert!(rt; shelf.open_file(".") == Ok(()));
    assert!(rt; shelf.read(&mut buf) == Err(Failed));
    Ok(())
}
