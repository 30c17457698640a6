// The real files and standard streams. They tell nothing of content, and count their faults.
ghost use Rattle.std.specs.Prelude.{◌≡◌, None, OnErr};
ghost use Rattle.std.specs.Io.{ReadsAtMost, WritesAtMost};

use crate::count::raised;
use crate::{Failed, OpenError, Shelf, Sink, WriteError};
use std::fs;
use std::io::{ErrorKind, Read, Write};
use std::rt::Files;

/// How often a read or a write that was interrupted is tried.
const TRIES: u32 = 1_000;

/// How many bytes one read of the system asks for at most.
const PIECE: usize = 16_384;

// Reads into a piece, again where the read was interrupted.
fn read_piece<R: Read>(reader: &mut R, piece: &mut [u8]) -> Result<usize, Failed>
    ensures { ReadsAtMost result piece.new }
{
    for _ in 0..TRIES {
        match reader.read(piece) {
            Ok(count) => return Ok(count),
            Err(e) if e.kind() == ErrorKind::Interrupted => {}
            Err(_) => return Err(Failed),
        }
    }
    Err(Failed)
}

// Reads into a buffer, which stays as it was where the read failed.
fn read_once<R: Read>(reader: &mut R, buf: &mut [u8]) -> Result<usize, Failed>
    ensures bound { ReadsAtMost result buf.new }
    ensures refused { OnErr result (buf.new ≡ buf.old) }
{
    let mut piece = [0u8; PIECE];
    let asked = buf.len().min(PIECE);
    match read_piece(reader, &mut piece[..asked]) {
        Ok(count) => {
            buf[..count].copy_from_slice(&piece[..count]);
            Ok(count)
        }
        Err(Failed) => Err(Failed),
    }
}

// Writes once, again where the write was interrupted.
fn write_once<W: Write>(writer: &mut W, bytes: &[u8]) -> Result<usize, Failed>
    ensures bound { WritesAtMost result bytes.now }
{
    for _ in 0..TRIES {
        match writer.write(bytes) {
            Ok(count) => return Ok(count),
            Err(e) if e.kind() == ErrorKind::Interrupted => {}
            Err(_) => return Err(Failed),
        }
    }
    Err(Failed)
}

// What the calls of `read` read from.
#[derive(Drop)]
enum Opened<F> {
    Nothing,
    Input,
    Named(F),
}

/// Standard input, and the files of the system. `input` reads standard input, as `rt.stdin()`.
#[derive(Drop)]
pub struct HostShelf<'a, R: Files, I: Read + Drop> {
    rt: &'a R,
    input: I,
    opened: Opened<R::File>,
    faults: u64,
    absences: u64,
    opens: u64,
}

impl<'a, R: Files, I: Read + Drop> HostShelf<'a, R, I> {
    /// A shelf with nothing opened.
    pub fn new(rt: &'a R, input: I) -> HostShelf<'a, R, I> {
        HostShelf {
            rt,
            input,
            opened: Opened::Nothing,
            faults: 0,
            absences: 0,
            opens: 0,
        }
    }
}

impl<R: Files, I: Read + Drop> Shelf for HostShelf<'_, R, I> {
    ghost files = { λ s. None };

    ghost left = { λ s. None };

    ghost faults = { λ s. s.faults };

    ghost absences = { λ s. s.absences };

    ghost opens = { λ s. s.opens };

    fn open_file(&mut self, name: &str) -> Result<(), OpenError> {
        self.opens = raised(self.opens);
        if name.is_empty() {
            self.opened = Opened::Input;
            return Ok(());
        }
        match fs::open(self.rt, name) {
            Ok(file) => {
                self.opened = Opened::Named(file);
                Ok(())
            }
            Err(e) => match e.kind() {
                ErrorKind::NotFound => {
                    self.absences = raised(self.absences);
                    Err(OpenError::Absent)
                }
                ErrorKind::OutOfMemory => Err(OpenError::Memory),
                _ => {
                    self.faults = raised(self.faults);
                    Err(OpenError::Failed)
                }
            },
        }
    }

    fn read(&mut self, buf: &mut [u8]) -> Result<usize, Failed> {
        let read = match &mut self.opened {
            Opened::Nothing => Ok(0),
            Opened::Input => read_once(&mut self.input, buf),
            Opened::Named(file) => read_once(file, buf),
        };
        match read {
            Ok(count) => Ok(count),
            Err(Failed) => {
                self.faults = raised(self.faults);
                Err(Failed)
            }
        }
    }
}

/// A writer of the system, as standard output.
#[derive(Drop)]
pub struct HostSink<W> {
    writer: W,
    faults: u64,
}

impl<W: Write> HostSink<W> {
    /// A sink that hands each piece to the writer, and keeps nothing back.
    pub fn new(writer: W) -> HostSink<W> {
        HostSink { writer, faults: 0 }
    }
}

impl<W: Write> Sink for HostSink<W> {
    ghost written = { λ s. None };

    ghost faults = { λ s. s.faults };

    fn write(&mut self, bytes: &[u8]) -> Result<usize, WriteError> {
        match write_once(&mut self.writer, bytes) {
            Ok(0) if !bytes.is_empty() => {
                self.faults = raised(self.faults);
                Ok(0)
            }
            Ok(count) => Ok(count),
            Err(Failed) => {
                self.faults = raised(self.faults);
                Err(WriteError::Failed)
            }
        }
    }
}
