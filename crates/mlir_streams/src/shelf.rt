ghost use Rattle.std.specs.Prelude.{◌≡◌, ◌≤◌, ℕ, List, Option, OnErr};
ghost use Rattle.std.specs.Io.{ReadsAtMost};
ghost use Rattle.std.specs.Io.KnownBytes.{Keeps, ReadConsumes};
ghost use Rattle.mlir_streams.specs.Causes.{Counted};
ghost use Rattle.mlir_streams.specs.Shelves.{OpenLeaves, OpenCause, AbsenceCause, ReadCause};

/// Why a file isn't opened.
#[derive(Clone, Copy, PartialEq, Eq, Drop)]
pub enum OpenError {
    /// No file has the name.
    Absent,
    /// The device failed.
    Failed,
    /// There is no memory.
    Memory,
}

/// A read failed.
#[derive(Clone, Copy, PartialEq, Eq, Drop)]
pub struct Failed;

/// Files by name, of which one at a time is open. The empty name is standard input. Before the
/// first `Ok` of `open_file` nothing is left unread.
pub trait Shelf {
    /// The contents by name, where the shelf tells them.
    ghost files: { Self → Option (List ℕ → Option (List ℕ)) };

    /// What is left unread of the opened file, where the shelf tells it.
    ghost left: { Self → Option (List ℕ) };

    /// How often a call has failed.
    ghost faults: { Self → ℕ };

    /// How often a file was absent.
    ghost absences: { Self → ℕ };

    /// How often a file was to be opened.
    ghost opens: { Self → ℕ };

    /// Opens the file of this name and leaves the whole of it unread. A refusal leaves the opened
    /// file as it was.
    fn open_file(&mut self, name: &str) -> Result<(), OpenError>
        ensures contents { OpenLeaves (files self.old) name.now (left self.new) result }
        ensures refused { OnErr result (Keeps (left self.old) (left self.new)) }
        ensures same_files { files self.new ≡ files self.old }
        ensures cause { OpenCause (faults self.old) (faults self.new) result }
        ensures later { faults self.old ≤ faults self.new }
        ensures absence { AbsenceCause (files self.old)
            (absences self.old) (absences self.new) result }
        ensures absences_later { absences self.old ≤ absences self.new }
        ensures opening { Counted (opens self.old) (opens self.new) };

    /// Moves the next unread bytes to the front of the buffer, and answers how many. Into a buffer
    /// that isn't empty it moves none exactly where nothing is left unread.
    fn read(&mut self, buf: &mut [u8]) -> Result<usize, Failed>
        ensures bound { ReadsAtMost result buf.new }
        ensures bytes { ReadConsumes (left self.old) (left self.new) result buf.new }
        ensures refused { OnErr result (buf.new ≡ buf.old) }
        ensures same_files { files self.new ≡ files self.old }
        ensures cause { ReadCause (faults self.old) (faults self.new) result }
        ensures later { faults self.old ≤ faults self.new }
        ensures absences_later { absences self.old ≤ absences self.new }
        ensures same_opens { opens self.new ≡ opens self.old };
}
