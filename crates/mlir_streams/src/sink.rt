ghost use Rattle.std.specs.Prelude.{◌≡◌, ◌≤◌, ℕ, List, Option};
ghost use Rattle.std.specs.Io.{WritesAtMost};
ghost use Rattle.std.specs.Io.KnownBytes.{WriteAppends};
ghost use Rattle.mlir_streams.specs.Sinks.{WriteCause};

/// Why no byte was taken.
#[derive(Clone, Copy, PartialEq, Eq, Drop)]
pub enum WriteError {
    /// The device failed.
    Failed,
    /// There is no memory.
    Memory,
}

/// Where bytes go.
pub trait Sink {
    /// The bytes written, where the sink tells them.
    ghost written: { Self → Option (List ℕ) };

    /// How often a write has failed, or taken no byte of a piece that isn't empty.
    ghost faults: { Self → ℕ };

    /// Takes the first bytes of a piece, and answers how many.
    fn write(&mut self, bytes: &[u8]) -> Result<usize, WriteError>
        ensures bound { WritesAtMost result bytes.now }
        ensures bytes { WriteAppends (written self.old) (written self.new) result bytes.now }
        ensures cause { WriteCause (faults self.old) (faults self.new) bytes.now result }
        ensures later { faults self.old ≤ faults self.new };
}
