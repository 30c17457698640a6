// Sinks in memory, which tell everything.
ghost use Rattle.std.specs.Prelude.{◌≡◌, Some, []};

use crate::count::{is_failing, raised};
use crate::{Sink, WriteError};
use mlir_base::List;
use std::alloc::Global;

/// Bytes in memory, from writes that may take a part or fail.
#[derive(Drop)]
pub struct MemSink {
    bytes: Vec<u8>,
    most: u32,
    failing: List<u32>,
    calls: u64,
    faults: u64,
}

impl MemSink {
    /// A sink that holds nothing. A write takes `most` bytes at most, and the calls whose numbers,
    /// from 1, are in `failing` fail.
    pub fn new(alloc: Global, most: u32, failing: List<u32>) -> MemSink
        ensures written { ⟦<MemSink as Sink>⟧.written result ≡ Some [] }
        ensures faults { ⟦<MemSink as Sink>⟧.faults result ≡ 0 }
    {
        MemSink {
            bytes: Vec::new(alloc),
            most,
            failing,
            calls: 0,
            faults: 0,
        }
    }

    /// The bytes written.
    pub fn bytes(&self) -> &[u8]
        ensures { ⟦<MemSink as Sink>⟧.written self.now ≡ Some result.now }
    {
        self.bytes.as_slice()
    }
}

impl Sink for MemSink {
    ghost written = { λ s. Some s.bytes.items };

    ghost faults = { λ s. s.faults };

    fn write(&mut self, bytes: &[u8]) -> Result<usize, WriteError> {
        self.calls = raised(self.calls);
        if is_failing(self.failing.as_slice(), self.calls) {
            self.faults = raised(self.faults);
            return Err(WriteError::Failed);
        }
        let count = bytes.len().min(self.most as usize);
        if count == 0 && !bytes.is_empty() {
            self.faults = raised(self.faults);
            return Ok(0);
        }
        if self.bytes.extend_from_slice(&bytes[..count]).is_err() {
            return Err(WriteError::Memory);
        }
        Ok(count)
    }
}

/// Bytes in memory, whose writes never fail.
#[derive(Drop)]
pub struct CleanSink {
    bytes: Vec<u8>,
}

impl CleanSink {
    /// A sink that holds nothing.
    pub fn new(alloc: Global) -> CleanSink
        ensures { ⟦<CleanSink as Sink>⟧.written result ≡ Some [] }
    {
        CleanSink {
            bytes: Vec::new(alloc),
        }
    }

    /// The bytes written.
    pub fn bytes(&self) -> &[u8]
        ensures { ⟦<CleanSink as Sink>⟧.written self.now ≡ Some result.now }
    {
        self.bytes.as_slice()
    }
}

impl Sink for CleanSink {
    ghost written = { λ s. Some s.bytes.items };

    ghost faults = { λ s. 0 };

    fn write(&mut self, bytes: &[u8]) -> Result<usize, WriteError> {
        if self.bytes.extend_from_slice(bytes).is_err() {
            return Err(WriteError::Memory);
        }
        Ok(bytes.len())
    }
}
