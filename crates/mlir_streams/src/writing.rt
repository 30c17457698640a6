ghost use Rattle.std.specs.Prelude.{◌≤◌};
ghost use Rattle.mlir_streams.specs.Loops.{AppendsOrPart, WholeCause};

use crate::{Sink, WriteError};

/// Writes all bytes of a piece, in as many writes as the sink wants. Each takes a byte at least, or
/// ends the loop.
pub fn write_whole<K: Sink>(sink: &mut K, bytes: &[u8]) -> Result<(), WriteError>
    ensures bytes { AppendsOrPart (K.written sink.old) (K.written sink.new) bytes.now result }
    ensures cause { WholeCause (K.faults sink.old) (K.faults sink.new) result }
    ensures later { K.faults sink.old ≤ K.faults sink.new }
{
    let mut rest = bytes;
    while !rest.is_empty() {
        let taken = match sink.write(rest) {
            Ok(taken) => taken,
            Err(refused) => return Err(refused),
        };
        if taken == 0 {
            return Err(WriteError::Failed);
        }
        rest = &rest[taken..];
    }
    Ok(())
}
