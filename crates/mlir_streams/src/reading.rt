ghost use Rattle.std.specs.Prelude.{◌≡◌, ◌+◌, ◌<◌, ◌≤◌, ◌^◌, length, IfOk, OnOk, IsErrOf};
ghost use Rattle.std.specs.Io.KnownBytes.{IsAtEnd};
ghost use Rattle.mlir_streams.specs.Loops.{ReadsWhole, AddsConsumed, ConsumesAtMost, FetchCause};

use crate::Shelf;
use std::alloc::Global;

/// Why a file isn't read whole.
#[derive(Clone, Copy, PartialEq, Eq, Drop)]
pub enum FetchError {
    /// A read failed.
    Failed,
    /// The file has more bytes than the limit.
    Limit,
    /// There is no memory.
    Memory,
}

/// How many bytes one read asks for at most.
const PIECE: usize = 16_384;

/// Reads the rest of the opened file, which may have `limit` bytes. Each read asks for at least one
/// byte, and for no more than is left of `limit + 1`.
pub fn read_whole<S: Shelf>(
    alloc: Global,
    shelf: &mut S,
    limit: usize,
) -> Result<Vec<u8>, FetchError>
    requires { limit < 2 ^ 32 }
    ensures whole { ReadsWhole limit (S.left shelf.old) result }
    ensures within { IfOk result (λ text. length text.items ≤ limit) }
    ensures end { OnOk result (IsAtEnd (S.left shelf.new)) }
    ensures taken { ConsumesAtMost (limit + 1) (S.left shelf.old) (S.left shelf.new) }
    ensures same_files { S.files shelf.new ≡ S.files shelf.old }
    ensures cause { FetchCause (S.faults shelf.old) (S.faults shelf.new) result }
    ensures later { S.faults shelf.old ≤ S.faults shelf.new }
    ensures absences_later { S.absences shelf.old ≤ S.absences shelf.new }
    ensures same_opens { S.opens shelf.new ≡ S.opens shelf.old }
{
    let mut text = Vec::new(alloc);
    while text.len() <= limit {
        let room = limit + 1 - text.len();
        if read_more(shelf, &mut text, room)? == 0 {
            return Ok(text);
        }
    }
    Err(FetchError::Limit)
}

// Adds the next bytes to a text, `room` of them at most, and answers how many.
fn read_more<S: Shelf>(shelf: &mut S, text: &mut Vec<u8>, room: usize) -> Result<usize, FetchError>
    requires { 0 < room }
    ensures bound { IfOk result (λ taken. taken ≤ room) }
    ensures bytes { IfOk result (λ taken. AddsConsumed taken text.old.items text.new.items
        (S.left shelf.old) (S.left shelf.new)) }
    ensures end { IfOk result (λ taken. taken ≡ 0 → IsAtEnd (S.left shelf.new)) }
    ensures taken { ConsumesAtMost room (S.left shelf.old) (S.left shelf.new) }
    ensures no_limit { IsErrOf result FetchError.Limit → ⊥ }
    ensures same_files { S.files shelf.new ≡ S.files shelf.old }
    ensures cause { FetchCause (S.faults shelf.old) (S.faults shelf.new) result }
    ensures later { S.faults shelf.old ≤ S.faults shelf.new }
    ensures absences_later { S.absences shelf.old ≤ S.absences shelf.new }
    ensures same_opens { S.opens shelf.new ≡ S.opens shelf.old }
{
    let mut piece = [0u8; PIECE];
    let asked = room.min(PIECE);
    let Ok(taken) = shelf.read(&mut piece[..asked]) else {
        return Err(FetchError::Failed);
    };
    if text.extend_from_slice(&piece[..taken]).is_err() {
        return Err(FetchError::Memory);
    }
    Ok(taken)
}
