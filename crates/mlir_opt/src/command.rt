ghost use Rattle.std.specs.Prelude.{◌≡◌, ◌≢◌, ◌⊎◌, ◌<◌, ◌≤◌, length, map, string_bytes, option_map, true, false, IfOk, IsErrOf};
ghost use Rattle.mlir_streams.specs.Causes.{Counted};
ghost use Rattle.mlir_streams.specs.Shelves.{Files};
ghost use Rattle.mlir_opt.specs.Again.{ReadsAgain};
ghost use Rattle.mlir_opt.specs.Answer.{answer};
ghost use Rattle.mlir_opt.specs.Asked.{asked, is_command};
ghost use Rattle.mlir_opt.specs.Causes.{RunCause};
ghost use Rattle.mlir_opt.specs.Headline.{AnswersWhereTold, ExactLineWhereTold, PrefixWhereTold, AddsNoneOrSomeLine, AnswersForSome, IsTold};
ghost use Rattle.mlir_opt.specs.Steps.{IsInput, InputCause, InputAbsence, ReadsFrom, ReadsOnly, IsRun, OpensOnce, ReadFaultCause, WriteFaultCause};

use crate::processing::process;
use crate::refusal::{FileError, status};
use crate::request::{asked, name_of};
use crate::{Refusal, TextError};
use mlir_base::Which;
use mlir_streams::{FetchError, OpenError, Shelf, Sink, WriteError, read_whole, write_whole};
use mlir_words::WordsError;
use std::alloc::Global;

/// How many bytes a text may have.
const LIMIT: usize = 4_194_304;

// Reads the file of this name whole; the empty name is standard input.
fn read_input<S: Shelf>(alloc: Global, shelf: &mut S, name: &str) -> Result<Vec<u8>, FileError>
    ensures stated { IsInput (S.files shelf.old) name.now result }
    ensures within { IfOk result (λ text. length text.items ≤ 4194304) }
    ensures taken { ReadsFrom (S.files shelf.old) name.now (S.left shelf.old) (S.left shelf.new) }
    ensures same_files { S.files shelf.new ≡ S.files shelf.old }
    ensures cause { InputCause (S.faults shelf.old) (S.faults shelf.new) result }
    ensures later { S.faults shelf.old ≤ S.faults shelf.new }
    ensures absence { InputAbsence (S.files shelf.old)
        (S.absences shelf.old) (S.absences shelf.new) result }
    ensures absences_later { S.absences shelf.old ≤ S.absences shelf.new }
    ensures opening { Counted (S.opens shelf.old) (S.opens shelf.new) }
{
    match shelf.open_file(name) {
        Ok(()) => {}
        Err(OpenError::Absent) => return Err(FileError::Absent),
        Err(OpenError::Failed) => return Err(FileError::Failed),
        Err(OpenError::Memory) => return Err(FileError::Memory),
    }
    match read_whole(alloc, shelf, LIMIT) {
        Ok(text) => Ok(text),
        Err(FetchError::Failed) => Err(FileError::Failed),
        Err(FetchError::Limit) => Err(FileError::Limit),
        Err(FetchError::Memory) => Err(FileError::Memory),
    }
}

// Does all that the words ask for, and writes the output last.
fn run<S: Shelf, O: Sink>(
    alloc: Global,
    words: &[String],
    shelf: &mut S,
    out: &mut O,
) -> Result<(), Refusal>
    ensures stated { IsRun (S.files shelf.old) (map string_bytes words.now)
        (O.written out.old) (O.written out.new) result }
    ensures cause { RunCause result (map string_bytes words.now) (S.files shelf.old)
        (record {
          read_faults = (S.faults shelf.old, S.faults shelf.new);
          write_faults = (O.faults out.old, O.faults out.new);
          absent_files = (S.absences shelf.old, S.absences shelf.new);
        }) }
    ensures taken { ReadsOnly (asked (map string_bytes words.now)) (S.files shelf.old)
        (S.left shelf.old) (S.left shelf.new) }
    ensures opened { OpensOnce (asked (map string_bytes words.now)) (S.opens shelf.old) (S.opens shelf.new) }
    ensures words { is_command (map string_bytes words.now) ≡ false
        → IsErrOf result Refusal.Words ⊎ IsErrOf result Refusal.Memory }
    ensures command { is_command (map string_bytes words.now) ≡ true
        → IsErrOf result Refusal.Words → ⊥ }
    ensures read_cause { ReadFaultCause (S.faults shelf.old, S.faults shelf.new) result }
    ensures write_cause { WriteFaultCause (O.faults out.old, O.faults out.new) result }
    ensures same_files { S.files shelf.new ≡ S.files shelf.old }
    ensures absences_later { S.absences shelf.old ≤ S.absences shelf.new }
    ensures later { S.faults shelf.old ≤ S.faults shelf.new }
    ensures out_later { O.faults out.old ≤ O.faults out.new }
{
    let command = match asked(alloc, words) {
        Ok(command) => command,
        Err(WordsError::Words) => return Err(Refusal::Words),
        Err(WordsError::Memory) => return Err(Refusal::Memory),
    };
    let text = match read_input(alloc, shelf, name_of(command.source)) {
        Ok(text) => text,
        Err(FileError::Absent) => return Err(Refusal::FileAbsent),
        Err(FileError::Failed) => return Err(Refusal::ReadFailed),
        Err(FileError::Limit) => return Err(Refusal::Limit {
            which: Which::Bytes,
        }),
        Err(FileError::Memory) => return Err(Refusal::Memory),
    };
    let output = match process(alloc, &text, command.transform, command.output) {
        Ok(output) => output,
        Err(TextError::Limit { which }) => return Err(Refusal::Limit { which }),
        Err(
            TextError::Text {
                line,
                column,
                fault,
            },
        ) => {
            return Err(Refusal::Text {
                line,
                column,
                fault,
            });
        }
        Err(TextError::Verify { rule, op }) => return Err(Refusal::Verify { rule, op }),
        Err(TextError::NoScript) => return Err(Refusal::NoScript),
        Err(TextError::Step { step, why }) => return Err(Refusal::Step { step, why }),
        Err(TextError::Memory) => return Err(Refusal::Memory),
    };
    match write_whole(out, &output) {
        Ok(()) => Ok(()),
        Err(WriteError::Failed) => Err(Refusal::WriteFailed),
        Err(WriteError::Memory) => Err(Refusal::Memory),
    }
}

/// Writes the line of a refusal, and answers the status.
pub fn refuse<E: Sink>(alloc: Global, err: &mut E, refusal: Refusal) -> u8
    ensures told { IsTold refusal (E.written err.old) (E.written err.new)
        (E.faults err.old) (E.faults err.new) result }
    ensures later { E.faults err.old ≤ E.faults err.new }
{
    let Ok(line) = format!(in alloc; "{refusal}\n") else {
        let _ = write_whole(err, b"error: memory\n");
        return 4;
    };
    match write_whole(err, line.as_bytes()) {
        Ok(()) => status(refusal),
        Err(WriteError::Failed) => status(refusal),
        Err(WriteError::Memory) => 4,
    }
}

/// The command `mlir_opt`: does what its words ask for, with the program's name first, and answers
/// the exit status. It reads the file that they name from the shelf, writes its output to `out`, and
/// one line to `err` where it refuses. A request that isn't built yet is refused as words.
pub fn mlir_opt<S: Shelf, O: Sink, E: Sink>(
    alloc: Global,
    words: &[String],
    shelf: &mut S,
    out: &mut O,
    err: &mut E,
) -> u8
    // Where the shelf tells its files, and no call on it or on `out` failed, the status and the
    // bytes are the answer's, or memory was wanting.
    ensures answer { AnswersWhereTold (S.files shelf.old) (map string_bytes words.now)
        (record {
          read_faults = (S.faults shelf.old, S.faults shelf.new);
          write_faults = (O.faults out.old, O.faults out.new);
          absent_files = (S.absences shelf.old, S.absences shelf.new);
        })
        (O.written out.old) (O.written out.new) result }

    // Unless memory was wanting, the line is the answer's, or that of a fault.
    ensures exact_line { ExactLineWhereTold (S.files shelf.old) (map string_bytes words.now)
        (record {
          read_faults = (S.faults shelf.old, S.faults shelf.new);
          write_faults = (O.faults out.old, O.faults out.new);
          absent_files = (S.absences shelf.old, S.absences shelf.new);
        })
        (E.written err.old) (E.written err.new) (E.faults err.old) (E.faults err.new) result }

    // However the call ended, what was written is a prefix of the stated bytes.
    ensures prefix { PrefixWhereTold (S.files shelf.old) (map string_bytes words.now)
        (O.written out.old) (O.written out.new) }

    // In every call one line at most is added to `err`, a prefix of that of a refusal, which has
    // the status and its cause.
    ensures line { AddsNoneOrSomeLine (map string_bytes words.now) (S.files shelf.old)
        (record {
          read_faults = (S.faults shelf.old, S.faults shelf.new);
          write_faults = (O.faults out.old, O.faults out.new);
          absent_files = (S.absences shelf.old, S.absences shelf.new);
        })
        (E.written err.old) (E.written err.new) result }

    // A shelf that tells nothing is answered as some that tells its files.
    ensures some_files { AnswersForSome (S.files shelf.old) (map string_bytes words.now)
        (record {
          read_faults = (S.faults shelf.old, S.faults shelf.new);
          write_faults = (O.faults out.old, O.faults out.new);
          absent_files = (S.absences shelf.old, S.absences shelf.new);
        })
        (O.written out.old) (O.written out.new) result }

    // What is stated under status 0 is read again: it stands for a file whose module verifies, and
    // each function gives on all inputs of its types exactly the original's tensors or its trap.
    ensures again { (files : Files) → (answer (map string_bytes words.now) files).status ≡ 0
        → ReadsAgain (map string_bytes words.now) files }

    // The one file that is read is the one that the words ask for. Where the shelf tells its files,
    // at most 4,194,305 bytes of it are taken. It is opened once.
    ensures taken { ReadsOnly (asked (map string_bytes words.now)) (S.files shelf.old)
        (S.left shelf.old) (S.left shelf.new) }
    ensures opened { OpensOnce (asked (map string_bytes words.now)) (S.opens shelf.old) (S.opens shelf.new) }

    // A fault is never passed over.
    ensures fault { (S.faults shelf.old < S.faults shelf.new)
        ⊎ (O.faults out.old < O.faults out.new) → (result ≡ 3) ⊎ (result ≡ 4) }

    ensures words { is_command (map string_bytes words.now) ≡ false → (result ≡ 2) ⊎ (result ≡ 4) }
    ensures command { is_command (map string_bytes words.now) ≡ true → result ≢ 2 }
    ensures statuses { result ≤ 4 }

    // The counts never fall, and the files stay as they were.
    ensures same_files { S.files shelf.new ≡ S.files shelf.old }
    ensures absences_later { S.absences shelf.old ≤ S.absences shelf.new }
    ensures later { S.faults shelf.old ≤ S.faults shelf.new }
    ensures out_later { O.faults out.old ≤ O.faults out.new }
    ensures err_later { E.faults err.old ≤ E.faults err.new }
{
    match run(alloc, words, shelf, out) {
        Ok(()) => 0,
        Err(refusal) => refuse(alloc, err, refusal),
    }
}
