//! One run of the command over one file, and tables of rows.

use mlir_base::{List, Name};
use mlir_opt::{CleanShelf, CleanSink, mlir_opt};
use std::alloc::{AllocError, Global};

/// One file.
pub fn one_file(
    alloc: Global,
    name: &str,
    text: &str,
) -> Result<List<(Name, List<u8>)>, AllocError> {
    let Ok(name) = Name::new(alloc, name) else {
        return Err(AllocError);
    };
    let bytes = List::from_vec(text.as_bytes().to_vec(alloc)?);
    let mut files = Vec::new(alloc);
    files.push((name, bytes))?;
    Ok(List::from_vec(files))
}

/// A command line: the program's name and this many words behind it.
pub fn words(alloc: Global, behind: &[&str]) -> Result<Vec<String>, AllocError> {
    let mut all = Vec::new(alloc);
    all.push(String::from_str(alloc, "mlir_opt")?)?;
    for word in behind {
        all.push(String::from_str(alloc, word)?)?;
    }
    Ok(all)
}

/// What the command writes for a text on standard input, or for the file `a.mlir` that a word names: the output under
/// status 0, the line under another one, and nothing else.
pub fn answer(
    alloc: Global,
    name: &str,
    text: &str,
    behind: &[&str],
    status: u8,
) -> Result<String, AllocError> {
    let mut shelf = CleanShelf::new(one_file(alloc, name, text)?);
    let mut out = CleanSink::new(alloc);
    let mut err = CleanSink::new(alloc);
    let all = words(alloc, behind)?;
    let ended = mlir_opt(alloc, &all, &mut shelf, &mut out, &mut err);
    if out.bytes().is_empty() {
        let line = String::from_utf8_lossy(alloc, err.bytes())?;
        return if ended == status {
            Ok(line)
        } else {
            format!(in alloc; "{ended} {line}")
        };
    }
    if ended == 0 && err.bytes().is_empty() {
        return String::from_utf8_lossy(alloc, out.bytes());
    }
    String::from_str(alloc, "an output under another status, or beside a line")
}

/// Whether this is the answer that a row wants: `ok`, or the line behind `error: `.
fn is_wanted(alloc: Global, want: &str, found: &str) -> Result<bool, AllocError> {
    if want == "ok" {
        return Ok(found.ends_with("}\n"));
    }
    let line = format!(in alloc; "error: {want}\n")?;
    Ok(line.as_str() == found)
}

/// The rows that are answered otherwise than they say, each with its answer. Each text of a row stands between `before`
/// and `behind`, and each `~` in it stands for `short`.
pub fn wrong_rows(
    alloc: Global,
    rows: &str,
    before: &str,
    short: &str,
    behind: &str,
) -> Result<String, AllocError> {
    wrong_rows_under(alloc, &[], rows, before, short, behind)
}

/// The same under these words.
pub fn wrong_rows_under(
    alloc: Global,
    given: &[&str],
    rows: &str,
    before: &str,
    short: &str,
    behind: &str,
) -> Result<String, AllocError> {
    let mut wrong = String::new(alloc);
    for row in rows.lines() {
        let (want, inside) = row.split_once('|').unwrap_or((row, ""));
        let mut text = String::from_str(alloc, before)?;
        for (number, part) in inside.split('~').enumerate() {
            if number > 0 {
                text.push_str(short)?;
            }
            text.push_str(part)?;
        }
        text.push_str(behind)?;
        let found = answer(alloc, "", text.as_str(), given, 1)?;
        if !is_wanted(alloc, want, found.as_str())? {
            wrong.push_str(row)?;
            wrong.push_str("\nis answered ")?;
            wrong.push_str(found.as_str())?;
        }
    }
    Ok(wrong)
}
