//! Words, and streams that fail.

use crate::answers::{answer, one_file, words};
use mlir_base::List;
use mlir_opt::{MemShelf, MemSink, mlir_opt};
use std::alloc::{AllocError, Global};
use std::test::Fail;

const TEXT: &str = "module {
}
";

#[test]
fn words_name_the_file(rt: HostRuntime) -> Result<(), Fail> {
    for (word, status, line) in [
        ("a.mlir", 0u8, TEXT),
        ("-", 3, "error: file absent\n"),
        ("b.mlir", 3, "error: file absent\n"),
        ("", 2, "error: words\n"),
        ("--help", 2, "error: words\n"),
        ("--transform-interpreter", 3, "error: file absent\n"),
        ("--transform-interpreter=yes", 2, "error: words\n"),
        ("--lower=add", 2, "error: words\n"),
        ("--run=add", 2, "error: words\n"),
        ("--sample=1", 2, "error: words\n"),
    ] {
        let found = answer(rt.alloc(), "a.mlir", TEXT, &[word], status)?;
        assert!(rt; found.as_str() == line, "{word}");
    }
    Ok(())
}

/// The calls that fail: that of this number, or none for 0.
fn failing(alloc: Global, number: u32) -> Result<List<u32>, AllocError> {
    let mut numbers = Vec::new(alloc);
    numbers.push(number)?;
    Ok(List::from_vec(numbers))
}

#[test]
fn streams_fail(rt: HostRuntime) -> Result<(), Fail> {
    let alloc = rt.alloc();
    // The failing call of the shelf, the bytes that `out` takes in a call, its failing call, that of `err`, and then the
    // status, the number of bytes in `out`, and what `err` holds.
    for (shelf_fails, most, out_fails, err_fails, status, held, line) in [
        (0u32, 1u32, 0u32, 0u32, 0u8, 11usize, ""),
        (1, 5_000, 0, 0, 3, 0, "error: read failed\n"),
        (3, 5_000, 0, 0, 3, 0, "error: read failed\n"),
        (0, 10, 2, 0, 3, 10, "error: write failed\n"),
        (0, 0, 0, 0, 3, 0, "error: write failed\n"),
        (3, 5_000, 0, 1, 3, 0, ""),
        (3, 5_000, 0, 2, 3, 0, "error: "),
    ] {
        let files = one_file(alloc, "", TEXT)?;
        let mut shelf = MemShelf::new(files, 4, failing(alloc, shelf_fails)?);
        let mut out = MemSink::new(alloc, most, failing(alloc, out_fails)?);
        let mut err = MemSink::new(alloc, 7, failing(alloc, err_fails)?);
        let all = words(alloc, &[])?;
        let ended = mlir_opt(alloc, &all, &mut shelf, &mut out, &mut err);
        assert!(rt;
            ended == status,
            "{shelf_fails} {most} {out_fails} {err_fails}"
        );
        assert!(rt; out.bytes().len() == held && TEXT.as_bytes().starts_with(out.bytes()));
        assert!(rt; err.bytes() == line.as_bytes(), "{line}");
    }
    Ok(())
}
