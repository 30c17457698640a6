use mlir_words::{Request, Source, Task, WordsError, read_words};
use std::alloc::{AllocError, Global};
use std::test::Fail;

// The words of a command line, which are parted by single spaces, behind the program's name.
fn words_of(alloc: Global, line: &str) -> Result<Vec<String>, AllocError> {
    let mut all = Vec::new(alloc);
    all.push(String::from_str(alloc, "mlir_opt")?)?;
    for word in line.split(' ') {
        all.push(String::from_str(alloc, word)?)?;
    }
    Ok(all)
}

const RUN: Request = Request::Module {
    file: Source::File("a.mlir"),
    transform: true,
    task: Task::Run {
        function: "add",
        input: Some(Source::StandardInput),
        workers: 64,
    },
};

const LOWER: Request = Request::Module {
    file: Source::StandardInput,
    transform: false,
    task: Task::Lower { function: "add" },
};

const PRINT: Request = Request::Module {
    file: Source::File("-f"),
    transform: false,
    task: Task::Print,
};

#[test]
fn commands_are_read(rt: HostRuntime) -> Result<(), Fail> {
    let alloc = rt.alloc();
    for (line, want) in [
        ("-- -f", PRINT),
        ("- --lower add", LOWER),
        (
            "--transform-interpreter --run=add --workers=64 --input - a.mlir",
            RUN,
        ),
        ("--sample 64", Request::Sample { k: 64 }),
    ] {
        let words = words_of(alloc, line)?;
        assert!(rt; read_words(alloc, &words) == Ok(want), "at {line}");
    }
    Ok(())
}

#[test]
fn other_words_are_refused(rt: HostRuntime) -> Result<(), Fail> {
    let alloc = rt.alloc();
    for line in [
        "",
        "--help",
        "-h",
        "--version",
        "--low=add",
        "--lower",
        "--run -x",
        "--lower=add --run=add",
        "--transform-interpreter=true",
        "--run=add --run=add",
        "--run=add --workers=01",
        "--run=add --input=-",
        "--sample=1 --",
        "-- a.mlir b.mlir",
    ] {
        let words = words_of(alloc, line)?;
        assert!(rt;
            read_words(alloc, &words) == Err(WordsError::Words),
            "at {line}"
        );
    }
    Ok(())
}
