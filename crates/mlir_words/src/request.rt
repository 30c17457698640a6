/// What the words of a command line ask for.
#[derive(Clone, Copy, PartialEq, Eq, Drop)]
pub enum Request<'a> {
    /// `--sample=K`: the sample of size `k`, from 1 to 64.
    Sample {
        k: u8,
    },
    /// A module is read from `file`, its script is applied where `transform` is set, and the task is
    /// done.
    Module {
        file: Source<'a>,
        transform: bool,
        task: Task<'a>,
    },
}

/// Where a text comes from.
#[derive(Clone, Copy, PartialEq, Eq, Drop)]
pub enum Source<'a> {
    /// Standard input, for the word `-` or where no file is named.
    StandardInput,
    /// The file of this name, which isn't empty.
    File(&'a str),
}

/// What is done with a module.
#[derive(Clone, Copy, PartialEq, Eq, Drop)]
pub enum Task<'a> {
    /// The module is printed.
    Print,
    /// `--lower=NAME`: the loops of a function are printed.
    Lower {
        function: &'a str,
    },
    /// `--run=NAME`: a function is run on the tensors of `input`, by 1 to 64 workers.
    Run {
        function: &'a str,
        input: Option<Source<'a>>,
        workers: u8,
    },
}

/// Why there is no request.
#[derive(Clone, Copy, PartialEq, Eq, Drop)]
pub enum WordsError {
    /// The words are no command.
    Words,
    /// There is no memory.
    Memory,
}
