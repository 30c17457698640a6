//! The words of the command line, and the request that they make.
//!
//! [`read_words`] takes the words, the program's name first, and answers a [`Request`]: a sample, or
//! a module's [`Source`] and the [`Task`] that is done with it. `clap` reads the words as one command
//! without subcommands; the rules on the values, and on which options stand together, are read from
//! what it found.
//!
//! What the words ask for stands in `specs/Asked.antt`, as a function on lists of words, and the
//! request in `specs/Request.antt`. `specs/Table.antt` has the table of commands row by row, whatever
//! the order of the words, and what is refused, over the spellings of `specs/Spelled.antt`.
//! `specs/App.antt` is the command as `clap` sees it. That `clap` finds what the words ask for, and
//! has a fault exactly where they ask for nothing, is `account` of `proofs/Account.antt`.
#![tactic(auto)]

mod command;
mod given;
mod request;
mod values;

pub use command::read_words;
pub use request::{Request, Source, Task, WordsError};
