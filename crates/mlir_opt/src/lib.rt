//! One command over handed-in files and streams: the words are read, the file that they name is read
//! to its end, its module is verified, its script is applied where that is asked for, and the
//! canonical text of the module and of its script is written. A refusal writes one line and has a
//! status of its own.
//!
//! The call is [`mlir_opt()`]. Its contract says the status, the bytes on `out` and the line on
//! `err` for all words and files. They are the `answer` of `specs/Answer.antt`, over what the words
//! ask for in `specs/Asked.antt` and what is made of a text in `specs/Processed.antt`, with the lines
//! and statuses of `specs/Refusals.antt`. What a caller sees of a call stands in
//! `specs/Headline.antt`, and when each refusal comes in `specs/Causes.antt`.
//!
//! The call stands on [`process`], which makes the output of a text, on [`place_after`] for lines
//! and columns, and on [`refuse`], which writes the line of a [`Refusal`] and answers its status.
#![tactic(auto)]

mod command;
mod place;
mod processing;
mod refusal;
mod request;

pub use command::{mlir_opt, refuse};
pub use mlir_streams::{
    CleanShelf, CleanSink, Failed, HostShelf, HostSink, MemShelf, MemSink, OpenError, Shelf, Sink,
    WriteError,
};
pub use mlir_verify::Rule;
pub use place::place_after;
pub use processing::process;
pub use refusal::{Fault, Refusal, StepFault, TextError};
pub use request::Output;
pub use rewrite_base::StepRule;
