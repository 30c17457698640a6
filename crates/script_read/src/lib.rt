//! Scripts, and what their text stands for.
//!
//! A [`Script`] is a named sequence of the transform dialect: steps over handles. `read_script` reads one from the tokens of a
//! text. `resolve_script` says what a tree (`script_syntax`) stands for, so that a file's reader takes a script as a part: names
//! of handles, numbers, types of padding values, and the limit on steps.
//!
//! What a tree stands for is `resolve` in specs/Resolve.antt, over the kinds of steps (specs/Kinds.antt), numbers
//! (specs/Numbers.antt) and handles in scope (specs/Scope.antt, specs/Names.antt). What the tokens of a text stand for, and
//! their first fault, is `reading` in specs/Reading.antt.
#![tactic(auto)]

mod handles;
mod kinds;
mod lines;
mod names;
mod numbers;
mod read;
mod script;

pub use lines::resolve_script;
pub use read::read_script;
pub use script::{HandleId, PadArgs, Script, Step, StepKind};
