//! Scripts both ways: [`read_script`] reads one from the tokens of a text, and [`script_text`] gives its canonical text.
//! The types and the reading stand in `script_read`.
//!
//! The canonical text has one layout: each step on a line of its own, the root named `%arg0`, and the results of a step `%0`,
//! `%1` and so on in the order of definition, where several results of one step have one name: `%2:3`, used as `%2#0`. What it
//! is stands in specs/Canonical.antt as `text_of`: writers, one for each production of the grammar, give the pieces of the text
//! and the tree that they spell. specs/Steps.antt has the writers of steps, specs/Names.antt the names, and specs/Texts.antt the
//! bytes of each part in the order in which they are written. `write_script` writes it inside the regions of a file.
//!
//! The text is defined for every script. What no text spells, as a match with two results, is written as `?`, which begins no
//! token, so that no such text stands for another script.
#![tactic(auto)]

mod bodies;
mod names;
mod text;

pub use script_read::{HandleId, PadArgs, Script, Step, StepKind, read_script, resolve_script};
pub use text::{script_text, write_script};
