//! What the text of an operation stands for, by the table of forms.
//!
//! One loop over the wants of a form resolves the parts of a text, in a function's names and a file's aliases: it
//! answers their [`Value`]s, or the first fault in the order of the tokens. What a number or a dense literal of a
//! constant is, the type behind it tells, and so it has no value of its own here.
//!
//! The law functions [`parts_are_read`], [`parts_are_resolved`] and [`rows_resolve_back`] have no code: their contracts
//! are the laws, each proved once for all rows. In `specs/`, `Forms` has the parts that a form's text has, `Entries` what
//! an entry stands for, `Resolving` what the parts of a form do, `FirstFaults` which fault is the first, `Values` which
//! values a form has, and `Saying` which fields stand for which values.
#![tactic(auto)]

mod entries;
mod held;
mod law;
mod resolve;
mod uses;
mod value;

pub use law::{parts_are_read, parts_are_resolved, rows_resolve_back};
pub use resolve::resolve_parts;
pub use value::Value;
