//! The text of operations by a table of forms.
//!
//! [`form`] gives what stands behind the name of an operation, as a list of [`Want`]s; [`tail`] what stands behind
//! its region. One loop over the wants reads the [`Part`]s of a text, and one writes the [`Field`]s of an
//! operation: a new operation is a row more, and its laws are those of all rows.
//!
//! In `specs/`, `Form` has the table, `Entries` and `Parts` the grammar of parts, `PartLaws` its laws, `Reading`
//! reading want by want, `Writing` what is written, with its tree, and `Texts` its bytes. The laws of what is
//! written stand in `form_laws`.
#![tactic(auto)]

mod field;
mod part;
mod read;
mod want;
mod write;

pub use field::{Field, Spelling, Word};
pub use part::{DensePiece, Entry, MapPiece, Next, Part, Row, WrittenMap};
pub use read::{read_parts, read_row};
pub use want::{Element, Opcode, Role, Want, form, tail};
pub use write::write_parts;
