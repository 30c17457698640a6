//! The laws of the text of operations, each proved once for all rows of the table.
//!
//! The law functions [`rows_read_back`] and [`tails_read_back`] have no code: their contracts are the laws. In `specs/`,
//! `Fields` is what parts say, `Fits` which fields can be written, and `Rows` the text of an operation. In `proofs/`,
//! what is written is spelled by the form (`Writes`), is well spaced (`Spaced`), and says these fields (`Rounds`).
#![tactic(auto)]

mod law;

pub use law::{rows_read_back, tails_read_back};
