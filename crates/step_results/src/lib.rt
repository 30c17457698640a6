//! What the steps `generalize` and `interchange` form from a verified module verifies.
//!
//! The functions here have no code: their contracts are the laws, over the definitions in `specs/`: `Modules` says by
//! functions, numbers and limits what a verified module is, `Edits` what a step owes at its target so that the module that it
//! forms verifies, and `Laws` states the laws.
#![tactic(auto)]

mod laws;

pub use laws::{edits_verify, formed_modules_verify, verified_by_functions};
