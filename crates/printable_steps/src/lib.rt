//! What the steps `generalize` and `interchange` form from a file that has a canonical text has one too, and what that text
//! stands for verifies: a chain of steps can be written and read back.
//!
//! The functions here have no code: their contracts are the laws, which `specs/Laws.antt` states.
#![tactic(auto)]

mod laws;

pub use laws::{formed_files_are_printable, texts_keep_files};
