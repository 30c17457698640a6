//! What fusing a function's pairs forms from a file that has a canonical text has one too, so that a chain of steps
//! with fusing in it can be written and read back.
//!
//! [`fused_files_are_printable`] has no code: its contract is the law, which `specs/Laws.antt` states.
#![tactic(auto)]

mod laws;

pub use laws::fused_files_are_printable;
