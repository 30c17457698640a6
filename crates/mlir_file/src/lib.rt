//! Files: what a text holds.
//!
//! A [`File`] is a module and, where the text has one, a script. `mlir_read` reads it and `mlir_print` writes it. [`release`]
//! lets it go.
#![tactic(auto)]

mod file;

pub use file::{File, release, release_script};
