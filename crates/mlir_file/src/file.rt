//! Files.

use mlir_ir::Module;
use script_read::Script;

/// What a text holds: its functions, and its script where it has one (MLIR manual, "Transform Dialect": a script is
/// a named sequence in a module of its own, which may stand in the file of its payload).
#[derive(Drop)]
pub struct File {
    pub module: Module,
    pub script: Option<Script>,
}

/// Lets a file go. A crate above that calls it needs no proof of how the types of a file are dropped.
pub fn release(_file: File) {}

/// Lets the script of a file go, likewise.
pub fn release_script(_script: Option<Script>) {}
