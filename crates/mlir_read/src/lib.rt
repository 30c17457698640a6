//! Reading: from a text to the file that it stands for.
//!
//! `read_file` reads a text of the module language of MLIR: its tokens (`mlir_lex`), their tree (`mlir_syntax`), and what the
//! tree stands for (`resolve_text`, over `mlir_scope`, `mlir_resolve` and, for scripts, `script_read`). It answers a [`File`], or the first
//! fault as a [`ReadError`].
//!
//! What a text stands for is `StandsFor` in specs/Reading.antt, and what it is refused for is `reading` there. What a tree
//! stands for is `resolve` in specs/Resolve.antt.
#![tactic(auto)]

mod files;
mod functions;
mod read;

pub use files::{FileScope, Stage, resolve_text};
pub use mlir_file::File;
pub use mlir_lex::{Fault, ReadError, Refused};
pub use read::read_file;
