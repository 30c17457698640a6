//! What the tree of a function's operations stands for.
//!
//! `read_statements` resolves the operations of a function in a `Scope` (`mlir_scope`), payloads by `mlir_payload`, and `room` says
//! whether one more operation is within the limit. Each answers what its tree stands for, or the first fault of the tree.
//!
//! What a tree stands for is defined by one chain in the order of the tokens: operations (specs/Operations.antt), constants
//! (specs/Constants.antt), generic operations (specs/Generics.antt) and those that have a name of their own (specs/Structured.antt).
#![tactic(auto)]

mod constants;
mod dense;
mod generics;
mod operations;
mod structured;

pub use operations::{read_statements, room};
