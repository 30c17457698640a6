//! Modules as trees of operations: the 25 kinds that the profile of MLIR has, with their operands.
//!
//! - `Module`, `Func`, `Op` and `OpKind` are the tree, and `Ty` the types of its values. A `Func` has
//!   at least one operation.
//! - `Tensor` holds the cells of a tensor.
//! - `find` looks an operation up by its number, `uses` counts the operands that name a value,
//!   `count_ops` the operations, and `depth` the loops around one.
//!
//! `specs/Count.antt` says what the operands and the operations of a tree are, `specs/Depth.antt` how
//! deep they stand, and `specs/Shape.antt` what contracts see of a function and a tensor.
//! `proofs/Trees.antt` gives each count of a loop on its body as a list.
#![tactic(auto)]

mod count;
mod look;
mod nesting;
mod place;
mod tree;

pub use count::count_ops;
pub use look::find;
pub use nesting::depth;
pub use place::uses;
pub use tree::{Extent, Func, Idx, Iter, Module, Op, OpId, OpKind, Tensor, Ty, ValueId};
