//! Copies of modules and of their parts.
//!
//! `copy_module` gives an equal module with the same numbers, in memory of its own. `copy_list`, `copy_type` and `copy_step_op`
//! copy what a changed operation keeps.
#![tactic(auto)]

mod kinds;
mod lists;
mod moves;
mod parts;
mod structured;
mod tree;

pub use lists::{copy_list, copy_type};
pub use parts::copy_step_op;
pub use tree::copy_module;
