//! Edits of modules: where an operation stands, what is in scope there, numbers that a module doesn't have, and new operations in
//! the place of one.
//!
//! - `place_of` finds the place of an operation by its number, and `target_at` lends what stands there. `type_before` gives
//!   the type of a value in scope at a position of a body.
//! - `values_end` and `ops_end` are one more than the greatest number of a module's values and operations, and `fresh` is both.
//! - `replace_at` takes a module, and puts new operations in the place of one. Later uses of its results become uses of the
//!   values that are given. Nothing that stays is copied.
//! - `renumbered` are results of the same types under fresh numbers.
//!
//! `specs/Places.antt` says where an operation stands, and `specs/Replaced.antt` what an edit gives. `verified_runs` has the values that
//! a use becomes, and the fresh numbers. `proofs/Formed.antt` ties an edit at a place to the step at an operation's number.
#![tactic(auto)]

mod edit;
mod kinds;
mod moves;
mod numbers;
mod operands;
mod place;
mod scope;

pub use edit::{renumbered, replace_at};
pub use numbers::{fresh, ops_end, values_end};
pub use place::{Place, Target, place_of, target_at};
pub use scope::type_before;
