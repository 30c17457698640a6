//! What the transform steps share, and the first two of them.
//!
//! - `generalize` and `interchange` form a module with the step at one operation. The formed module verifies, so that a step
//!   verifies nothing anew.
//! - `passed` tells the first limit of its counts that a module passes.
//! - `turned_by` and `fill_shape` to `broadcast_shape` tell what one operation becomes, for steps at many.
//! - `StepError` tells why a step refuses, and `Made` which operations stand for its target.
//!
//! `specs/Answers.antt` says what a step answers, and `specs/Limits.antt` which limits it may pass. `structured_steps` has the rules
//! and the modules that the two steps form.
#![tactic(auto)]

mod aim;
mod error;
mod exchange;
mod forms;
mod generalizing;
mod interchanging;
mod limits;
mod made;
mod orders;
mod shape;
mod turn;
mod turning;

pub use error::StepError;
pub use forms::{batch_matmul_shape, broadcast_shape, fill_shape, matmul_shape, transpose_shape};
pub use generalizing::generalize;
pub use interchanging::{interchange, turn as turned_by};
pub use limits::passed;
pub use made::Made;
pub use shape::Shape;
pub use structured_steps::StepRule;
pub use turn::Turn;
