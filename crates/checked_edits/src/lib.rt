//! Edits of verified modules.
//!
//! - `replace` puts new operations in the place of one. Where the module that it forms keeps every rule but that on limits,
//!   it answers that module as verified, or the first limit that it passes.
//! - `fresh` gives numbers that a verified module doesn't have.
//!
//! `specs/Replacing.antt` says what `replace` forms and answers, and that the limits on types are the verifier's last rule.
//! `specs/Limits.antt` says which limits it tests, in their order.
#![tactic(auto)]

mod laws;
mod limits;
mod replacing;
mod sizes;

pub use laws::limits_are_the_last_rule;
pub use replacing::{fresh, replace};
