//! How often each value of a body is used.
//!
//! `counted` counts the uses of a body, those inside loops too. `UseCounts` is a function of a value's number, and is kept
//! up as uses come and go.
#![tactic(auto)]

mod counts;
mod operands;
mod walk;

pub use counts::UseCounts;
pub use walk::counted;
