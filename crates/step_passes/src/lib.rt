//! A step at many operations in one pass over the module.
#![tactic(auto)]

mod carry;
mod exchange;
mod index;
mod kinds;
mod known;
mod laws;
mod moves;
mod pending;
mod plan;
mod steps;
mod told;

pub use exchange::Exchange;
pub use laws::{generalize_is_one_pass, interchange_is_one_pass};
pub use steps::{generalize_all, interchange_all};
