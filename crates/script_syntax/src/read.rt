//! How each tree is read.

mod lines;
mod literals;
mod results;
mod steps;
mod types;

pub use lines::release;
