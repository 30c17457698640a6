//! The laws that tie verified functions to the laws of tiles: in each state that a verified run reaches, a
//! structured operation is an instance of a generic, of which those laws speak.
//!
//! The law functions, [`operands_fit_their_box`] and [`runs_reach_instances`], have no code: their contracts
//! are the laws.
//!
//! The definitions stand in `specs/`: `Instances` (a generic operation as an instance in a state) and `Laws`.
#![tactic(auto)]

mod laws;

pub use laws::{operands_fit_their_box, runs_reach_instances};
