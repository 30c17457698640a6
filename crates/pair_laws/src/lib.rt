//! The laws of a producer and its consumer in one body: fused, they mean what they meant.
//!
//! The law functions, from [`fused_operations_are_formed`] to [`all_pairs_are_fused`], have no code: their contracts
//! are the laws.
//!
//! The definitions stand in `specs/`: `Pairs` (the fused operation, and the pair in its body), `Captures` (what
//! both capture), `FuseAll` (the first pair, and fusing until none is left), and `Laws`.
#![tactic(auto)]

mod laws;

pub use laws::{
    all_pairs_are_fused, first_pairs_are_fused, fused_operations_are_formed, pairs_are_fused,
};
