//! The laws of steps that move elements: slices, insertions and pads, and a generic over padded or packed
//! operands.
//!
//! The law functions, from [`slices_and_insertions_meet`] to [`packed_generics_are_generics`], have no code:
//! their contracts are the laws.
//!
//! The definitions stand in `specs/`: `Operands` (operands before and after a step), `Pads`, `Packs`, and `Laws`.
#![tactic(auto)]

mod laws;

pub use laws::{
    packed_generics_are_generics, padded_generics_are_generics, slices_and_insertions_meet,
};
