//! The laws of vectors in place of a generic, whose lanes are the points of a box that holds its box at 0.
//!
//! The law functions, from [`masked_reads_hold_elements`] to [`reductions_on_lanes_compute_generics`], have no
//! code: their contracts are the laws.
//!
//! The definitions stand in `specs/`: `Lanes` (transfers, the payload lane by lane, and coordinates) and `Laws`.
#![tactic(auto)]

mod laws;

pub use laws::{
    lanes_compute_generics, masked_reads_hold_elements, reductions_on_lanes_compute_generics,
};
