//! The laws of a generic that uses another one's result, as one generic.
//!
//! The law functions, [`payloads_are_joined`] and [`generics_are_fused`], have no code: their contracts are
//! the laws.
//!
//! The definitions stand in `specs/`: `Joined` (the payload of two generics), `Fused` (the fused generic), and
//! `Laws`. Where captured values have their steps is a law of `region_laws`.
#![tactic(auto)]

mod laws;

pub use laws::{generics_are_fused, payloads_are_joined};
