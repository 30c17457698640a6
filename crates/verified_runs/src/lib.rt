//! What verified functions keep while they run, what a step owes, and why every function keeps its meaning.
//!
//! The functions here have no code: their contracts are the laws, over the definitions in `specs/`: `Typed` (what a
//! value of a type holds), `Passes` (what the verifier says of an operation, a body and a place), `Asks` (what an
//! operation asks of its state), `Forms` (structured operations as generics), `Edits` and `Fresh` (what a step puts in its target's place, and new numbers), and
//! `Laws`.
#![tactic(auto)]

mod laws;

pub use laws::{
    named_operations_are_generics, places_keep_other_values, steps_keep_meaning,
    verified_functions_are_typed, verified_functions_read_inside,
};
