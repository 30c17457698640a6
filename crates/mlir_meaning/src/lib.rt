//! What a function gives on its inputs, and the laws that later crates stand on.
//!
//! - [`Answer`] is what a function gives: its result tensors, or why there are none ([`Fault`]).
//! - [`Datum`] is what a value holds as a function runs, and [`Grid`] the cells of a tensor or a vector;
//!   an [`Insertion`] is a tile that a `scf.forall` is to insert.
//! - The law functions, from [`operations_run_in_turn`] to [`regions_read_and_write`], have no code: their
//!   contracts are the laws.
//!
//! The definitions stand in `specs/`: `Grids` and `Points` (boxes, cells in row-major order, maps), `States`
//! (what values hold, and how a run goes on), `Structured`, `Moves`, `Vectors` and `Loops` (the families of
//! kinds), `Meaning` (an operation, a body, a function), `Contexts` (a place in a body, and the states that
//! come to it), `Renaming`, `Names` and `Replacement` (what a tree reads and defines), and `Laws`. For each
//! kind of operation `proofs/worked` works out an ordinary value and one at its edge.
#![tactic(auto)]

mod answer;
mod laws;
mod values;

pub use answer::{Answer, Fault};
pub use laws::{
    context_keeps_meaning, grids_are_tables, named_operations_are_generics,
    numbers_carry_no_meaning, one_state_decides, operations_depend_on_what_they_read,
    operations_run_in_turn, places_may_change, regions_read_and_write, replacement_keeps_meaning,
};
pub use values::{Datum, Grid, Insertion};
