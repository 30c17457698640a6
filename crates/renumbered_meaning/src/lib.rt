//! Functions under the numbers of their module's canonical text mean what they meant.
//!
//! [`renumbering_keeps_meaning`] has no code: its contract is the law. `specs/Laws.antt` states it, over the numbers that
//! `mlir_print` and `mlir_roundtrip` define.
#![tactic(auto)]

mod laws;

pub use laws::renumbering_keeps_meaning;
