//! The named structured operations as generics, in code (Linalg manual).
//!
//! `fill_form`, `matmul_form`, `batch_matmul_form`, `transpose_form` and `broadcast_form` are the maps, iterators and payloads
//! of the generics that these operations are, as `mlir_meaning` defines them. `None` comes only where the parts don't
//! fit together, which `specs/Fit.antt` states.
#![tactic(auto)]

mod forms;
mod products;

pub use forms::{Form, broadcast_form, fill_form, transpose_form};
pub use products::{batch_matmul_form, matmul_form};
