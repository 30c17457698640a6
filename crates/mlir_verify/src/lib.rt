//! The verifier: which modules keep the rules V1 to V8 and V14, and which rule another module breaks first.
//!
//! - `verify` takes a module and answers it as `Checked`, or the first operation in tree order at which a rule fails,
//!   with the lowest such rule there.
//! - `Checked::module` lends the module, `Checked::copy` copies it, and `Checked::into_module` gives it back. The type keeps that no
//!   rule fails. `Checked::from_verified` takes a module that is known to keep them.
//!
//! `specs/Rules.antt` says when a rule fails at a place of a module and which one `verify` names. `specs/Place.antt` says where
//! an operation stands and what is in scope there, `specs/Tensors.antt` has the tests on types. A file each has the rules:
//!
//! - `specs/Names.antt`: numbers and scope (V1);
//! - `specs/Types.antt`, `specs/Constants.antt`, `specs/Named.antt`: types and lengths (V2);
//! - `specs/Ends.antt`: ends of bodies and signatures (V3, V4);
//! - `specs/Maps.antt`: maps and iterators (V5, V6);
//! - `specs/Extents.antt`: extents (V7);
//! - `specs/Windows.antt`: elements that other map results select (V8);
//! - `specs/Limits.antt`: limits (V14).
//!
//! `specs/Built.antt` says what is covered: integer constants, `tensor.empty`, `linalg.generic`, `linalg.fill`, `linalg.matmul`,
//! `linalg.batch_matmul`, `linalg.transpose`, `linalg.broadcast` and `return`, on tensors of fixed extents. Anything else, and
//! a generic with captured values, breaks V2. No rule from V9 to V13 speaks of these operations.
//!
//! `proofs/Verified.antt` has what holds at each place of a verified module.
#![tactic(auto)]

mod axes;
mod built;
mod checked;
mod constants;
mod ends;
mod extents;
mod limits;
mod maps;
mod named;
mod names;
mod rule;
mod scope;
mod structured;
mod tensors;
mod types;
mod walk;
mod windows;

pub use checked::Checked;
pub use rule::{Refused, Rule};
pub use walk::verify;
