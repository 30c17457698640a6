//! Elementwise fusion of the generics of a function.
//!
//! - `fuse_all` is the step: in a function of a verified module, the first pair of a generic and a consumer of its result
//!   that fits becomes one generic, until no pair fits.
//! - `fused_module_keeps_meaning` has no code: its contract is the law that the formed module verifies, and that each of
//!   its functions means what it meant.
//!
//! `pair_laws` defines which pair is first and when it fits. `specs/Fused.antt` says what the step answers on a module,
//! `specs/Spots.antt` where the first pair stands, and `specs/Turns.antt` what one fusion is.
#![tactic(auto)]

mod axes;
mod composing;
mod finding;
mod fitting;
mod found;
mod generics;
mod laws;
mod next;
mod orders;
mod producing;
mod putting;
mod resuming;
mod step;
mod turn;
mod turning;

pub use laws::fused_module_keeps_meaning;
pub use step::fuse_all;
