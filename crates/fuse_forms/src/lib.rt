//! A producer and a consumer as one generic.
//!
//! `fused` is the generic of two of which one uses the other's result, as `pair_laws` defines it. `None` comes only
//! where its maps or its payload don't fit, which `specs/Forms.antt` states.
#![tactic(auto)]

mod capturing;
mod forming;
mod generic;
mod mapping;
mod payloads;

pub use forming::fused;
pub use generic::{Fused, Generic};
pub use mapping::{copy_expr, pulled};
