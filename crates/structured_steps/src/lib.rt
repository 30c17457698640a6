//! What the steps `generalize` and `interchange` form from a module, which of their rules is broken, and that every
//! function keeps its meaning.
//!
//! - `StepRule` names the rules of steps.
//! - `generalize_keeps_meaning` and `interchange_keeps_meaning` have no code: their contracts are the laws.
//!
//! `specs/Generalize.antt` and `specs/Interchange.antt` define the steps, `specs/Steps.antt` which rule a module breaks and
//! the module that a step forms, and `specs/Laws.antt` states the laws.
#![tactic(auto)]

mod laws;
mod rule;

pub use laws::{generalize_keeps_meaning, interchange_keeps_meaning};
pub use rule::StepRule;
