//! How payloads join the output's element, and what is known of them before they run.
//!
//! - `combiner` tells how a payload joins the output's element with a term, and `neutral` which
//!   value changes none by it.
//! - `can_trap` and `neutral_under` tell what is known before a payload runs: whether it could trap,
//!   and whether its term is neutral where only some inputs are known.
//!
//! `values_join_in_any_order`, `combiner_joins_a_term`, `no_values_trap` and
//! `neutral_term_keeps_output` have no code: their contracts are the laws that a change of a
//! reduction's order and its padding stand on.
//!
//! `specs/Combiners.antt` says what the combiner of a payload is, `specs/Known.antt` what is known
//! before a run, and `specs/Laws.antt` states the laws.
#![tactic(auto)]

mod combine;
mod known;
mod laws;
mod padding;

pub use combine::{combiner, neutral};
pub use known::can_trap;
pub use laws::{
    combiner_joins_a_term, neutral_term_keeps_output, no_values_trap, values_join_in_any_order,
};
pub use padding::neutral_under;
