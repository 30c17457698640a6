//! Tests of `verify` on modules that no text spells.
#![tactic(auto)]

#[cfg(test)]
mod limits;
