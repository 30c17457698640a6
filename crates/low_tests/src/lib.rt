//! Tests of the low crates, of what no clause says: that each call which takes memory can succeed, and
//! that a call's `requires` can be met. Which values they give, the clauses say and the worked values
//! beside them.
#![tactic(auto)]

#[cfg(test)]
mod forms;
#[cfg(test)]
mod payloads;
#[cfg(test)]
mod trees;
