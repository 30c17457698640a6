//! Tests of the command `mlir_opt` over handed-in files and streams: what a text, a word or a failing stream is answered.
//!
//! A row is a line of a string, the answer before `|` and what is asked behind it, so that a table costs one string.
#![tactic(auto)]

#[cfg(test)]
mod answers;
#[cfg(test)]
mod fused;
#[cfg(test)]
mod limits;
#[cfg(test)]
mod printed;
#[cfg(test)]
mod refused;
#[cfg(test)]
mod scripts;
#[cfg(test)]
mod streams;
#[cfg(test)]
mod transformed;
#[cfg(test)]
mod verified;
