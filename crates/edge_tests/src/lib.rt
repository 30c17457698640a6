//! Tests of the program's edge: words as `clap` reads them, shelves and sinks that fail where they are told to, devices
//! that are interrupted, and real files.
#![tactic(auto)]

#[cfg(test)]
mod streams;
#[cfg(test)]
mod words;
