//! How each tree is read.

mod constants;
mod files;
mod generics;
mod literals;
mod maps;
mod operations;
mod payloads;
mod steps;
mod structured;
