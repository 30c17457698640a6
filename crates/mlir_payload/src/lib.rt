//! What the region of a generic operation stands for: a payload.
//!
//! `read_payload` resolves the block's arguments, the steps in order and what is yielded, over the names of the function around
//! it (`mlir_scope`). It answers the payload, or the first fault of the region.
//!
//! What each step stands for is in specs/Steps.antt, and what a region does in specs/Payload.antt: one chain in the order of the
//! tokens.
#![tactic(auto)]

mod inside;
mod payloads;
mod steps;

pub use payloads::read_payload;
