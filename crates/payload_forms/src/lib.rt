//! Payloads that are formed from payloads.
//!
//! - `joined` is the payload of a producer and a consumer: the producer's steps first, its `linalg.index` as an
//!   `affine.apply`, and a step for each captured value of both in front.
//! - `placed` has each captured value that is used once, right before its first use.
//! - `join` gives the parts of the first, of which `placed` makes the second.
//!
//! `specs/Moved.antt` defines steps that stand in other places, `specs/Joined.antt` the joined payload, and
//! `specs/Captured.antt` where captured values have their steps. `specs/Fit.antt` says when there is a payload, and
//! `specs/Names.antt` what the code's tables say.
#![tactic(auto)]

mod first_uses;
mod joining;
mod moving;
mod numbers;
mod placing;
mod renaming;
mod splicing;

pub use first_uses::FirstUses;
pub use joining::{InFront, Joining, join, joined};
pub use placing::{PlacedPayload, placed};
pub use splicing::spliced;
