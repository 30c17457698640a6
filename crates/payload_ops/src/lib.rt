//! What a `linalg.generic` computes at one point.
//!
//! - `payload` checks that inputs, steps and the yielded argument fit together, and makes a
//!   `Payload`, whose methods lend its parts.
//! - `wrap` and `signed` go from numbers to values of a width and back, `low_bits` and `wrap_signed`
//!   are `wrap` on words, `compare` compares two values, and `binary` is an operation on them, with
//!   `Division` as its trap.
//! - `eval` is what a payload gives at a point.
//!
//! `specs/Bits.antt` defines the operations in whole numbers, and `specs/Values.antt` what a payload
//! gives. `specs/Payload.antt` says which parts fit, `specs/Shape.antt` what contracts see of a
//! payload, `specs/Evaluation.antt` what its evaluation has at each step, and `specs/Combine.antt`
//! how a combiner joins two values. `proofs/Worked.antt` has values computed apart from this program.
#![tactic(auto)]

mod bits;
mod evaluation;
mod fits;
mod kinds;
mod operations;
mod payloads;
mod step;

pub use bits::{compare, low_bits, signed, wrap, wrap_signed};
pub use evaluation::eval;
pub use kinds::{BinOp, Combiner, Division, Predicate};
pub use operations::binary;
pub use payloads::Payload;
pub use payloads::parts::payload;
pub use step::{Arg, PayloadStep, StepOp};
