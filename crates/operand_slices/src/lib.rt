//! The tile of an operand: the part that a tile of an operation's dimensions reads or writes, axis by axis.
//!
//! `operand_slice` gives the offset and the size of each axis as linear forms, from the operand's map and the offsets and
//! sizes of the dimensions. The atoms of the forms are numbers of values.
//!
//! `specs/Slices.antt` defines the forms, and `specs/Laws.antt` says what they are worth where the values are known.
#![tactic(auto)]

mod axes;
mod laws;
mod slicing;
mod sums;

pub use laws::{offsets_are_at_offsets, sizes_reach};
pub use slicing::operand_slice;
