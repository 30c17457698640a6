//! The text of affine maps: writing it and reading it.
//!
//! - `map_text` is a map's canonical text.
//! - `parse_map` reads the map at the front of a text, and answers it with the length of its text, or
//!   the first fault, a `MapError`. It allows symbols and doesn't look at what stands behind the map.
//! - `map_of` reads a whole list of tokens as one map, with symbols or without.
//! - `one_reading`, `canonical_pieces` and `canonical_map_reads_back` have no code: their contracts
//!   are laws. Reading has one answer; the canonical text is well-spaced pieces that spell the map's
//!   tree; it reads back to the map.
//!
//! A map names its dimensions, and symbols, by any words that differ. Symbols become dimensions behind
//! the others. `mod`, `floordiv`, `ceildiv` and a product of two sides with terms are faults, and so is
//! a number beyond plus and minus 2^31 (Affine manual, "Affine Maps").
//!
//! `specs/Grammar.antt` says which texts are a map's, `specs/Meaning.antt` which map each means or what
//! fault its expressions have, `specs/Faults.antt` and `specs/OfTokens.antt` what the answer to a text
//! and to tokens is, with its first fault, and `specs/Reading.antt` and `specs/Feeding.antt` how a
//! reader goes through them. `specs/Text.antt` says what the canonical text is, `specs/Canonical.antt`
//! has its pieces and the tree that they spell. `specs/Collected.antt` and `specs/Multiples.antt` have
//! the words of the forms inside, and `specs/Codes.antt` says how the logic stores a reader.
#![tactic(auto)]

mod laws;
mod reading;
mod text;

pub use laws::{canonical_map_reads_back, canonical_pieces, one_reading};
pub use reading::fault::MapError;
pub use reading::parse::{map_of, parse_map};
pub use text::map_text;
