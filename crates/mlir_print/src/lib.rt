//! The canonical text of a file: one layout, aliases for the maps that are used, and names that are numbered in the
//! order of definition.
//!
//! `file_text` writes it. What it is stands in `specs/Canonical.antt` as `text_of`: writers, one for each production of
//! the grammar, give the pieces of the text and the tree that they spell. `specs/Names.antt` has the names, `specs/Maps.antt`
//! the aliases, and `specs/Parts.antt` the bytes of each part in the order in which they are written. `specs/Renumbered.antt`
//! is the same module with the numbers of its text.
//!
//! The text is defined for every file. What no text of today's grammar spells is written as `?`, which begins no token, so
//! that no such text stands for another file.
#![tactic(auto)]

mod aliases;
mod constants;
mod generics;
mod linear;
mod literals;
mod names;
mod operations;
mod payloads;
mod structured;
mod text;
mod types;
mod values;

pub use text::file_text;
