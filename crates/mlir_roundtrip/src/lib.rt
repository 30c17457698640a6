//! The canonical text of what is read stands for it.
//!
//! [`canonical_text_reads_back`] has no code: its contract is the law, over the definitions that the reader and the printer meet.
//! `specs/Printable.antt` says which files can be printed, `specs/Numbered.antt` which numbers they have in their text, and
//! `proofs/Laws.antt` has the laws that its clauses cite.
#![tactic(auto)]

mod law;

pub use law::{aliases_read_back, canonical_text_reads_back};
