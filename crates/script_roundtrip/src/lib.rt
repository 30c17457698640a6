//! The canonical text of a script that is read stands for it.
//!
//! [`canonical_text_reads_back`] has no code: its contract is the law, over the definitions that the reader and the printer meet.
//! `specs/Printable.antt` says which scripts can be printed, and `proofs/Laws.antt` has the laws that its clauses cite.
#![tactic(auto)]

mod law;

pub use law::canonical_text_reads_back;
