//! What the handles of a script name, how operations are matched, and how handles die.
//!
//! - `Target` is what a handle names: the module, a function or an operation.
//! - `matched` lists the operations and functions of given names that stand strictly inside targets.
//! - `Handles` are the handles that were defined, with what they name. Consuming targets kills the handles
//!   that name one of them or anything inside one.
//!
//! `specs/Targets.antt` and `specs/Names.antt` have targets and the names of operations, `specs/Items.antt` what stands inside
//! what and what is matched, and `specs/Handles.antt` the handles.
#![tactic(auto)]

mod handles;
mod matching;
mod name_set;
mod names;
mod target;
mod target_set;

pub use handles::Handles;
pub use matching::matched;
pub use target::Target;
