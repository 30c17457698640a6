//! Bounds of linear forms whose atoms are loop variables, minima and extents.
//!
//! - `LinForm` is a constant and a sum of coefficients times atoms, read as its normal form.
//! - `Fact` is what is known of one atom, and `Facts::new` makes the `Facts` of all atoms: the k-th
//!   is that of atom k, with normal forms. It works in place and takes no memory. Its time is the size
//!   of the facts, up to a logarithm, and each minimum is also held against each later fact, up to the
//!   first difference.
//! - `Facts::covers` tells whether each atom of a form has a fact, as a bound asks.
//! - `upper` and `lower` are bounds by elimination, the greatest atom first. They are sound: whatever
//!   values agree with the facts, the form's value lies between them. A bound takes time and memory in
//!   the sizes of the form and of the facts that the elimination meets, up to a logarithm for the
//!   form given, and touches no other fact. It keeps its place in memory, not on the stack.
//! - `equal` tells whether two forms have the same normal form.
//!
//! `specs/Forms.antt` has a form's value, its normal form and the sum of forms; `specs/Limit.antt` the
//! limit of numbers; `specs/Facts.antt` says which facts may stand together; `specs/Bounds.antt` has
//! the elimination, and `specs/Agreement.antt` what it means that values agree with facts.
//! `specs/Same.antt` says where coefficients agree, and `specs/Stack.antt` what is left of an
//! elimination. `proofs/Known.antt` has the law that values that agree with facts agree with their
//! normal forms, and `proofs/Ints.antt` laws of signed numbers beside those of `affine_maps`.
#![tactic(auto)]

mod answers;
mod bounds;
mod choices;
mod facts;
mod form;
mod normal;
mod stack;

pub use answers::{lower, upper};
pub use facts::Facts;
pub use form::{Fact, LinForm};
pub use normal::equal;
