//! Affine maps: expressions that are a constant and a sum of coefficients times dimensions.
//!
//! - `Expr` is one result of a map; `Expr::dimension` tells whether it is one dimension alone.
//! - `AffineMap::new` makes a map of expressions that keep the rule on `Expr`, and its methods lend
//!   the parts.
//! - `AffineMap::at` writes a map's value at a point; `are_coordinates` tests what it asks of one.
//! - `compose` puts one map's results in the places of another's dimensions.
//! - `AffineMap::is_projected_permutation` tells whether a map only selects and reorders dimensions.
//!
//! `specs/Map.antt` says which expressions a map may have, `specs/Value.antt` what an expression
//! and a map give at a point, `specs/Compose.antt` what the composition of two maps is,
//! `specs/Permutation.antt` which maps are projected permutations, and `specs/Shape.antt` what
//! contracts see of a map. `specs/Terms.antt` has the words of the functions inside.
#![tactic(auto)]

mod composition;
mod map;
mod permutation;
mod value;

pub use composition::compose;
pub use map::{AffineMap, Expr};
pub use value::are_coordinates;
