ghost use Rattle.std.specs.Prelude.{◌≡◌, ◌↔◌, ◌&&◌, not, is_some, IsTrue};
ghost use Rattle.std.specs.List.{list_all};
ghost use Rattle.affine_maps.specs.Permutation.{dimension_of_terms, dimension_of, dimensions_of, is_among, repeats, is_projected_permutation, IsProjectedPermutation};

use crate::map::{AffineMap, Expr};

fn dimension_of_terms(terms: &[(u32, i64)]) -> Option<u32>
    ensures { result ≡ dimension_of_terms terms.now }
{
    match terms {
        [term] if term.1 == 1 => Some(term.0),
        _ => None,
    }
}

impl Expr {
    /// The dimension that the expression is alone, with the coefficient 1 and the constant 0.
    pub fn dimension(&self) -> Option<u32>
        ensures { result ≡ dimension_of self.now }
    {
        if self.constant == 0 {
            dimension_of_terms(self.terms.as_slice())
        } else {
            None
        }
    }
}

/// Tells whether one of the expressions is this dimension alone.
fn stands_in(dimension: u32, exprs: &[Expr]) -> bool
    ensures { result ≡ is_among dimension (dimensions_of exprs.now) }
{
    for expr in exprs {
        match expr.dimension() {
            Some(other) if other == dimension => return true,
            _ => {}
        }
    }
    false
}

fn are_distinct_dimensions(exprs: &[Expr]) -> bool
    ensures { result ≡ list_all (λ e. is_some (dimension_of e)) exprs.now && not (repeats (dimensions_of exprs.now)) }
{
    for (i, expr) in exprs.iter().enumerate() {
        match expr.dimension() {
            Some(dimension) => {
                if stands_in(dimension, &exprs[i + 1..]) {
                    return false;
                }
            }
            None => return false,
        }
    }
    true
}

impl AffineMap {
    /// Tells whether each result is one dimension alone and no dimension repeats, as of the maps that
    /// select and reorder axes (MLIR, "AffineMap"). It takes no memory, and time in the square of the
    /// number of results.
    pub fn is_projected_permutation(&self) -> bool
        ensures value { result ≡ is_projected_permutation self.now }
        ensures dimensions { IsTrue result ↔ IsProjectedPermutation self.now }
    {
        let results = self.results();
        are_distinct_dimensions(results.as_slice())
    }
}
