ghost use Rattle.std.specs.Prelude.{◌≡◌, IsSome, IfSome, ◌↔◌};
ghost use Rattle.std.specs.List.{list_all};
ghost use Rattle.affine_maps.specs.Map.{terms_fit, expr_fits, IsMap};

use mlir_base::{List, is_coefficient, is_in_range};
use std::marker::Model;

/// A constant and a sum of coefficients times dimensions (Affine manual, "Affine Expressions").
/// A map's expressions name each dimension at most once, in rising order, with a coefficient other
/// than 0, and have no number beyond plus and minus 2^31.
#[derive(Drop)]
pub struct Expr {
    pub constant: i64,
    /// Numbers of dimensions, each with its coefficient.
    pub terms: List<(u32, i64)>,
}

/// A map from points of `dims` coordinates to points of one coordinate per result (Affine manual,
/// "Affine Maps").
#[derive(Drop)]
pub struct AffineMap {
    dims: u32,
    results: List<Expr>,
}

impl Model for AffineMap {
    ghost use Rattle.affine_maps.specs.Shape.{MapShape, map_code};
    ghost use Rattle.affine_maps.specs.Map.{IsMap};

    ghost Value = { MapShape };

    ghost coded = { map_code };

    ghost view = { λ m. record { dims = m.dims; results = m.results } };

    ghost invariant = { λ m. IsMap (record { dims = m.dims; results = m.results }) };
}

impl AffineMap {
    /// The map with these results. `None` exactly where a result names a dimension that is not below
    /// `dims`, or does not keep the rule on `Expr`.
    pub fn new(dims: u32, results: List<Expr>) -> Option<AffineMap>
        ensures valid { IsSome result ↔ IsMap (record { dims = dims; results = results }) }
        ensures value { IfSome result (λ m. m ≡ record { dims = dims; results = results }) }
    {
        if exprs_fit(dims, results.as_slice()) {
            Some(AffineMap { dims, results })
        } else {
            None
        }
    }

    /// The number of dimensions.
    pub fn dims(&self) -> u32
        ensures { result ≡ self.now.dims }
    {
        self.dims
    }

    pub fn results(&self) -> &List<Expr>
        ensures value { result.now ≡ self.now.results }
        ensures kept { IsMap self.now }
    {
        &self.results
    }
}

fn exprs_fit(dims: u32, exprs: &[Expr]) -> bool
    ensures { result ≡ list_all (expr_fits dims) exprs.now }
{
    for expr in exprs {
        if !expr_fits(dims, expr) {
            return false;
        }
    }
    true
}

fn expr_fits(dims: u32, expr: &Expr) -> bool
    ensures { result ≡ expr_fits dims expr.now }
{
    is_in_range(expr.constant) && terms_fit(dims, expr.terms.as_slice())
}

/// Tells whether the terms name dimensions below `dims`, each at most once and in rising order.
fn terms_fit(dims: u32, terms: &[(u32, i64)]) -> bool
    ensures { result ≡ terms_fit dims terms.now 0 }
{
    let mut low = 0u64;
    for term in terms {
        if (term.0 as u64) < low || term.0 >= dims || !is_coefficient(term.1) {
            return false;
        }
        low = term.0 as u64 + 1;
    }
    true
}
