//! What an expression of a composed map selects.

ghost use Rattle.std.specs.Prelude.{◌≡◌, [], ◌∷◌, length, IfOk, IsTrue};
ghost use Rattle.affine_maps.specs.Compose.{composed_expr};
ghost use Rattle.affine_maps.specs.Map.{expr_fits};
ghost use Rattle.affine_maps.specs.Permutation.{dimension_of};
ghost use Rattle.fuse_elementwise.specs.Axes.{first_dimension};

use affine_maps::{AffineMap, Expr, compose};
use fuse_forms::copy_expr;
use mlir_base::{List, Memory};
use std::alloc::Global;

/// The dimension that the first result of a map is alone.
fn first_dimension(m: &AffineMap) -> Option<u32>
    ensures { result ≡ first_dimension m.now.results }
{
    match m.results().as_slice() {
        [e, ..] => e.dimension(),
        [] => None,
    }
}

/// The map of one result.
fn one_result(alloc: Global, dims: u32, e: &Expr) -> Result<AffineMap, Memory>
    requires { IsTrue (expr_fits dims e.now) }
    ensures { IfOk result (λ m. m ≡ record { dims = dims; results = e.now ∷ [] }) }
{
    let mut results = List::new(alloc);
    results.push(copy_expr(alloc, e)?)?;
    match AffineMap::new(dims, results) {
        Some(m) => Ok(m),
        None => unreachable!(),
    }
}

/// The dimension that an expression of so many dimensions is alone after an inner map, which has a result for each.
pub(crate) fn composed_dimension(
    alloc: Global,
    dims: u32,
    e: &Expr,
    inner: &AffineMap,
) -> Result<Option<u32>, Memory>
    requires expr { IsTrue (expr_fits dims e.now) }
    requires dims { length inner.now.results ≡ dims }
    ensures { IfOk result (λ d. d ≡ dimension_of (composed_expr inner.now.dims inner.now.results e.now)) }
{
    let outer = one_result(alloc, dims, e)?;
    match compose(alloc, &outer, inner) {
        Ok(Some(whole)) => Ok(first_dimension(&whole)),
        Ok(None) => Ok(None),
        Err(e) => Err(e),
    }
}
