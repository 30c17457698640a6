ghost use Rattle.std.specs.Prelude.{◌≡◌, ℕ, List, [], ◌∷◌, ◌++◌, pos, int_le, IfOk, OnOk, option_copied};
ghost use Rattle.std.specs.List.{list_all, zip, enumerate_from};
ghost use Rattle.mlir_verify.specs.Maps.{is_not_negative, fits_operand, is_iterator};
ghost use Rattle.affine_maps.specs.Permutation.{dimensions_of};
ghost use Rattle.mlir_verify.specs.Scope.{types_in, IsSet};
ghost use Rattle.mlir_verify.specs.Stages.{IsPermuted, is_in};

use crate::scope::Scope;
use crate::tensors::extents_of;
use affine_maps::{AffineMap, Expr};
use mlir_base::Memory;
use mlir_ir::{Iter, Ty, ValueId};
use std::alloc::Global;
use std::collections::BTreeSet;

fn has_no_negative_term(terms: &[(u32, i64)]) -> bool
    ensures { result ≡ list_all (λ t. int_le (pos 0) t.1) terms.now }
{
    terms.iter().all(|t| 0 <= t.1)
}

fn is_not_negative(e: &Expr) -> bool
    ensures { result ≡ is_not_negative e.now }
{
    0 <= e.constant && has_no_negative_term(e.terms.as_slice())
}

fn are_not_negative(results: &[Expr]) -> bool
    ensures { result ≡ list_all is_not_negative results.now }
{
    results.iter().all(|e| is_not_negative(e))
}

/// Whether a map has one dimension for each iterator, one result for each axis of its operand, and no negative number.
pub(crate) fn fits_operand(dims: usize, m: &AffineMap, ty: Option<&Ty>) -> bool
    ensures { result ≡ fits_operand dims m.now (option_copied ty.entry) }
{
    let results = m.results().as_slice();
    (m.dims() as usize == dims && results.len() == extents_of(ty).len())
        && are_not_negative(results)
}

pub(crate) fn fit_inputs(scope: &Scope, dims: usize, ins: &[ValueId], maps: &[AffineMap]) -> bool
    ensures { result ≡ list_all (λ x. fits_operand dims x.1 (types_in scope.now (x.0).0)) (zip ins.now maps.now) }
{
    ins.iter()
        .zip(maps)
        .all(|(v, m)| fits_operand(dims, m, scope.type_of(*v)))
}

/// Adds the dimension that an expression is alone, if any.
fn add_dimension(set: &mut BTreeSet<usize>, e: &Expr) -> Result<(), Memory>
    ensures { OnOk result ((known : List ℕ) → IsSet set.old known → IsSet set.new (known ++ dimensions_of (e.now ∷ []))) }
{
    match e.dimension() {
        Some(d) => match set.insert(d as usize) {
            Ok(_) => Ok(()),
            Err(_) => Err(Memory),
        },
        None => Ok(()),
    }
}

/// The dimensions that these expressions are alone.
fn dimensions(alloc: Global, results: &[Expr]) -> Result<BTreeSet<usize>, Memory>
    ensures { IfOk result (λ set. IsSet set (dimensions_of results.now)) }
{
    let mut set = BTreeSet::new(alloc);
    for e in results {
        add_dimension(&mut set, e)?;
    }
    Ok(set)
}

/// The dimensions of a map that is a projected permutation.
pub(crate) fn permuted_dimensions(
    alloc: Global,
    m: &AffineMap,
) -> Result<Option<BTreeSet<usize>>, Memory>
    ensures { IfOk result (λ found. IsPermuted found m.now) }
{
    if !m.is_projected_permutation() {
        return Ok(None);
    }
    let results = m.results();
    match dimensions(alloc, results.as_slice()) {
        Ok(set) => Ok(Some(set)),
        Err(e) => Err(e),
    }
}

fn is_iterator(kind: &Iter, in_output: bool) -> bool
    ensures { result ≡ is_iterator kind.now in_output }
{
    match kind {
        Iter::Parallel => in_output,
        Iter::Reduction => !in_output,
    }
}

/// Whether the parallel dimensions are those of the output.
pub(crate) fn match_dimensions(iterators: &[Iter], output: &BTreeSet<usize>) -> bool
    ensures { result ≡ list_all (λ i. is_iterator i.1 (is_in output.now i.0)) (enumerate_from 0 iterators.now) }
{
    iterators
        .iter()
        .enumerate()
        .all(|(d, kind)| is_iterator(kind, output.contains(&d)))
}
