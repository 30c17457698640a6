ghost use Rattle.std.specs.Prelude.{◌≡◌, ◌≤◌, ◌^◌, ◌-◌, ◌*ℤ◌, is_some, IsTrue, unsigned_abs, option_copied};
ghost use Rattle.std.specs.List.{list_all, list_any, zip, enumerate_from};
ghost use Rattle.mlir_base.specs.Numbers.{is_in_range};
ghost use Rattle.affine_maps.specs.Map.{expr_fits};
ghost use Rattle.mlir_verify.specs.Windows.{greatest, greatest_value, is_below, stays_in, operand_stays_in, is_zero, has_no_points, inputs_stay_in};
ghost use Rattle.mlir_verify.specs.Scope.{types_in};
ghost use Rattle.mlir_verify.specs.Stages.{extent_in};

use crate::scope::Scope;
use crate::tensors::extents_of;
use affine_maps::{AffineMap, Expr};
use mlir_ir::{Extent, Iter, Ty, ValueId};
use std::collections::BTreeMap;

/// The greatest coordinate along a dimension; -1 where there is none.
fn greatest(extent: Option<&Extent>) -> i64
    ensures value { result ≡ greatest (option_copied extent.entry) }
    ensures small { unsigned_abs result ≤ 2 ^ 32 - 1 }
{
    match extent {
        Some(Extent::Fixed(n)) => *n as i64 - 1,
        _ => -1,
    }
}

/// A term at the greatest coordinate of its dimension.
fn greatest_term(term: (u32, i64), extents: &BTreeMap<usize, Extent>) -> i64
    requires { IsTrue (is_in_range term.1) }
    ensures { result ≡ term.1 *ℤ greatest (extent_in extents.now term.0) }
{
    let at = greatest(extents.get(&(term.0 as usize)));
    term.1 * at
}

/// The value of a map's result at the greatest coordinates. There are fewer than 2^63 terms, so an i128 holds it.
fn greatest_value(dims: u32, e: &Expr, extents: &BTreeMap<usize, Extent>) -> i128
    requires { IsTrue (expr_fits dims e.now) }
    ensures { result ≡ greatest_value (extent_in extents.now) e.now }
{
    let mut sum = e.constant as i128;
    for term in e.terms.as_slice() {
        let part = greatest_term(*term, extents);
        sum += part as i128;
    }
    sum
}

fn is_below(n: i128, extent: Extent) -> bool
    ensures { result ≡ is_below n extent }
{
    match extent {
        Extent::Fixed(most) => n < most as i128,
        Extent::Any => false,
    }
}

fn stays_in(dims: u32, e: &Expr, extent: Extent, extents: &BTreeMap<usize, Extent>) -> bool
    requires { IsTrue (expr_fits dims e.now) }
    ensures { result ≡ stays_in (extent_in extents.now) (e.now, extent) }
{
    e.dimension().is_some() || is_below(greatest_value(dims, e, extents), extent)
}

fn stay_in(dims: u32, results: &[Expr], axes: &[Extent], extents: &BTreeMap<usize, Extent>) -> bool
    requires { IsTrue (list_all (expr_fits dims) results.now) }
    ensures { result ≡ list_all (stays_in (extent_in extents.now)) (zip results.now axes.now) }
{
    let mut left = axes;
    for e in results {
        match left {
            [x, rest @ ..] => {
                if !stays_in(dims, e, *x, extents) {
                    return false;
                }
                left = rest;
            }
            [] => return true,
        }
    }
    true
}

fn operand_stays_in(m: &AffineMap, ty: Option<&Ty>, extents: &BTreeMap<usize, Extent>) -> bool
    ensures { result ≡ operand_stays_in (extent_in extents.now) m.now (option_copied ty.entry) }
{
    let results = m.results();
    stay_in(m.dims(), results.as_slice(), extents_of(ty), extents)
}

fn operands_stay_in(
    scope: &Scope,
    maps: &[AffineMap],
    ins: &[ValueId],
    extents: &BTreeMap<usize, Extent>,
) -> bool
    ensures { result ≡ list_all (λ x. operand_stays_in (extent_in extents.now) x.0 (types_in scope.now (x.1).0)) (zip maps.now ins.now) }
{
    maps.iter()
        .zip(ins)
        .all(|(m, v)| operand_stays_in(m, scope.type_of(*v), extents))
}

fn is_zero(extent: Option<&Extent>) -> bool
    ensures { result ≡ is_zero (option_copied extent.entry) }
{
    match extent {
        Some(Extent::Fixed(n)) => *n == 0,
        _ => false,
    }
}

fn has_no_points(iterators: &[Iter], extents: &BTreeMap<usize, Extent>) -> bool
    ensures { result ≡ has_no_points (extent_in extents.now) iterators.now }
{
    iterators
        .iter()
        .enumerate()
        .any(|(d, _kind)| is_zero(extents.get(&d)))
}

/// V8: whether the elements that the inputs' maps select lie in the inputs, by the extents of the dimensions.
#[tactic(auto, unfolding(crate::specs::Windows::inputs_stay_in))]
pub(crate) fn inputs_stay_in(
    scope: &Scope,
    maps: &[AffineMap],
    iterators: &[Iter],
    ins: &[ValueId],
    extents: &BTreeMap<usize, Extent>,
) -> bool
    ensures { result ≡ inputs_stay_in (types_in scope.now) (extent_in extents.now) maps.now iterators.now ins.now }
{
    has_no_points(iterators, extents) || operands_stay_in(scope, maps, ins, extents)
}
