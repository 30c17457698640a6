ghost use Rattle.std.specs.Prelude.{◌≡◌, ◌&&◌, List, ◌∷◌, length, slice_get, option_copied};
ghost use Rattle.std.specs.List.{list_all, zip};
ghost use Rattle.affine_maps.specs.Permutation.{is_among};
ghost use Rattle.mlir_verify.specs.Extents.{is_same_extent, has_extent, are_same_extents, has_extents_of, is_product, is_batch_product, is_transposed, is_broadcast};
ghost use Rattle.mlir_verify.specs.Scope.{types_in};
ghost use Rattle.mlir_verify.specs.Stages.{are_same_after};
ghost use Rattle.mlir_ir.specs.declared.tree.Extent.{Extent};

use crate::scope::Scope;
use crate::tensors::extents_of;
use mlir_ir::{Extent, Ty, ValueId};

fn is_same_extent(x: Extent, y: Extent) -> bool
    ensures { result ≡ is_same_extent x y }
{
    match (x, y) {
        (Extent::Fixed(m), Extent::Fixed(n)) => m == n,
        _ => false,
    }
}

fn pair_up(xs: &[Extent], ys: &[Extent]) -> bool
    ensures { result ≡ list_all (λ x. is_same_extent x.0 x.1) (zip xs.now ys.now) }
{
    xs.iter().zip(ys).all(|(x, y)| is_same_extent(*x, *y))
}

fn are_same_extents(xs: &[Extent], ys: &[Extent]) -> bool
    ensures { result ≡ are_same_extents xs.now ys.now }
{
    xs.len() == ys.len() && pair_up(xs, ys)
}

/// Whether two types have the same extents.
pub(crate) fn has_extents_of(s: Option<&Ty>, t: Option<&Ty>) -> bool
    ensures { result ≡ has_extents_of (option_copied s.entry) (option_copied t.entry) }
{
    are_same_extents(extents_of(s), extents_of(t))
}

/// Whether values have the extents of the results that they stand for.
pub(crate) fn have_extents_of(scope: &Scope, values: &[ValueId], wanted: &[Ty]) -> bool
    ensures { result ≡ list_all (λ x. has_extents_of (types_in scope.now (x.0).0) (Some x.1)) (zip values.now wanted.now) }
{
    values
        .iter()
        .zip(wanted)
        .all(|(v, ty)| has_extents_of(scope.type_of(*v), Some(ty)))
}

pub(crate) fn has_extent(known: Option<&Extent>, x: Extent) -> bool
    ensures { result ≡ has_extent (option_copied known.entry) x }
{
    match known {
        Some(y) => is_same_extent(*y, x),
        None => false,
    }
}

/// Whether extents are (m, k), (k, n) and (m, n).
pub(crate) fn is_product(a: &[Extent], b: &[Extent], out: &[Extent]) -> bool
    ensures { result ≡ is_product a.now b.now out.now }
{
    match (a, b, out) {
        ([am, ak], [bk, bn], [m, n]) => {
            is_same_extent(*am, *m) && (is_same_extent(*ak, *bk) && is_same_extent(*bn, *n))
        }
        _ => false,
    }
}

/// The same with one more axis in front.
pub(crate) fn is_batch_product(a: &[Extent], b: &[Extent], out: &[Extent]) -> bool
    ensures { result ≡ is_batch_product a.now b.now out.now }
{
    match (a, b, out) {
        ([x, a @ ..], [y, b @ ..], [z, out @ ..]) => {
            is_same_extent(*x, *z) && (is_same_extent(*y, *z) && is_product(a, b, out))
        }
        _ => false,
    }
}

fn has_axis(source: &[Extent], axis: u32, x: Extent) -> bool
    ensures { result ≡ has_extent (slice_get source.now axis) x }
{
    has_extent(source.get(axis as usize), x)
}

/// Whether axis k of the output has the extent of axis `order[k]` of the source.
pub(crate) fn is_transposed(order: &[u32], source: &[Extent], out: &[Extent]) -> bool
    ensures { result ≡ is_transposed order.now source.now out.now }
{
    order.iter().zip(out).all(|(k, x)| has_axis(source, *k, *x))
}

fn is_added(axis: usize, axes: &[u32]) -> bool
    ensures { result ≡ is_among axis axes.now }
{
    axes.iter().any(|named| *named as usize == axis)
}

/// What is left of the extents behind a first one that is the same.
fn after_same<'a>(x: Extent, ys: &'a [Extent]) -> Option<&'a [Extent]>
    ensures { (xs : List Extent) → are_same_extents (x ∷ xs) ys.now ≡ are_same_after xs (option_copied result) }
{
    match ys {
        [y, rest @ ..] if is_same_extent(x, *y) => Some(rest),
        _ => None,
    }
}

/// Whether the output's axes that aren't added are the source's, in order.
pub(crate) fn is_broadcast(added: &[u32], source: &[Extent], out: &[Extent]) -> bool
    ensures { result ≡ is_broadcast added.now source.now out.now }
{
    let mut left = source;
    for (k, x) in out.iter().enumerate() {
        if is_added(k, added) {
            continue;
        }
        match after_same(*x, left) {
            Some(rest) => left = rest,
            None => return false,
        }
    }
    left.is_empty()
}
