ghost use Rattle.std.specs.Prelude.{◌≡◌, ◌^◌, ◌-◌, ◌<◌, min, length, option_copied};
ghost use Rattle.std.specs.List.{list_all};
ghost use Rattle.mlir_verify.specs.Tensors.{is_fixed, is_fixed_tensor, size_of, elements, extents_of, rank_of, is_tensor, has_elements, are_as_wide, is_alike, result_type};

use mlir_base::ElemTy;
use mlir_ir::{Extent, Ty, ValueId};

fn is_fixed(extent: &Extent) -> bool
    ensures { result ≡ is_fixed extent.now }
{
    matches!(extent, Extent::Fixed(_))
}

pub(crate) fn are_fixed(extents: &[Extent]) -> bool
    ensures { result ≡ list_all is_fixed extents.now }
{
    extents.iter().all(|x| is_fixed(x))
}

pub(crate) fn is_fixed_tensor(ty: &Ty) -> bool
    ensures { result ≡ is_fixed_tensor ty.now }
{
    match ty {
        Ty::Tensor { extents, .. } => are_fixed(extents.as_slice()),
        _ => false,
    }
}

pub(crate) fn size_of(extent: &Extent) -> u32
    ensures { result ≡ size_of extent.now }
{
    match extent {
        Extent::Fixed(n) => *n,
        Extent::Any => 0,
    }
}

/// The number of elements, or the greatest number of 64 bits where it is greater.
pub(crate) fn elements(extents: &[Extent]) -> u64
    ensures { result ≡ min (elements extents.now) (2 ^ 64 - 1) }
{
    let mut all = 1u64;
    for x in extents {
        all = all.saturating_mul(size_of(x) as u64);
    }
    all
}

/// The extents of a tensor.
pub(crate) fn extents_of<'a>(ty: Option<&'a Ty>) -> &'a [Extent]
    ensures { result.now ≡ extents_of (option_copied ty.entry) }
{
    match ty {
        Some(Ty::Tensor { extents, .. }) => extents.as_slice(),
        _ => &[],
    }
}

/// The number of axes of a tensor.
pub(crate) fn rank_of(ty: Option<&Ty>) -> usize
    ensures value { result ≡ rank_of (option_copied ty.entry) }
    ensures within { result < 2 ^ 63 }
{
    extents_of(ty).len()
}

pub(crate) fn is_tensor(ty: Option<&Ty>) -> bool
    ensures { result ≡ is_tensor (option_copied ty.entry) }
{
    matches!(ty, Some(Ty::Tensor { .. }))
}

pub(crate) fn has_elements(ty: Option<&Ty>, elem: &ElemTy) -> bool
    ensures { result ≡ has_elements (option_copied ty.entry) elem.now }
{
    match (ty, elem) {
        (Some(Ty::Tensor { elem: v, .. }), ElemTy::Int(w)) => v.bits() == w.bits(),
        _ => false,
    }
}

/// Whether two types are tensors with elements of one width.
pub(crate) fn are_as_wide(s: Option<&Ty>, t: Option<&Ty>) -> bool
    ensures { result ≡ are_as_wide (option_copied s.entry) (option_copied t.entry) }
{
    match (s, t) {
        (Some(Ty::Tensor { elem: v, .. }), Some(Ty::Tensor { elem: w, .. })) => {
            v.bits() == w.bits()
        }
        _ => false,
    }
}

/// Whether two types are tensors with elements of one width and as many axes.
pub(crate) fn is_alike(s: Option<&Ty>, t: Option<&Ty>) -> bool
    ensures { result ≡ is_alike (option_copied s.entry) (option_copied t.entry) }
{
    match (s, t) {
        (
            Some(
                Ty::Tensor {
                    extents: xs,
                    elem: v,
                },
            ),
            Some(
                Ty::Tensor {
                    extents: ys,
                    elem: w,
                },
            ),
        ) => { v.bits() == w.bits() && xs.as_slice().len() == ys.as_slice().len() }
        _ => false,
    }
}

/// The type of the one result.
pub(crate) fn result_type(results: &[(ValueId, Ty)]) -> Option<&Ty>
    ensures { option_copied result ≡ result_type results.now }
{
    match results {
        [r] => Some(&r.1),
        _ => None,
    }
}
