ghost use Rattle.std.specs.Prelude.{◌≡◌, ◌^◌, ◌-◌, min, nat_le};
ghost use Rattle.std.specs.List.{list_all};
ghost use Rattle.mlir_verify.specs.Tensors.{size_of, elements};
ghost use Rattle.checked_edits.specs.Limits.{extents_keep, type_keeps};

use mlir_base::Which;
use mlir_ir::{Extent, Ty};

/// The greatest number of axes of a tensor.
const MOST_AXES: usize = 8;

/// The greatest extent of an axis.
const MOST_EXTENT: u32 = 1_048_576;

/// The greatest number of elements of a tensor.
const MOST_ELEMENTS: u64 = 4_194_304;

fn size_of(extent: &Extent) -> u32
    ensures { result ≡ size_of extent.now }
{
    match extent {
        Extent::Fixed(n) => *n,
        Extent::Any => 0,
    }
}

fn are_small(extents: &[Extent]) -> bool
    ensures { result ≡ list_all (λ x. nat_le (size_of x) 1048576) extents.now }
{
    extents.iter().all(|x| size_of(x) <= MOST_EXTENT)
}

/// The number of elements, or the greatest number of 64 bits where it is greater.
fn elements(extents: &[Extent]) -> u64
    ensures { result ≡ min (elements extents.now) (2 ^ 64 - 1) }
{
    let mut all = 1u64;
    for x in extents {
        all = all.saturating_mul(size_of(x) as u64);
    }
    all
}

fn are_few_elements(extents: &[Extent]) -> bool
    ensures { result ≡ nat_le (elements extents.now) 4194304 }
{
    elements(extents) <= MOST_ELEMENTS
}

fn extents_keep(which: Which, extents: &[Extent]) -> bool
    ensures { result ≡ extents_keep which extents.now }
{
    match which {
        Which::Rank => extents.len() <= MOST_AXES,
        Which::Extent => are_small(extents),
        Which::Elements => are_few_elements(extents),
        _ => true,
    }
}

/// Whether a type keeps a limit.
pub(crate) fn type_keeps(which: Which, ty: &Ty) -> bool
    ensures { result ≡ type_keeps which ty.now }
{
    match ty {
        Ty::Tensor { extents, .. } => extents_keep(which, extents.as_slice()),
        _ => true,
    }
}
