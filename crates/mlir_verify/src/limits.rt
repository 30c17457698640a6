ghost use Rattle.std.specs.Prelude.{◌≡◌, ◌&&◌, ◌||◌, not, nat_le};
ghost use Rattle.std.specs.List.{list_all};
ghost use Rattle.mlir_verify.specs.Limits.{is_small, is_small_type, has_few_dimensions, has_small_signature, is_small_op};
ghost use Rattle.mlir_verify.specs.Stages.{is_past_limits};
ghost use Rattle.mlir_verify.specs.Tensors.{size_of, elements};

use crate::tensors::{elements, size_of};
use mlir_ir::{Extent, Func, Op, OpKind, Ty, ValueId};

/// The greatest number of axes of a tensor.
const MOST_AXES: usize = 8;

/// The greatest number of dimensions of a `linalg.generic`.
const MOST_DIMENSIONS: usize = 12;

/// The greatest extent of an axis.
const MOST_EXTENT: u32 = 1_048_576;

/// The greatest number of elements of a tensor.
const MOST_ELEMENTS: u64 = 4_194_304;

fn are_small_extents(extents: &[Extent]) -> bool
    ensures { result ≡ list_all (λ x. nat_le (size_of x) 1048576) extents.now }
{
    extents.iter().all(|x| size_of(x) <= MOST_EXTENT)
}

fn are_few_elements(extents: &[Extent]) -> bool
    ensures { result ≡ nat_le (elements extents.now) 4194304 }
{
    elements(extents) <= MOST_ELEMENTS
}

fn is_small(extents: &[Extent]) -> bool
    ensures { result ≡ is_small extents.now }
{
    extents.len() <= MOST_AXES && (are_small_extents(extents) && are_few_elements(extents))
}

fn is_small_type(ty: &Ty) -> bool
    ensures { result ≡ is_small_type ty.now }
{
    match ty {
        Ty::Tensor { extents, .. } => is_small(extents.as_slice()),
        _ => true,
    }
}

fn are_small_values(values: &[(ValueId, Ty)]) -> bool
    ensures { result ≡ list_all (λ d. is_small_type d.1) values.now }
{
    values.iter().all(|d| is_small_type(&d.1))
}

fn are_small_types(types: &[Ty]) -> bool
    ensures { result ≡ list_all is_small_type types.now }
{
    types.iter().all(|ty| is_small_type(ty))
}

fn has_few_dimensions(kind: &OpKind) -> bool
    ensures { result ≡ has_few_dimensions kind.now }
{
    match kind {
        OpKind::Generic { iterators, .. } => iterators.as_slice().len() <= MOST_DIMENSIONS,
        _ => true,
    }
}

fn has_small_signature(func: &Func) -> bool
    ensures { result ≡ has_small_signature func.now }
{
    are_small_values(func.params.as_slice()) && are_small_types(func.results.as_slice())
}

fn is_small_op(op: &Op) -> bool
    ensures { result ≡ is_small_op op.now }
{
    are_small_values(op.results.as_slice()) && has_few_dimensions(&op.kind)
}

/// V14: whether the operation, or the function's signature at its first operation, passes a limit.
pub(crate) fn is_past_limits(func: &Func, op: &Op, first: bool) -> bool
    ensures { result ≡ is_past_limits first func.now op.now }
{
    !is_small_op(op) || (first && !has_small_signature(func))
}
