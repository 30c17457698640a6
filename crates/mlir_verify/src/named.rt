ghost use Rattle.std.specs.Prelude.{◌≡◌, nat_lt, option_copied};
ghost use Rattle.std.specs.List.{list_all};
ghost use Rattle.affine_maps.specs.Permutation.{is_among, repeats};
ghost use Rattle.mlir_verify.specs.Named.{is_element, is_typed_fill, is_at_most_as_wide, is_typed_product, are_axes, is_typed_transpose, is_typed_broadcast};
ghost use Rattle.mlir_verify.specs.Scope.{types_in, constants_in};

use crate::scope::Scope;
use crate::tensors::{are_as_wide, is_alike, rank_of};
use mlir_base::ElemTy;
use mlir_ir::{Ty, ValueId};

fn is_element(scalar: Option<&Ty>, tensor: Option<&Ty>) -> bool
    ensures { result ≡ is_element (option_copied scalar.entry) (option_copied tensor.entry) }
{
    match (scalar, tensor) {
        (Some(Ty::Scalar(ElemTy::Int(v))), Some(Ty::Tensor { elem: w, .. })) => {
            v.bits() == w.bits()
        }
        _ => false,
    }
}

/// V2 of the operands of a `linalg.fill`.
pub(crate) fn is_typed_fill(scope: &Scope, value: ValueId, outs: ValueId) -> bool
    ensures { result ≡ is_typed_fill (types_in scope.now) (constants_in scope.now) value outs }
{
    is_element(scope.type_of(value), scope.type_of(outs)) && scope.is_constant(value)
}

fn is_at_most_as_wide(s: Option<&Ty>, t: Option<&Ty>) -> bool
    ensures { result ≡ is_at_most_as_wide (option_copied s.entry) (option_copied t.entry) }
{
    match (s, t) {
        (Some(Ty::Tensor { elem: v, .. }), Some(Ty::Tensor { elem: w, .. })) => {
            0 < v.bits() && v.bits() <= w.bits()
        }
        _ => false,
    }
}

/// V2 of the operands of a matmul, which have so many axes each.
pub(crate) fn is_typed_product(
    axes: usize,
    a: Option<&Ty>,
    b: Option<&Ty>,
    out: Option<&Ty>,
) -> bool
    ensures { result ≡ is_typed_product axes (option_copied a.entry) (option_copied b.entry) (option_copied out.entry) }
{
    (are_as_wide(a, b) && is_at_most_as_wide(b, out))
        && (rank_of(a) == axes && (rank_of(b) == axes && rank_of(out) == axes))
}

fn is_among(n: u32, ns: &[u32]) -> bool
    ensures { result ≡ is_among n ns.now }
{
    ns.iter().any(|m| *m == n)
}

/// Takes no memory, and time in the square of the length, which is a rank in a module that verifies.
fn repeats(ns: &[u32]) -> bool
    ensures { result ≡ repeats ns.now }
{
    for (i, n) in ns.iter().enumerate() {
        if is_among(*n, &ns[i + 1..]) {
            return true;
        }
    }
    false
}

fn are_below(ns: &[u32], rank: usize) -> bool
    ensures { result ≡ list_all (λ n. nat_lt n rank) ns.now }
{
    ns.iter().all(|n| (*n as usize) < rank)
}

fn are_axes(ns: &[u32], rank: usize) -> bool
    ensures { result ≡ are_axes ns.now rank }
{
    are_below(ns, rank) && !repeats(ns)
}

/// V2 of the operands of a `linalg.transpose`.
pub(crate) fn is_typed_transpose(order: &[u32], source: Option<&Ty>, out: Option<&Ty>) -> bool
    ensures { result ≡ is_typed_transpose order.now (option_copied source.entry) (option_copied out.entry) }
{
    is_alike(source, out) && (order.len() == rank_of(out) && are_axes(order, rank_of(out)))
}

/// V2 of the operands of a `linalg.broadcast`.
pub(crate) fn is_typed_broadcast(dims: &[u32], source: Option<&Ty>, out: Option<&Ty>) -> bool
    ensures { result ≡ is_typed_broadcast dims.now (option_copied source.entry) (option_copied out.entry) }
{
    are_as_wide(source, out)
        && (rank_of(source) + dims.len() == rank_of(out) && are_axes(dims, rank_of(out)))
}
