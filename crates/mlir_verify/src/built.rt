ghost use Rattle.std.specs.Prelude.{◌≡◌};
ghost use Rattle.std.specs.List.{list_all};
ghost use Rattle.mlir_verify.specs.Built.{is_integer, is_built_type, is_built_kind, is_built};

use crate::tensors::are_fixed;
use mlir_base::ElemTy;
use mlir_ir::{Op, OpKind, Ty, ValueId};

fn is_integer(elem: &ElemTy) -> bool
    ensures { result ≡ is_integer elem.now }
{
    matches!(elem, ElemTy::Int(_))
}

fn is_built_type(ty: &Ty) -> bool
    ensures { result ≡ is_built_type ty.now }
{
    match ty {
        Ty::Scalar(elem) => is_integer(elem),
        Ty::Tensor { extents, .. } => are_fixed(extents.as_slice()),
        Ty::Vector { .. } => false,
    }
}

fn are_built_results(results: &[(ValueId, Ty)]) -> bool
    ensures { result ≡ list_all (λ r. is_built_type r.1) results.now }
{
    results.iter().all(|r| is_built_type(&r.1))
}

fn is_built_kind(kind: &OpKind) -> bool
    ensures { result ≡ is_built_kind kind.now }
{
    match kind {
        OpKind::Constant { .. } => true,
        OpKind::Empty { .. } => true,
        OpKind::Generic { .. } => true,
        OpKind::Fill { .. } => true,
        OpKind::Matmul { .. } => true,
        OpKind::BatchMatmul { .. } => true,
        OpKind::Transpose { .. } => true,
        OpKind::Broadcast { .. } => true,
        OpKind::Return { .. } => true,
        _ => false,
    }
}

/// Whether this verifier covers the operation.
#[tactic(auto, unfolding(crate::specs::Built::is_built))]
pub(crate) fn is_built(op: &Op) -> bool
    ensures { result ≡ is_built op.now }
{
    is_built_kind(&op.kind) && are_built_results(op.results.as_slice())
}
