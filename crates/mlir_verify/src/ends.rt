ghost use Rattle.std.specs.Prelude.{◌≡◌};
ghost use Rattle.std.specs.List.{list_all};
ghost use Rattle.mlir_verify.specs.Ends.{is_return, has_fixed_signature};
ghost use Rattle.mlir_verify.specs.Tensors.{is_fixed_tensor};

use crate::tensors::is_fixed_tensor;
use mlir_ir::{Func, OpKind, Ty, ValueId};

/// Whether the operation ends a function.
pub(crate) fn is_return(kind: &OpKind) -> bool
    ensures { result ≡ is_return kind.now }
{
    matches!(kind, OpKind::Return { .. })
}

fn have_fixed_params(params: &[(ValueId, Ty)]) -> bool
    ensures { result ≡ list_all (λ d. is_fixed_tensor d.1) params.now }
{
    params.iter().all(|d| is_fixed_tensor(&d.1))
}

fn are_fixed_tensors(types: &[Ty]) -> bool
    ensures { result ≡ list_all is_fixed_tensor types.now }
{
    types.iter().all(|ty| is_fixed_tensor(ty))
}

/// V4: parameters and results are tensors of fixed extents.
pub(crate) fn has_fixed_signature(func: &Func) -> bool
    ensures { result ≡ has_fixed_signature func.now }
{
    have_fixed_params(func.params.as_slice()) && are_fixed_tensors(func.results.as_slice())
}
