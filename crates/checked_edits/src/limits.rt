ghost use Rattle.std.specs.Prelude.{◌≡◌, nat_le};
ghost use Rattle.std.specs.List.{list_all};
ghost use Rattle.mlir_verify.specs.Limits.{has_few_dimensions};
ghost use Rattle.checked_edits.specs.Limits.{type_keeps, kind_keeps, op_keeps, func_keeps, first_passed, limits_in_order, limits_on_types};

use crate::sizes::type_keeps;
use mlir_base::Which;
use mlir_ir::{Func, Module, Op, OpKind, Ty, ValueId};
use rewrite_base::passed;

/// The greatest number of dimensions of a `linalg.generic`.
const MOST_DIMENSIONS: usize = 12;

fn values_keep(which: Which, values: &[(ValueId, Ty)]) -> bool
    ensures { result ≡ list_all (λ d. type_keeps which d.1) values.now }
{
    values.iter().all(|d| type_keeps(which, &d.1))
}

fn types_keep(which: Which, types: &[Ty]) -> bool
    ensures { result ≡ list_all (type_keeps which) types.now }
{
    types.iter().all(|ty| type_keeps(which, ty))
}

fn has_few_dimensions(kind: &OpKind) -> bool
    ensures { result ≡ has_few_dimensions kind.now }
{
    match kind {
        OpKind::Generic { iterators, .. } => iterators.as_slice().len() <= MOST_DIMENSIONS,
        _ => true,
    }
}

fn kind_keeps(which: Which, kind: &OpKind) -> bool
    ensures { result ≡ kind_keeps which kind.now }
{
    match which {
        Which::Loops => has_few_dimensions(kind),
        _ => true,
    }
}

fn op_keeps(which: Which, op: &Op) -> bool
    ensures { result ≡ op_keeps which op.now }
{
    values_keep(which, op.results.as_slice()) && kind_keeps(which, &op.kind)
}

fn body_keeps(which: Which, ops: &[Op]) -> bool
    ensures { result ≡ list_all (op_keeps which) ops.now }
{
    ops.iter().all(|op| op_keeps(which, op))
}

fn func_keeps(which: Which, f: &Func) -> bool
    ensures { result ≡ func_keeps which f.now }
{
    values_keep(which, f.params.as_slice())
        && types_keep(which, f.results.as_slice())
        && body_keeps(which, f.body.as_slice())
}

fn keeps(which: Which, m: &Module) -> bool
    ensures { result ≡ list_all (func_keeps which) m.now.funcs }
{
    m.funcs.as_slice().iter().all(|f| func_keeps(which, f))
}

/// The first limit on types or dimensions that a module passes.
fn passed_by_types(m: &Module) -> Option<Which>
    ensures { result ≡ first_passed limits_on_types m.now.funcs }
{
    if !keeps(Which::Rank, m) {
        Some(Which::Rank)
    } else if !keeps(Which::Loops, m) {
        Some(Which::Loops)
    } else if !keeps(Which::Extent, m) {
        Some(Which::Extent)
    } else if !keeps(Which::Elements, m) {
        Some(Which::Elements)
    } else {
        None
    }
}

/// The first limit that a module passes.
pub(crate) fn first_passed(m: &Module) -> Option<Which>
    ensures { result ≡ first_passed limits_in_order m.now.funcs }
{
    match passed(m) {
        Some(which) => Some(which),
        None => passed_by_types(m),
    }
}
