ghost use Rattle.std.specs.Prelude.{◌≡◌, option_copied};
ghost use Rattle.std.specs.List.{list_all, zip};
ghost use Rattle.affine_maps.specs.Map.{map_fits};
ghost use Rattle.payload_ops.specs.Payload.{payload_fits};
ghost use Rattle.mlir_verify.specs.Scope.{types_in, constants_in};
ghost use Rattle.mlir_verify.specs.Tensors.{is_alike};
ghost use Rattle.mlir_verify.specs.Named.{is_typed_product, is_typed_transpose, is_typed_broadcast};
ghost use Rattle.mlir_verify.specs.Types.{names_present, is_input, is_typed_payload, is_typed_generic, is_typed_return, gives_output, is_typed};

use crate::constants::has_cells;
use crate::named::{is_typed_broadcast, is_typed_fill, is_typed_product, is_typed_transpose};
use crate::scope::Scope;
use crate::tensors::{has_elements, is_alike, is_tensor, result_type};
use affine_maps::AffineMap;
use mlir_base::ElemTy;
use mlir_ir::{Func, Iter, Op, OpKind, Ty, ValueId};
use payload_ops::{Payload, PayloadStep, StepOp};

fn names_present(dims: usize, captured: usize, op: &StepOp) -> bool
    ensures { result ≡ names_present dims captured op.now }
{
    match op {
        StepOp::Index(d) => (*d as usize) < dims,
        StepOp::Captured(k) => (*k as usize) < captured,
        _ => true,
    }
}

fn are_present(dims: usize, captured: usize, steps: &[PayloadStep]) -> bool
    ensures { result ≡ list_all (λ s. names_present dims captured s.op) steps.now }
{
    steps.iter().all(|s| names_present(dims, captured, &s.op))
}

fn is_input(ty: Option<&Ty>, constant: bool, elem: &ElemTy) -> bool
    ensures { result ≡ is_input (option_copied ty.entry) constant elem.now }
{
    match (ty, elem) {
        (Some(Ty::Tensor { elem: v, .. }), ElemTy::Int(w)) => v.bits() == w.bits(),
        (Some(Ty::Scalar(ElemTy::Int(v))), ElemTy::Int(w)) => v.bits() == w.bits() && constant,
        _ => false,
    }
}

fn are_inputs(scope: &Scope, ins: &[ValueId], elems: &[ElemTy]) -> bool
    ensures { result ≡ list_all (λ x. is_input (types_in scope.now (x.0).0) (constants_in scope.now (x.0).0) x.1) (zip ins.now elems.now) }
{
    ins.iter().zip(elems).all(|(v, elem)| is_input(scope.type_of(*v), scope.is_constant(*v), elem))
}

/// The type keeps that the steps of a payload fit together.
fn fits(payload: &Payload) -> bool
    ensures { result ≡ payload_fits payload.now }
{
    let _steps = payload.steps();
    true
}

fn is_typed_payload(
    scope: &Scope,
    dims: usize,
    ins: &[ValueId],
    outs: ValueId,
    captured: &[ValueId],
    payload: &Payload,
) -> bool
    ensures { result ≡ is_typed_payload (types_in scope.now) (constants_in scope.now) dims ins.now outs captured.now payload.now }
{
    let elems = payload.ins().as_slice();
    (ins.len() == elems.len() && are_inputs(scope, ins, elems))
        && (has_elements(scope.type_of(outs), &payload.out())
            && (are_present(dims, captured.len(), payload.steps().as_slice()) && fits(payload)))
}

/// The type keeps that the terms of a map name its dimensions.
fn is_map(map: &AffineMap) -> bool
    ensures { result ≡ map_fits map.now }
{
    let _results = map.results();
    true
}

fn are_maps(maps: &[AffineMap]) -> bool
    ensures { result ≡ list_all map_fits maps.now }
{
    maps.iter().all(|map| is_map(map))
}

fn is_typed_generic(
    scope: &Scope,
    maps: &[AffineMap],
    iterators: &[Iter],
    ins: &[ValueId],
    outs: ValueId,
    captured: &[ValueId],
    payload: &Payload,
) -> bool
    ensures { result ≡ is_typed_generic (types_in scope.now) (constants_in scope.now) maps.now iterators.now ins.now outs captured.now payload.now }
{
    (maps.len() == ins.len() + 1 && (captured.is_empty() && are_maps(maps)))
        && is_typed_payload(scope, iterators.len(), ins, outs, captured, payload)
}

fn is_matmul(scope: &Scope, axes: usize, a: ValueId, b: ValueId, outs: ValueId) -> bool
    ensures { result ≡ is_typed_product axes (types_in scope.now a.0) (types_in scope.now b.0) (types_in scope.now outs.0) }
{
    is_typed_product(
        axes,
        scope.type_of(a),
        scope.type_of(b),
        scope.type_of(outs),
    )
}

fn is_transpose(scope: &Scope, order: &[u32], source: ValueId, outs: ValueId) -> bool
    ensures { result ≡ is_typed_transpose order.now (types_in scope.now source.0) (types_in scope.now outs.0) }
{
    is_typed_transpose(order, scope.type_of(source), scope.type_of(outs))
}

fn is_broadcast(scope: &Scope, dims: &[u32], source: ValueId, outs: ValueId) -> bool
    ensures { result ≡ is_typed_broadcast dims.now (types_in scope.now source.0) (types_in scope.now outs.0) }
{
    is_typed_broadcast(dims, scope.type_of(source), scope.type_of(outs))
}

fn are_alike(scope: &Scope, values: &[ValueId], wanted: &[Ty]) -> bool
    ensures { result ≡ list_all (λ x. is_alike (types_in scope.now (x.0).0) (Some x.1)) (zip values.now wanted.now) }
{
    values
        .iter()
        .zip(wanted)
        .all(|(v, ty)| is_alike(scope.type_of(*v), Some(ty)))
}

fn is_typed_return(scope: &Scope, func: &Func, op: &Op, values: &[ValueId]) -> bool
    ensures { result ≡ is_typed_return (types_in scope.now) func.now.results op.now.results values.now }
{
    let wanted = func.results.as_slice();
    (op.results.as_slice().is_empty() && values.len() == wanted.len())
        && are_alike(scope, values, wanted)
}

fn gives_output(scope: &Scope, op: &Op, outs: ValueId) -> bool
    ensures { result ≡ gives_output (types_in scope.now) op.now.results outs }
{
    is_alike(scope.type_of(outs), result_type(op.results.as_slice()))
}

/// V2 of an operation that is built.
#[tactic(auto, unfolding(crate::specs::Types::is_typed))]
pub(crate) fn is_typed(scope: &Scope, func: &Func, op: &Op) -> bool
    ensures { result ≡ is_typed (types_in scope.now) (constants_in scope.now) func.now.results op.now.results op.now.kind }
{
    match &op.kind {
        OpKind::Constant { value } => {
            has_cells(result_type(op.results.as_slice()), value.as_slice())
        }
        OpKind::Empty { sizes } => sizes.as_slice().is_empty()
            && is_tensor(result_type(op.results.as_slice())),
        OpKind::Generic {
            maps,
            iterators,
            ins,
            outs,
            captured,
            payload,
        } => {
            is_typed_generic(
                scope,
                maps.as_slice(),
                iterators.as_slice(),
                ins.as_slice(),
                *outs,
                captured.as_slice(),
                payload,
            ) && gives_output(scope, op, *outs)
        }
        OpKind::Fill { value, outs } => {
            is_typed_fill(scope, *value, *outs) && gives_output(scope, op, *outs)
        }
        OpKind::Matmul { a, b, outs } => {
            is_matmul(scope, 2, *a, *b, *outs) && gives_output(scope, op, *outs)
        }
        OpKind::BatchMatmul { a, b, outs } => {
            is_matmul(scope, 3, *a, *b, *outs) && gives_output(scope, op, *outs)
        }
        OpKind::Transpose {
            source,
            outs,
            order,
        } => is_transpose(scope, order.as_slice(), *source, *outs)
            && gives_output(scope, op, *outs),
        OpKind::Broadcast { source, outs, dims } => is_broadcast(
            scope,
            dims.as_slice(),
            *source,
            *outs,
        ) && gives_output(scope, op, *outs),
        OpKind::Return { values } => is_typed_return(scope, func, op, values.as_slice()),
        _ => true,
    }
}
