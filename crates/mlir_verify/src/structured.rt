ghost use Rattle.std.specs.Prelude.{◌≡◌, ℕ, not, IfOk, None, Some, if◌then◌else◌};
ghost use Rattle.std.specs.List.{list_all, zip};
ghost use Rattle.mlir_verify.specs.Extents.{keeps_output, is_product, is_batch_product, is_transposed, is_broadcast, has_extents_of};
ghost use Rattle.mlir_verify.specs.Maps.{axes, extent_of, output_map, output_dimensions};
ghost use Rattle.affine_maps.specs.Permutation.{is_among};
ghost use Rattle.mlir_verify.specs.Scope.{types_in, IsSet};
ghost use Rattle.mlir_verify.specs.Stages.{broken_loops, broken_generic, broken_points, extent_in, is_in, FitsOperands};
ghost use Rattle.mlir_verify.specs.Tensors.{extents_of};

use crate::axes::{axes_agree, axes_of, cover_dimensions, extents_by_dimension};
use crate::extents::{
    has_extents_of, have_extents_of, is_batch_product, is_broadcast, is_product, is_transposed,
};
use crate::maps::{fit_inputs, fits_operand, match_dimensions, permuted_dimensions};
use crate::rule::Rule;
use crate::scope::Scope;
use crate::tensors::{extents_of, result_type};
use crate::windows::inputs_stay_in;
use affine_maps::AffineMap;
use mlir_base::Memory;
use mlir_ir::{Extent, Func, Iter, Op, OpKind, Ty, ValueId};
use std::alloc::Global;
use std::collections::{BTreeMap, BTreeSet};

/// The dimensions of the output's map, where each map fits its operand and the output's is a projected permutation.
#[tactic(auto, unfolding(crate::specs::Maps::fit_operands))]
fn output_dimensions(
    alloc: Global,
    scope: &Scope,
    maps: &[AffineMap],
    iterators: &[Iter],
    ins: &[ValueId],
    outs: ValueId,
) -> Result<Option<BTreeSet<usize>>, Memory>
    ensures { IfOk result (λ found. FitsOperands found (types_in scope.now) maps.now iterators.now ins.now outs) }
{
    match maps.last() {
        Some(output) => {
            if !fit_inputs(scope, iterators.len(), ins, maps) {
                return Ok(None);
            }
            if !fits_operand(iterators.len(), output, scope.type_of(outs)) {
                return Ok(None);
            }
            permuted_dimensions(alloc, output)
        }
        None => Ok(None),
    }
}

/// Whether the result has the extents of the output.
fn keeps_output(scope: &Scope, results: &[(ValueId, Ty)], outs: ValueId) -> bool
    ensures { result ≡ keeps_output (types_in scope.now) results.now outs }
{
    has_extents_of(scope.type_of(outs), result_type(results))
}

/// The lowest of V5 to V8 that a `linalg.generic` breaks whose maps fit their operands, by the extent of each dimension,
/// the dimensions that the output has, and the axes that one dimension alone selects.
#[tactic(auto, unfolding(crate::specs::Stages::broken_points))]
fn broken_points(
    scope: &Scope,
    extents: &BTreeMap<usize, Extent>,
    output: &BTreeSet<usize>,
    axes: &[(usize, Extent)],
    results: &[(ValueId, Ty)],
    maps: &[AffineMap],
    iterators: &[Iter],
    ins: &[ValueId],
    outs: ValueId,
) -> Option<Rule>
    ensures { result ≡ broken_points (extent_in extents.now) (is_in output.now) axes.now (types_in scope.now) results.now maps.now iterators.now ins.now outs }
{
    if !cover_dimensions(iterators, extents) {
        return Some(Rule::V5);
    }
    if !match_dimensions(iterators, output) {
        return Some(Rule::V6);
    }
    if !(axes_agree(axes, extents) && keeps_output(scope, results, outs)) {
        return Some(Rule::V7);
    }
    if !inputs_stay_in(scope, maps, iterators, ins, extents) {
        return Some(Rule::V8);
    }
    None
}

/// The same, from the dimensions that the output has.
fn broken_box(
    alloc: Global,
    scope: &Scope,
    results: &[(ValueId, Ty)],
    maps: &[AffineMap],
    iterators: &[Iter],
    ins: &[ValueId],
    outs: ValueId,
    output: &BTreeSet<usize>,
) -> Result<Option<Rule>, Memory>
    ensures { IfOk result (λ r. IsSet output.now (output_dimensions (output_map maps.now))
        → r ≡ broken_points (extent_of (axes (types_in scope.now) maps.now ins.now outs)) (λ d. is_among d (output_dimensions (output_map maps.now)))
        (axes (types_in scope.now) maps.now ins.now outs) (types_in scope.now) results.now maps.now iterators.now ins.now outs) }
{
    let axes = match axes_of(alloc, scope, maps, ins, outs) {
        Ok(axes) => axes,
        Err(e) => return Err(e),
    };
    match extents_by_dimension(alloc, axes.as_slice()) {
        Ok(extents) => {
            Ok(broken_points(
                scope,
                &extents,
                output,
                axes.as_slice(),
                results,
                maps,
                iterators,
                ins,
                outs,
            ))
        }
        Err(e) => Err(e),
    }
}

/// The lowest of V5 to V8 that a `linalg.generic` breaks.
fn broken_generic(
    alloc: Global,
    scope: &Scope,
    results: &[(ValueId, Ty)],
    maps: &[AffineMap],
    iterators: &[Iter],
    ins: &[ValueId],
    outs: ValueId,
) -> Result<Option<Rule>, Memory>
    ensures { IfOk result (λ r. r ≡ broken_generic (types_in scope.now) results.now maps.now iterators.now ins.now outs) }
{
    match output_dimensions(alloc, scope, maps, iterators, ins, outs) {
        Ok(Some(output)) => {
            broken_box(alloc, scope, results, maps, iterators, ins, outs, &output)
        }
        Ok(None) => Ok(Some(Rule::V5)),
        Err(e) => Err(e),
    }
}

fn unless_kept(kept: bool) -> Option<Rule>
    ensures { result ≡ (if not kept then Some Rule.V7 else None) }
{
    if !kept { Some(Rule::V7) } else { None }
}

fn multiplies(scope: &Scope, a: ValueId, b: ValueId, outs: ValueId) -> bool
    ensures { result ≡ is_product (extents_of (types_in scope.now a.0)) (extents_of (types_in scope.now b.0)) (extents_of (types_in scope.now outs.0)) }
{
    is_product(
        extents_of(scope.type_of(a)),
        extents_of(scope.type_of(b)),
        extents_of(scope.type_of(outs)),
    )
}

fn multiplies_batches(scope: &Scope, a: ValueId, b: ValueId, outs: ValueId) -> bool
    ensures { result ≡ is_batch_product (extents_of (types_in scope.now a.0)) (extents_of (types_in scope.now b.0)) (extents_of (types_in scope.now outs.0)) }
{
    is_batch_product(
        extents_of(scope.type_of(a)),
        extents_of(scope.type_of(b)),
        extents_of(scope.type_of(outs)),
    )
}

fn transposes(scope: &Scope, order: &[u32], source: ValueId, outs: ValueId) -> bool
    ensures { result ≡ is_transposed order.now (extents_of (types_in scope.now source.0)) (extents_of (types_in scope.now outs.0)) }
{
    is_transposed(
        order,
        extents_of(scope.type_of(source)),
        extents_of(scope.type_of(outs)),
    )
}

fn broadcasts(scope: &Scope, added: &[u32], source: ValueId, outs: ValueId) -> bool
    ensures { result ≡ is_broadcast added.now (extents_of (types_in scope.now source.0)) (extents_of (types_in scope.now outs.0)) }
{
    is_broadcast(
        added,
        extents_of(scope.type_of(source)),
        extents_of(scope.type_of(outs)),
    )
}

/// The lowest of V5 to V8 that an operation breaks.
#[tactic(auto, unfolding(crate::specs::Stages::broken_loops, crate::specs::Stages::broken_generic, crate::specs::Maps::breaks_maps, crate::specs::Maps::breaks_iterators, crate::specs::Extents::breaks_extents, crate::specs::Extents::keeps_extents, crate::specs::Windows::breaks_windows))]
pub(crate) fn broken_loops(
    alloc: Global,
    scope: &Scope,
    func: &Func,
    op: &Op,
) -> Result<Option<Rule>, Memory>
    ensures { IfOk result (λ r. r ≡ broken_loops (types_in scope.now) func.now.results op.now.results op.now.kind) }
{
    let results = op.results.as_slice();
    match &op.kind {
        OpKind::Generic {
            maps,
            iterators,
            ins,
            outs,
            ..
        } => {
            broken_generic(
                alloc,
                scope,
                results,
                maps.as_slice(),
                iterators.as_slice(),
                ins.as_slice(),
                *outs,
            )
        }
        OpKind::Fill { outs, .. } => Ok(unless_kept(keeps_output(scope, results, *outs))),
        OpKind::Matmul { a, b, outs } => {
            Ok(unless_kept(multiplies(scope, *a, *b, *outs) && keeps_output(scope, results, *outs)))
        }
        OpKind::BatchMatmul { a, b, outs } => {
            Ok(unless_kept(
                multiplies_batches(scope, *a, *b, *outs) && keeps_output(scope, results, *outs),
            ))
        }
        OpKind::Transpose {
            source,
            outs,
            order,
        } => {
            Ok(unless_kept(
                transposes(scope, order.as_slice(), *source, *outs)
                    && keeps_output(scope, results, *outs),
            ))
        }
        OpKind::Broadcast { source, outs, dims } => {
            Ok(unless_kept(
                broadcasts(scope, dims.as_slice(), *source, *outs)
                    && keeps_output(scope, results, *outs),
            ))
        }
        OpKind::Return { values } => {
            Ok(unless_kept(have_extents_of(scope, values.as_slice(), func.results.as_slice())))
        }
        _ => Ok(None),
    }
}
