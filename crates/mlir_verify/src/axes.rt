ghost use Rattle.std.specs.Prelude.{◌≡◌, [], ◌∷◌, ◌++◌, ℕ, is_some, IfOk, OnOk, option_copied};
ghost use Rattle.std.specs.List.{list_all, zip, enumerate_from, flat_map, filter_map, cons_option};
ghost use Rattle.mlir_ir.specs.Count.{first};
ghost use Rattle.mlir_verify.specs.Maps.{axis, operand_axes, output_axes, extent_of, axes};
ghost use Rattle.mlir_verify.specs.Extents.{has_extent};
ghost use Rattle.mlir_verify.specs.Scope.{types_in};
ghost use Rattle.mlir_verify.specs.Stages.{extent_in};

use crate::extents::has_extent;
use crate::scope::Scope;
use crate::tensors::extents_of;
use affine_maps::{AffineMap, Expr};
use mlir_base::Memory;
use mlir_ir::{Extent, Iter, Ty, ValueId};
use std::alloc::Global;
use std::collections::BTreeMap;

/// Adds an axis, where its map's result is one dimension alone.
fn push_axis(axes: &mut Vec<(usize, Extent)>, e: &Expr, x: Extent) -> Result<(), Memory>
    ensures { OnOk result (axes.new.items ≡ axes.old.items ++ cons_option (axis (e.now, x)) []) }
{
    match e.dimension() {
        Some(d) => match axes.push((d as usize, x)) {
            Ok(()) => Ok(()),
            Err(_) => Err(Memory),
        },
        None => Ok(()),
    }
}

fn push_axes(
    axes: &mut Vec<(usize, Extent)>,
    results: &[Expr],
    extents: &[Extent],
) -> Result<(), Memory>
    ensures { OnOk result (axes.new.items ≡ axes.old.items ++ filter_map axis (zip results.now extents.now)) }
{
    let mut left = extents;
    for e in results {
        match left {
            [x, rest @ ..] => {
                match push_axis(axes, e, *x) {
                    Ok(()) => {}
                    Err(e) => return Err(e),
                }
                left = rest;
            }
            [] => return Ok(()),
        }
    }
    Ok(())
}

/// Adds the axes of an operand that one dimension alone selects.
fn push_operand_axes(
    axes: &mut Vec<(usize, Extent)>,
    m: &AffineMap,
    ty: Option<&Ty>,
) -> Result<(), Memory>
    ensures { OnOk result (axes.new.items ≡ axes.old.items ++ operand_axes m.now (option_copied ty.entry)) }
{
    push_axes(axes, m.results().as_slice(), extents_of(ty))
}

fn push_input_axes(
    axes: &mut Vec<(usize, Extent)>,
    scope: &Scope,
    maps: &[AffineMap],
    ins: &[ValueId],
) -> Result<(), Memory>
    ensures { OnOk result (axes.new.items ≡ axes.old.items ++ flat_map (λ x. operand_axes x.0 (types_in scope.now (x.1).0)) (zip maps.now ins.now)) }
{
    let mut left = ins;
    for m in maps {
        match left {
            [v, rest @ ..] => {
                match push_operand_axes(axes, m, scope.type_of(*v)) {
                    Ok(()) => {}
                    Err(e) => return Err(e),
                }
                left = rest;
            }
            [] => return Ok(()),
        }
    }
    Ok(())
}

fn push_output_axes(
    axes: &mut Vec<(usize, Extent)>,
    m: Option<&AffineMap>,
    ty: Option<&Ty>,
) -> Result<(), Memory>
    ensures { OnOk result (axes.new.items ≡ axes.old.items ++ output_axes (option_copied m.entry) (option_copied ty.entry)) }
{
    match m {
        Some(m) => push_operand_axes(axes, m, ty),
        None => Ok(()),
    }
}

/// The axes of all operands that one dimension alone selects, each with its dimension.
pub(crate) fn axes_of(
    alloc: Global,
    scope: &Scope,
    maps: &[AffineMap],
    ins: &[ValueId],
    outs: ValueId,
) -> Result<Vec<(usize, Extent)>, Memory>
    ensures { IfOk result (λ all. all.items ≡ axes (types_in scope.now) maps.now ins.now outs) }
{
    let mut all = Vec::new(alloc);
    match push_input_axes(&mut all, scope, maps, ins) {
        Ok(()) => {}
        Err(e) => return Err(e),
    }
    match push_output_axes(&mut all, maps.last(), scope.type_of(outs)) {
        Ok(()) => Ok(all),
        Err(e) => Err(e),
    }
}

/// Gives a dimension its extent, where it has none.
fn set_extent(extents: &mut BTreeMap<usize, Extent>, d: usize, x: Extent) -> Result<(), Memory>
    ensures { OnOk result ((q : ℕ) → extent_in extents.new q ≡ first (extent_in extents.old q) (extent_of ((d, x) ∷ []) q)) }
{
    if extents.contains_key(&d) {
        return Ok(());
    }
    match extents.insert(d, x) {
        Ok(_) => Ok(()),
        Err(_) => Err(Memory),
    }
}

/// The extent of each dimension: that of the first axis that it selects.
pub(crate) fn extents_by_dimension(
    alloc: Global,
    axes: &[(usize, Extent)],
) -> Result<BTreeMap<usize, Extent>, Memory>
    ensures { IfOk result (λ m. (d : ℕ) → extent_in m d ≡ extent_of axes.now d) }
{
    let mut extents = BTreeMap::new(alloc);
    for a in axes {
        match set_extent(&mut extents, a.0, a.1) {
            Ok(()) => {}
            Err(e) => return Err(e),
        }
    }
    Ok(extents)
}

/// Whether each axis has the extent of its dimension.
pub(crate) fn axes_agree(axes: &[(usize, Extent)], extents: &BTreeMap<usize, Extent>) -> bool
    ensures { result ≡ list_all (λ a. has_extent (extent_in extents.now a.0) a.1) axes.now }
{
    axes.iter().all(|a| has_extent(extents.get(&a.0), a.1))
}

fn is_selected(extents: &BTreeMap<usize, Extent>, d: usize) -> bool
    ensures { result ≡ is_some (extent_in extents.now d) }
{
    extents.get(&d).is_some()
}

/// Whether each dimension selects some axis alone.
pub(crate) fn cover_dimensions(iterators: &[Iter], extents: &BTreeMap<usize, Extent>) -> bool
    ensures { result ≡ list_all (λ i. is_some (extent_in extents.now i.0)) (enumerate_from 0 iterators.now) }
{
    iterators
        .iter()
        .enumerate()
        .all(|(d, _kind)| is_selected(extents, d))
}
