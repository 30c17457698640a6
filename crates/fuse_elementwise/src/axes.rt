//! The axes of operands that one dimension alone selects.

ghost use Rattle.std.specs.Prelude.{◌≡◌, ◌==◌, true, ◌++◌, [], ◌∷◌, length, map, is_some, IfOk, OnOk, option_copied};
ghost use Rattle.std.specs.List.{list_all, zip, flat_map, filter_map, enumerate_from};
ghost use Rattle.affine_maps.specs.Compose.{composed, composed_expr};
ghost use Rattle.affine_maps.specs.Permutation.{dimension_of};
ghost use Rattle.mlir_edits.specs.Places.{scope_before};
ghost use Rattle.mlir_verify.specs.Extents.{axes_agree, has_extent, is_same_extent};
ghost use Rattle.mlir_verify.specs.Maps.{axes, axis, extent_of, operand_axes, output_axes, output_map};
ghost use Rattle.mlir_verify.specs.Place.{type_among};
ghost use Rattle.mlir_verify.specs.Tensors.{extents_of};
ghost use Rattle.fuse_elementwise.specs.Axes.{axis_of};

use crate::composing::composed_dimension;
use affine_maps::{AffineMap, Expr};
use mlir_base::Memory;
use mlir_edits::type_before;
use mlir_ir::{Extent, Func, Iter, Ty, ValueId};
use std::alloc::Global;

/// The extents of a tensor.
fn extents_of<'a>(ty: Option<&'a Ty>) -> &'a [Extent]
    ensures { result.now ≡ extents_of (option_copied ty.entry) }
{
    match ty {
        Some(Ty::Tensor { extents, .. }) => extents.as_slice(),
        _ => &[],
    }
}

/// Adds an axis, where a dimension selects it.
fn push_axis(
    axes: &mut Vec<(usize, Extent)>,
    selected: Option<u32>,
    x: Extent,
) -> Result<(), Memory>
    ensures { OnOk result (axes.new.items ≡ axes.old.items ++ axis_of selected x) }
{
    match selected {
        Some(d) => match axes.push((d as usize, x)) {
            Ok(()) => Ok(()),
            Err(_) => Err(Memory),
        },
        None => Ok(()),
    }
}

/// Adds the axes of an operand of these extents.
fn push_axes(
    axes: &mut Vec<(usize, Extent)>,
    results: &[Expr],
    extents: &[Extent],
) -> Result<(), Memory>
    ensures { OnOk result (axes.new.items ≡ axes.old.items ++ filter_map axis (zip results.now extents.now)) }
{
    let mut left = extents;
    for e in results {
        match left {
            [x, rest @ ..] => {
                match push_axis(axes, e.dimension(), *x) {
                    Ok(()) => {}
                    Err(e) => return Err(e),
                }
                left = rest;
            }
            [] => return Ok(()),
        }
    }
    Ok(())
}

/// Adds the axes of an operand of these extents, whose map is this one after an inner one.
fn push_composed_axes(
    alloc: Global,
    axes: &mut Vec<(usize, Extent)>,
    m: &AffineMap,
    inner: &AffineMap,
    extents: &[Extent],
) -> Result<(), Memory>
    requires { length inner.now.results ≡ m.now.dims }
    ensures { OnOk result (axes.new.items ≡ axes.old.items ++ filter_map axis (zip (map (composed_expr inner.now.dims inner.now.results) m.now.results) extents.now)) }
{
    let mut left = extents;
    for e in m.results().as_slice() {
        match left {
            [x, rest @ ..] => {
                let selected = composed_dimension(alloc, m.dims(), e, inner)?;
                match push_axis(axes, selected, *x) {
                    Ok(()) => {}
                    Err(e) => return Err(e),
                }
                left = rest;
            }
            [] => return Ok(()),
        }
    }
    Ok(())
}

/// Adds the axes of inputs, by the types at a position of a body.
pub(crate) fn push_inputs(
    axes: &mut Vec<(usize, Extent)>,
    f: &Func,
    position: usize,
    maps: &[AffineMap],
    ins: &[ValueId],
) -> Result<(), Memory>
    ensures { OnOk result (axes.new.items ≡ axes.old.items ++ flat_map (λ x. operand_axes x.0 (type_among (scope_before f.now position) (x.1).0)) (zip maps.now ins.now)) }
{
    let mut left = ins;
    for m in maps {
        match left {
            [v, rest @ ..] => {
                let extents = extents_of(type_before(f, position, *v));
                match push_axes(axes, m.results().as_slice(), extents) {
                    Ok(()) => {}
                    Err(e) => return Err(e),
                }
                left = rest;
            }
            [] => return Ok(()),
        }
    }
    Ok(())
}

/// Adds the axes of inputs whose maps are these after an inner one.
pub(crate) fn push_composed_inputs(
    alloc: Global,
    axes: &mut Vec<(usize, Extent)>,
    f: &Func,
    position: usize,
    maps: &[AffineMap],
    inner: &AffineMap,
    ins: &[ValueId],
) -> Result<(), Memory>
    requires { list_all (λ m. length inner.now.results == m.dims) maps.now ≡ true }
    ensures { OnOk result (axes.new.items ≡ axes.old.items ++ flat_map (λ x. operand_axes (composed x.0 inner.now) (type_among (scope_before f.now position) (x.1).0)) (zip maps.now ins.now)) }
{
    let mut left = ins;
    for m in maps {
        match left {
            [v, rest @ ..] => {
                let extents = extents_of(type_before(f, position, *v));
                match push_composed_axes(alloc, axes, m, inner, extents) {
                    Ok(()) => {}
                    Err(e) => return Err(e),
                }
                left = rest;
            }
            [] => return Ok(()),
        }
    }
    Ok(())
}

/// Adds the axes of an output.
pub(crate) fn push_output(
    axes: &mut Vec<(usize, Extent)>,
    f: &Func,
    position: usize,
    m: Option<&AffineMap>,
    outs: ValueId,
) -> Result<(), Memory>
    ensures { OnOk result (axes.new.items ≡ axes.old.items ++ output_axes (option_copied m.entry) (type_among (scope_before f.now position) outs.0)) }
{
    match m {
        Some(m) => push_axes(
            axes,
            m.results().as_slice(),
            extents_of(type_before(f, position, outs)),
        ),
        None => Ok(()),
    }
}

/// The extent of a dimension: that of the first axis that it selects.
fn extent_of(axes: &[(usize, Extent)], d: usize) -> Option<Extent>
    ensures { result ≡ extent_of axes.now d }
{
    for a in axes {
        if a.0 == d {
            return Some(a.1);
        }
    }
    None
}

fn is_same_extent(x: Extent, y: Extent) -> bool
    ensures { result ≡ is_same_extent x y }
{
    match (x, y) {
        (Extent::Fixed(m), Extent::Fixed(n)) => m == n,
        _ => false,
    }
}

fn has_extent(known: Option<Extent>, x: Extent) -> bool
    ensures { result ≡ has_extent known x }
{
    match known {
        Some(y) => is_same_extent(y, x),
        None => false,
    }
}

/// Whether each axis has the extent of its dimension.
pub(crate) fn axes_agree(axes: &[(usize, Extent)]) -> bool
    ensures { result ≡ axes_agree axes.now }
{
    axes.iter().all(|a| has_extent(extent_of(axes, a.0), a.1))
}

fn is_selected(axes: &[(usize, Extent)], d: usize) -> bool
    ensures { result ≡ is_some (extent_of axes.now d) }
{
    extent_of(axes, d).is_some()
}

/// Whether each dimension selects some axis alone.
pub(crate) fn cover_dimensions(iterators: &[Iter], axes: &[(usize, Extent)]) -> bool
    ensures { result ≡ list_all (λ i. is_some (extent_of axes.now i.0)) (enumerate_from 0 iterators.now) }
{
    iterators
        .iter()
        .enumerate()
        .all(|(d, _kind)| is_selected(axes, d))
}
