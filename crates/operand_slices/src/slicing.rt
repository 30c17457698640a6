ghost use Rattle.std.specs.Prelude.{◌≡◌, ◌≤◌, length, map, IsTrue, IfOk};
ghost use Rattle.std.specs.List.{list_all, list_any, zip};
ghost use Rattle.affine_maps.specs.Map.{expr_fits};
ghost use Rattle.operand_slices.specs.Slices.{is_near, names_tiled, axis_slice, operand_slice};

use crate::axes::{axis_slice, names_tiled};
use affine_maps::{AffineMap, Expr};
use index_forms::LinForm;
use mlir_base::{List, Memory};
use mlir_ir::Idx;
use std::alloc::Global;

fn any_tiled(exprs: &[Expr], tiled: &[bool]) -> bool
    ensures { result ≡ list_any (names_tiled tiled.now) exprs.now }
{
    exprs.iter().any(|e| names_tiled(tiled, e))
}

fn axes_slice(
    alloc: Global,
    dims: u32,
    exprs: &[Expr],
    extents: &[Idx],
    offsets: &[Idx],
    sizes: &[Idx],
    tiled: &[bool],
) -> Result<List<(LinForm, LinForm)>, Memory>
    requires few { dims ≤ 12 }
    requires fits { IsTrue (list_all (expr_fits dims) exprs.now) }
    requires extents { length extents.now ≡ length exprs.now }
    requires offsets { IsTrue (list_all is_near offsets.now) }
    requires sizes { IsTrue (list_all is_near sizes.now) }
    ensures { IfOk result (λ l. l ≡ map (axis_slice offsets.now sizes.now tiled.now) (zip exprs.now extents.now)) }
{
    let mut all = List::new(alloc);
    for (k, expr) in exprs.iter().enumerate() {
        let axis = axis_slice(alloc, dims, expr, &extents[k], offsets, sizes, tiled)?;
        all.push(axis)?;
    }
    Ok(all)
}

/// The tile of an operand with this map: the offset and the size of each axis, as linear forms over the numbers of values.
/// `extents` are the operand's, one for each result of the map. `offsets` and `sizes` have an entry for each of the map's
/// dimensions, of which there are at most 12; one that isn't `tiled` has the offset 0 and its extent as its size. Literals
/// lie within plus and minus 2^21.
///
/// An axis without a tiled dimension is whole. `None` exactly where no result of the map names a tiled dimension, so that
/// the operand is used whole.
pub fn operand_slice(
    alloc: Global,
    map: &AffineMap,
    extents: &[Idx],
    offsets: &[Idx],
    sizes: &[Idx],
    tiled: &[bool],
) -> Result<Option<List<(LinForm, LinForm)>>, Memory>
    requires few { map.now.dims ≤ 12 }
    requires extents { length extents.now ≡ length map.now.results }
    requires offsets { IsTrue (list_all is_near offsets.now) }
    requires sizes { IsTrue (list_all is_near sizes.now) }
    ensures { IfOk result (λ r. r ≡ operand_slice map.now extents.now offsets.now sizes.now tiled.now) }
{
    let exprs = map.results().as_slice();
    if !any_tiled(exprs, tiled) {
        return Ok(None);
    }
    match axes_slice(alloc, map.dims(), exprs, extents, offsets, sizes, tiled) {
        Ok(axes) => Ok(Some(axes)),
        Err(e) => Err(e),
    }
}
