//! Tiles of an operand with the map (d0, d1) -> (d0 + 2 * d1 + 1, d1).

use affine_maps::{AffineMap, Expr};
use index_forms::LinForm;
use mlir_base::{List, Memory};
use mlir_ir::{Idx, ValueId};
use operand_slices::operand_slice;
use std::alloc::Global;

fn map(alloc: Global) -> Result<AffineMap, Memory> {
    let mut terms = List::new(alloc);
    terms.push((0u32, 1i64))?;
    terms.push((1, 2))?;
    let mut last = List::new(alloc);
    last.push((1u32, 1i64))?;
    let mut results = List::new(alloc);
    results.push(Expr { constant: 1, terms })?;
    results.push(Expr {
        constant: 0,
        terms: last,
    })?;
    AffineMap::new(2, results).ok_or(Memory)
}

/// Of an operand 20 by %9: dimension 0 at %7 of the size %8, and dimension 1 at 3 of the size 4.
fn sliced(alloc: Global, tiled: [bool; 2]) -> Result<Option<List<(LinForm, LinForm)>>, Memory> {
    let map = map(alloc)?;
    let extents = [Idx::Literal(20), Idx::Value(ValueId(9))];
    let offsets = [Idx::Value(ValueId(7)), Idx::Literal(3)];
    let sizes = [Idx::Value(ValueId(8)), Idx::Literal(4)];
    if map.dims() > 12 || map.results().len() != 2 {
        return Err(Memory);
    }
    operand_slice(alloc, &map, &extents, &offsets, &sizes, &tiled)
}

/// A form's number, and the one atom that it has once.
fn parts(f: &LinForm) -> Option<(i64, Option<u32>)> {
    match f.terms.as_slice() {
        [] => Some((f.constant, None)),
        [t] => {
            if t.1 == 1 {
                Some((f.constant, Some(t.0)))
            } else {
                None
            }
        }
        _ => None,
    }
}

fn has_axes(
    axes: &[(LinForm, LinForm)],
    wanted: &[((i64, Option<u32>), (i64, Option<u32>))],
) -> bool {
    for (k, row) in wanted.iter().enumerate() {
        match axes.get(k) {
            Some(axis) => {
                if parts(&axis.0) != Some(row.0) || parts(&axis.1) != Some(row.1) {
                    return false;
                }
            }
            None => return false,
        }
    }
    axes.len() == wanted.len()
}

#[test]
fn operands_have_tiles(rt: HostRuntime) -> Result<(), Memory> {
    let alloc = rt.alloc();
    let first = ((7, Some(7)), (6, Some(8)));
    let rows = [
        ([true, true], [first, ((3, None), (4, None))]),
        ([true, false], [first, ((0, None), (0, Some(9)))]),
        ([false, true], [first, ((3, None), (4, None))]),
    ];
    for (tiled, wanted) in rows {
        let axes = sliced(alloc, tiled)?;
        assert!(rt; axes.is_some_and(|a| has_axes(a.as_slice(), &wanted)));
    }
    assert!(rt; sliced(alloc, [false, false])?.is_none());
    Ok(())
}
