ghost use Rattle.std.specs.Prelude.{◌≡◌, ◌≤◌, pos, Some, IsTrue, IfOk};
ghost use Rattle.std.specs.List.{list_all};
ghost use Rattle.affine_maps.specs.Map.{expr_fits};
ghost use Rattle.index_forms.specs.Forms.{number};
ghost use Rattle.operand_slices.specs.Slices.{number_of, form_of, is_near, is_tiled, names_tiled, offset_of, size_of, axis_slice};

use crate::sums::{sum_at, terms_at, terms_of};
use affine_maps::Expr;
use index_forms::LinForm;
use mlir_base::{List, Memory};
use mlir_ir::Idx;
use std::alloc::Global;

fn is_tiled(tiled: &[bool], d: u32) -> bool
    ensures { result ≡ is_tiled tiled.now d }
{
    match tiled.get(d as usize) {
        Some(is) => *is,
        None => false,
    }
}

/// Whether an expression names a dimension that is tiled.
pub(crate) fn names_tiled(tiled: &[bool], expr: &Expr) -> bool
    ensures { result ≡ names_tiled tiled.now expr.now }
{
    expr.terms.as_slice().iter().any(|t| is_tiled(tiled, t.0))
}

fn nothing(alloc: Global) -> LinForm
    ensures { result ≡ number (pos 0) }
{
    LinForm {
        constant: 0,
        terms: List::new(alloc),
    }
}

fn number_of(entry: &Idx) -> i64
    ensures { result ≡ number_of (Some entry.now) }
{
    match entry {
        Idx::Literal(n) => *n,
        Idx::Value(_) => 0,
    }
}

fn form_of(alloc: Global, entry: &Idx) -> Result<LinForm, Memory>
    ensures { IfOk result (λ f. f ≡ form_of entry.now) }
{
    let terms = terms_of(alloc, 1, Some(entry))?;
    Ok(LinForm {
        constant: number_of(entry),
        terms,
    })
}

fn offset_of(alloc: Global, dims: u32, expr: &Expr, offsets: &[Idx]) -> Result<LinForm, Memory>
    requires few { dims ≤ 12 }
    requires fits { IsTrue (expr_fits dims expr.now) }
    requires near { IsTrue (list_all is_near offsets.now) }
    ensures { IfOk result (λ f. f ≡ offset_of offsets.now expr.now) }
{
    let terms = expr.terms.as_slice();
    let constant = sum_at(dims, expr.constant, terms, offsets, 0);
    let terms = terms_at(alloc, terms, offsets)?;
    Ok(LinForm { constant, terms })
}

fn size_of(alloc: Global, dims: u32, expr: &Expr, sizes: &[Idx]) -> Result<LinForm, Memory>
    requires few { dims ≤ 12 }
    requires fits { IsTrue (expr_fits dims expr.now) }
    requires near { IsTrue (list_all is_near sizes.now) }
    ensures { IfOk result (λ f. f ≡ size_of sizes.now expr.now) }
{
    let terms = expr.terms.as_slice();
    let constant = sum_at(dims, 1, terms, sizes, 1);
    let terms = terms_at(alloc, terms, sizes)?;
    Ok(LinForm { constant, terms })
}

fn tiled_axis(
    alloc: Global,
    dims: u32,
    expr: &Expr,
    offsets: &[Idx],
    sizes: &[Idx],
) -> Result<(LinForm, LinForm), Memory>
    requires few { dims ≤ 12 }
    requires fits { IsTrue (expr_fits dims expr.now) }
    requires offsets { IsTrue (list_all is_near offsets.now) }
    requires sizes { IsTrue (list_all is_near sizes.now) }
    ensures { IfOk result (λ x. x ≡ (offset_of offsets.now expr.now, size_of sizes.now expr.now)) }
{
    let offset = offset_of(alloc, dims, expr, offsets)?;
    let size = size_of(alloc, dims, expr, sizes)?;
    Ok((offset, size))
}

fn whole_axis(alloc: Global, extent: &Idx) -> Result<(LinForm, LinForm), Memory>
    ensures { IfOk result (λ x. x ≡ (number (pos 0), form_of extent.now)) }
{
    let size = form_of(alloc, extent)?;
    Ok((nothing(alloc), size))
}

/// The offset and the size of an axis.
pub(crate) fn axis_slice(
    alloc: Global,
    dims: u32,
    expr: &Expr,
    extent: &Idx,
    offsets: &[Idx],
    sizes: &[Idx],
    tiled: &[bool],
) -> Result<(LinForm, LinForm), Memory>
    requires few { dims ≤ 12 }
    requires fits { IsTrue (expr_fits dims expr.now) }
    requires offsets { IsTrue (list_all is_near offsets.now) }
    requires sizes { IsTrue (list_all is_near sizes.now) }
    ensures { IfOk result (λ x. x ≡ axis_slice offsets.now sizes.now tiled.now (expr.now, extent.now)) }
{
    if names_tiled(tiled, expr) {
        tiled_axis(alloc, dims, expr, offsets, sizes)
    } else {
        whole_axis(alloc, extent)
    }
}
