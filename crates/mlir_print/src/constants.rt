//! Constants.

ghost use Rattle.std.specs.Prelude.{◌≡◌, ◌++◌, ◌==◌, [], IfOk, OnOk, drop};
ghost use Rattle.mlir_ir.specs.declared.tree.Ty.TheVariants.{Tensor};
ghost use Rattle.std.specs.List.{list_all};
ghost use Rattle.mlir_scope.specs.Types.{counted, elements};
ghost use Rattle.mlir_print.specs.Constants.{element_words, nested_words, is_splat, dense_words, words_text};
ghost use Rattle.mlir_print.specs.OperationParts.{scalar_text_if, dense_text, constant_text_if};

use crate::literals::{number_of, write_literal, write_signed, write_truth};
use crate::types::{write_type, write_unbuilt};
use mlir_base::{ElemTy, Memory, Width};
use mlir_ir::{Extent, Ty};

/// A value of the width: a truth value, or a signed decimal.
#[tactic(auto, using(crate::proofs::Nested::number_is, crate::proofs::Nested::truth_is))]
fn write_element(out: &mut Vec<u8>, width: Width, value: u64) -> Result<(), Memory>
    ensures { OnOk result (out.new.items ≡ out.old.items ++ words_text (element_words width value)) }
{
    if width.bits() == 1 {
        write_truth(out, value)
    } else {
        write_signed(out, number_of(&ElemTy::Int(width), value))
    }
}

fn counted(extent: Extent) -> u32
    ensures { result ≡ counted extent }
{
    match extent {
        Extent::Fixed(number) => number,
        Extent::Any => 0,
    }
}

/// The cell at the front, and those behind it.
#[tactic(auto, unfolding(crate::specs::Constants::nested_words))]
fn write_first<'a>(out: &mut Vec<u8>, width: Width, cells: &'a [u64]) -> Result<&'a [u64], Memory>
    ensures { IfOk result (λ rest. (out.new.items ≡ out.old.items ++ words_text (nested_words width [] cells.now)) × (rest.now ≡ drop 1 cells.now)) }
{
    match cells {
        [] => Ok(cells),
        [cell, rest @ ..] => {
            write_element(out, width, *cell)?;
            Ok(rest)
        }
    }
}

/// The cells at the front, nested as a tensor of these extents. Answers those behind them.
fn write_nested<'a>(
    out: &mut Vec<u8>,
    width: Width,
    extents: &[Extent],
    cells: &'a [u64],
) -> Result<&'a [u64], Memory>
    ensures { IfOk result (λ rest. (out.new.items ≡ out.old.items ++ words_text (nested_words width extents.now cells.now)) × (rest.now ≡ drop (elements extents.now) cells.now)) }
{
    match extents {
        [] => write_first(out, width, cells),
        [extent, inner @ ..] => {
            out.extend_from_slice(b"[")?;
            let mut rest = cells;
            let mut before: &[u8] = b"";
            for _turn in 0..counted(*extent) {
                out.extend_from_slice(before)?;
                rest = write_nested(out, width, inner, rest)?;
                before = b", ";
            }
            out.extend_from_slice(b"]")?;
            Ok(rest)
        }
    }
}

fn are_all(cells: &[u64], cell: u64) -> bool
    ensures { result ≡ list_all (λ x. x == cell) cells.now }
{
    for other in cells {
        if *other != cell {
            return false;
        }
    }
    true
}

/// Whether there are two or more cells, and all are equal.
fn is_splat(cells: &[u64]) -> bool
    ensures { result ≡ is_splat cells.now }
{
    match cells {
        [] => false,
        [_] => false,
        [cell, others @ ..] => are_all(others, *cell),
    }
}

/// What stands between `dense<` and `>`.
fn write_cells(
    out: &mut Vec<u8>,
    width: Width,
    extents: &[Extent],
    cells: &[u64],
) -> Result<(), Memory>
    ensures { OnOk result (out.new.items ≡ out.old.items ++ words_text (dense_words width extents.now cells.now)) }
{
    match cells {
        [] => Ok(()),
        [cell, ..] => {
            if is_splat(cells) {
                return write_element(out, width, *cell);
            }
            write_nested(out, width, extents, cells)?;
            Ok(())
        }
    }
}

fn write_dense(
    out: &mut Vec<u8>,
    ty: &Ty,
    width: Width,
    extents: &[Extent],
    cells: &[u64],
) -> Result<(), Memory>
    requires { ty.now ≡ Tensor extents.now width }
    ensures { OnOk result (out.new.items ≡ out.old.items ++ dense_text extents.now width cells.now) }
{
    out.extend_from_slice(b"arith.constant dense<")?;
    write_cells(out, width, extents, cells)?;
    out.extend_from_slice(b"> : ")?;
    write_type(out, ty)
}

fn write_scalar(out: &mut Vec<u8>, elem: &ElemTy, cells: &[u64]) -> Result<(), Memory>
    ensures { OnOk result (out.new.items ≡ out.old.items ++ scalar_text_if elem.now cells.now) }
{
    match cells {
        [cell] => {
            out.extend_from_slice(b"arith.constant ")?;
            write_literal(out, elem, *cell)
        }
        _ => write_unbuilt(out),
    }
}

pub fn write_constant(out: &mut Vec<u8>, ty: &Ty, cells: &[u64]) -> Result<(), Memory>
    ensures { OnOk result (out.new.items ≡ out.old.items ++ constant_text_if ty.now cells.now) }
{
    match ty {
        Ty::Scalar(elem) => write_scalar(out, elem, cells),
        Ty::Tensor { extents, elem } => write_dense(out, ty, *elem, extents.as_slice(), cells),
        Ty::Vector { .. } => write_unbuilt(out),
    }
}
