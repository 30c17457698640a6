//! Structured operations that have a name of their own.

ghost use Rattle.std.specs.Prelude.{◌≡◌};
ghost use Rattle.mlir_ir.specs.declared.tree.OpKind.TheVariants as kinds;
ghost use Rattle.mlir_lex.specs.Chain.{Agree, each};
ghost use Rattle.mlir_resolve.specs.Structured.{is_axis, axis_of, typed_id, output_of, fill_of, factors_of, product_of, moved_of, transpose_of, broadcast_of};

use mlir_base::List;
use mlir_ir::{OpKind, Ty, ValueId};
use mlir_lex::{Fault, Refused};
use mlir_scope::{
    Names, digits_value, is_negative, sign_place, type_at, type_of, typed_as, value_id,
};
use mlir_syntax::{
    BatchMatmul, Broadcast, Factors, Fill, Matmul, Output, SignedNumber, SourceAndOutput, Transpose,
};
use std::alloc::Global;
use text_format::Token;

fn is_axis(negative: bool, number: u64) -> bool
    ensures { result ≡ is_axis negative number }
{
    if negative {
        number == 0
    } else {
        number <= 1048576
    }
}

/// An axis, or an entry of an order.
fn read_axis(number: &SignedNumber) -> Result<u32, Refused>
    ensures { Agree result (axis_of number.now) }
{
    let at = sign_place(&number.sign, &number.digits);
    let Some(axis) = digits_value(number.digits.text()) else {
        return Err(Refused::At(Fault::Number(at, at)));
    };
    if !is_axis(is_negative(&number.sign), axis) {
        return Err(Refused::At(Fault::Number(at, at)));
    }
    Ok(axis as u32)
}

/// The axes, in order.
fn read_axes(alloc: Global, numbers: &[SignedNumber]) -> Result<List<u32>, Refused>
    ensures { Agree result (each axis_of numbers.now) }
{
    let mut found = List::new(alloc);
    for number in numbers {
        let axis = read_axis(number)?;
        found.push(axis)?;
    }
    Ok(found)
}

/// A value that is written with its type.
fn read_typed(alloc: Global, names: &Names, name: &Token, ty: &Token) -> Result<ValueId, Refused>
    ensures { Agree result (typed_id names.now name.now ty.now) }
{
    let value = value_id(names, name)?;
    typed_as(alloc, names, name, ty)?;
    Ok(value)
}

fn read_output(alloc: Global, names: &Names, output: &Output) -> Result<ValueId, Refused>
    ensures { Agree result (output_of names.now output.now) }
{
    read_typed(alloc, names, &output.name, &output.ty)
}

pub fn read_fill(alloc: Global, names: &Names, fill: &Fill) -> Result<(Ty, OpKind), Refused>
    ensures { Agree result (fill_of names.now fill.now) }
{
    let value = read_typed(alloc, names, &fill.value, &fill.value_type)?;
    let outs = read_output(alloc, names, &fill.output)?;
    let ty = type_at(alloc, &fill.result_type)?;
    Ok((ty, OpKind::Fill { value, outs }))
}

/// The factors and the output of a product.
fn read_factors(
    alloc: Global,
    names: &Names,
    factors: &Factors,
) -> Result<(ValueId, (ValueId, ValueId)), Refused>
    ensures { Agree result (factors_of names.now factors.now) }
{
    let a = value_id(names, &factors.left)?;
    let b = value_id(names, &factors.right)?;
    typed_as(alloc, names, &factors.left, &factors.left_type)?;
    typed_as(alloc, names, &factors.right, &factors.right_type)?;
    let outs = read_output(alloc, names, &factors.output)?;
    Ok((a, (b, outs)))
}

pub fn read_matmul(alloc: Global, names: &Names, matmul: &Matmul) -> Result<(Ty, OpKind), Refused>
    ensures { Agree result (product_of kinds.Matmul names.now matmul.now.factors) }
{
    let (a, (b, outs)) = read_factors(alloc, names, &matmul.factors)?;
    let ty = type_at(alloc, &matmul.factors.result_type)?;
    Ok((ty, OpKind::Matmul { a, b, outs }))
}

pub fn read_batch_matmul(
    alloc: Global,
    names: &Names,
    matmul: &BatchMatmul,
) -> Result<(Ty, OpKind), Refused>
    ensures { Agree result (product_of kinds.BatchMatmul names.now matmul.now.factors) }
{
    let (a, (b, outs)) = read_factors(alloc, names, &matmul.factors)?;
    let ty = type_at(alloc, &matmul.factors.result_type)?;
    Ok((ty, OpKind::BatchMatmul { a, b, outs }))
}

/// The source, the output, and the output's type, which is the result's.
fn read_moved(
    alloc: Global,
    names: &Names,
    operands: &SourceAndOutput,
) -> Result<(ValueId, (ValueId, Ty)), Refused>
    ensures { Agree result (moved_of names.now operands.now) }
{
    let source = read_typed(alloc, names, &operands.source, &operands.source_type)?;
    let outs = read_output(alloc, names, &operands.output)?;
    let ty = type_of(alloc, names, &operands.output.name)?;
    Ok((source, (outs, ty)))
}

pub fn read_transpose(
    alloc: Global,
    names: &Names,
    transpose: &Transpose,
) -> Result<(Ty, OpKind), Refused>
    ensures { Agree result (transpose_of names.now transpose.now) }
{
    let (source, (outs, ty)) = read_moved(alloc, names, &transpose.operands)?;
    let order = read_axes(alloc, transpose.axes.as_slice())?;
    Ok((
        ty,
        OpKind::Transpose {
            source,
            outs,
            order,
        },
    ))
}

pub fn read_broadcast(
    alloc: Global,
    names: &Names,
    broadcast: &Broadcast,
) -> Result<(Ty, OpKind), Refused>
    ensures { Agree result (broadcast_of names.now broadcast.now) }
{
    let (source, (outs, ty)) = read_moved(alloc, names, &broadcast.operands)?;
    let dims = read_axes(alloc, broadcast.axes.as_slice())?;
    Ok((ty, OpKind::Broadcast { source, outs, dims }))
}
