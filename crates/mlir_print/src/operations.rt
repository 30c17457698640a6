//! Operations.

ghost use Rattle.std.specs.Prelude.{◌≡◌, ◌<◌, ◌≤◌, ◌^◌, ◌++◌, ◌+◌, [], OnOk};
ghost use Rattle.mlir_print.specs.Operations.{inner_args, inner_results, next};
ghost use Rattle.mlir_print.specs.Returns.{returned_text, return_text};
ghost use Rattle.mlir_print.specs.OperationParts.{empty_text_if, generic_text_if, operation_text, defined_text, line_text};

use crate::aliases::Aliases;
use crate::constants::write_constant;
use crate::generics::{Parts, write_generic};
use crate::names::{Given, Names};
use crate::structured::{
    Product, write_batch_matmul, write_broadcast, write_fill, write_matmul, write_transpose,
};
use crate::types::{write_name, write_type, write_unbuilt};
use crate::values::{write_types, write_values};
use mlir_base::Memory;
use mlir_ir::{Op, OpKind, Ty, ValueId};

fn write_empty(out: &mut Vec<u8>, sizes: &[ValueId], ty: &Ty) -> Result<(), Memory>
    ensures { OnOk result (out.new.items ≡ out.old.items ++ empty_text_if sizes.now ty.now) }
{
    match sizes {
        [] => {
            out.extend_from_slice(b"tensor.empty() : ")?;
            write_type(out, ty)
        }
        _ => write_unbuilt(out),
    }
}

/// A generic operation, where nothing is captured.
fn write_plain(
    out: &mut Vec<u8>,
    aliases: &Aliases,
    names: &Names,
    ty: &Ty,
    captured: &[ValueId],
    parts: Parts,
) -> Result<(), Memory>
    ensures { OnOk result (out.new.items ≡ out.old.items ++ generic_text_if captured.now aliases.now names.now ty.now parts.entry.maps.now parts.entry.iterators.now parts.entry.ins.now parts.entry.outs parts.entry.payload.now) }
{
    match captured {
        [] => write_generic(out, aliases, names, ty, parts),
        _ => write_unbuilt(out),
    }
}

#[tactic(auto, unfolding(crate::specs::OperationParts::operation_text))]
fn write_operation(
    out: &mut Vec<u8>,
    aliases: &Aliases,
    names: &Names,
    ty: &Ty,
    kind: &OpKind,
) -> Result<(), Memory>
    ensures { OnOk result (out.new.items ≡ out.old.items ++ operation_text aliases.now names.now ty.now kind.now) }
{
    match kind {
        OpKind::Constant { value } => write_constant(out, ty, value.as_slice()),
        OpKind::Empty { sizes } => write_empty(out, sizes.as_slice(), ty),
        OpKind::Generic {
            maps,
            iterators,
            ins,
            outs,
            captured,
            payload,
        } => {
            let parts = Parts {
                maps: maps.as_slice(),
                iterators: iterators.as_slice(),
                ins: ins.as_slice(),
                outs: *outs,
                payload,
            };
            write_plain(out, aliases, names, ty, captured.as_slice(), parts)
        }
        OpKind::Fill { value, outs } => write_fill(out, names, ty, *value, *outs),
        OpKind::Matmul { a, b, outs } => {
            let product = Product {
                a: *a,
                b: *b,
                outs: *outs,
            };
            write_matmul(out, names, ty, product)
        }
        OpKind::BatchMatmul { a, b, outs } => {
            let product = Product {
                a: *a,
                b: *b,
                outs: *outs,
            };
            write_batch_matmul(out, names, ty, product)
        }
        OpKind::Transpose {
            source,
            outs,
            order,
        } => write_transpose(out, names, *source, *outs, order.as_slice()),
        OpKind::Broadcast { source, outs, dims } => {
            write_broadcast(out, names, *source, *outs, dims.as_slice())
        }
        _ => write_unbuilt(out),
    }
}

fn write_defined(
    out: &mut Vec<u8>,
    aliases: &Aliases,
    names: &Names,
    ty: &Ty,
    kind: &OpKind,
) -> Result<(), Memory>
    ensures { OnOk result (out.new.items ≡ out.old.items ++ defined_text aliases.now names.now ty.now kind.now) }
{
    write_name(out, Given::Result(names.next_result()))?;
    out.extend_from_slice(b" = ")?;
    write_operation(out, aliases, names, ty, kind)
}

fn write_returned(out: &mut Vec<u8>, names: &Names, values: &[ValueId]) -> Result<(), Memory>
    ensures { OnOk result (out.new.items ≡ out.old.items ++ returned_text names.now.rows values.now) }
{
    match values {
        [] => {
            out.extend_from_slice(b"return")?;
            Ok(())
        }
        _ => {
            out.extend_from_slice(b"return ")?;
            write_values(out, names, values)?;
            out.extend_from_slice(b" : ")?;
            write_types(out, names, values)
        }
    }
}

fn write_return(out: &mut Vec<u8>, names: &Names, kind: &OpKind) -> Result<(), Memory>
    ensures { OnOk result (out.new.items ≡ out.old.items ++ return_text names.now.rows kind.now) }
{
    match kind {
        OpKind::Return { values } => write_returned(out, names, values.as_slice()),
        _ => write_unbuilt(out),
    }
}

/// An operation, without the indentation of its first line.
#[tactic(auto, unfolding(crate::specs::OperationParts::line_text))]
pub fn write_line(
    out: &mut Vec<u8>,
    aliases: &Aliases,
    names: &Names,
    op: &Op,
) -> Result<(), Memory>
    ensures { OnOk result (out.new.items ≡ out.old.items ++ line_text aliases.now names.now op.now) }
{
    match op.results.as_slice() {
        [] => write_return(out, names, &op.kind),
        [result] => write_defined(out, aliases, names, &result.1, &op.kind),
        _ => write_unbuilt(out),
    }
}

/// How many arguments an operation names inside.
fn inner_args(kind: &OpKind) -> u128
    ensures value { result ≡ inner_args kind.now }
    ensures small { result ≤ 2 ^ 64 }
{
    match kind {
        OpKind::Generic { payload, .. } => payload.ins().len() as u128 + 1,
        _ => 0,
    }
}

/// How many results an operation names inside.
fn inner_results(kind: &OpKind) -> u128
    ensures value { result ≡ inner_results kind.now }
    ensures small { result < 2 ^ 64 }
{
    match kind {
        OpKind::Generic { payload, .. } => payload.steps().len() as u128,
        _ => 0,
    }
}

/// The names behind an operation.
pub fn define<'a>(names: &mut Names<'a>, op: &'a Op) -> Result<(), Memory>
    ensures { OnOk result (names.new ≡ next names.old op.now) }
{
    match op.results.as_slice() {
        [result] => names.add_result(
            result.0,
            &result.1,
            inner_args(&op.kind),
            inner_results(&op.kind),
        ),
        _ => Ok(()),
    }
}
