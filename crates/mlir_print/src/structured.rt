//! Structured operations that have a name of their own.

ghost use Rattle.std.specs.Prelude.{◌≡◌, ◌++◌, [], OnOk};
ghost use Rattle.mlir_print.specs.StructuredParts.{source_text, moved_text, into_text, fill_text, two_names_text, two_types_text, factors_text, matmul_text, batch_matmul_text, axes_text, transpose_text, broadcast_text};

use crate::generics::write_outs;
use crate::names::Names;
use crate::types::{write_number, write_type};
use crate::values::{write_value, write_value_type};
use mlir_base::Memory;
use mlir_ir::{Ty, ValueId};

/// `ins(%a : T)`
fn write_source(out: &mut Vec<u8>, names: &Names, source: ValueId) -> Result<(), Memory>
    ensures { OnOk result (out.new.items ≡ out.old.items ++ source_text names.now.rows source) }
{
    out.extend_from_slice(b"ins(")?;
    write_value(out, names, source)?;
    out.extend_from_slice(b" : ")?;
    write_value_type(out, names, source)?;
    out.extend_from_slice(b")")?;
    Ok(())
}

/// `ins(%a : T) outs(%o : T)`
fn write_moved(
    out: &mut Vec<u8>,
    names: &Names,
    source: ValueId,
    outs: ValueId,
) -> Result<(), Memory>
    ensures { OnOk result (out.new.items ≡ out.old.items ++ moved_text names.now.rows source outs) }
{
    write_source(out, names, source)?;
    out.extend_from_slice(b" ")?;
    write_outs(out, names, outs)
}

/// `outs(%o : T) -> T`
fn write_into(out: &mut Vec<u8>, names: &Names, ty: &Ty, outs: ValueId) -> Result<(), Memory>
    ensures { OnOk result (out.new.items ≡ out.old.items ++ into_text names.now.rows ty.now outs) }
{
    write_outs(out, names, outs)?;
    out.extend_from_slice(b" -> ")?;
    write_type(out, ty)
}

pub fn write_fill(
    out: &mut Vec<u8>,
    names: &Names,
    ty: &Ty,
    value: ValueId,
    outs: ValueId,
) -> Result<(), Memory>
    ensures { OnOk result (out.new.items ≡ out.old.items ++ fill_text names.now.rows ty.now value outs) }
{
    out.extend_from_slice(b"linalg.fill ")?;
    write_source(out, names, value)?;
    out.extend_from_slice(b" ")?;
    write_into(out, names, ty, outs)
}

fn write_two_names(out: &mut Vec<u8>, names: &Names, a: ValueId, b: ValueId) -> Result<(), Memory>
    ensures { OnOk result (out.new.items ≡ out.old.items ++ two_names_text names.now.rows a b) }
{
    write_value(out, names, a)?;
    out.extend_from_slice(b", ")?;
    write_value(out, names, b)
}

fn write_two_types(out: &mut Vec<u8>, names: &Names, a: ValueId, b: ValueId) -> Result<(), Memory>
    ensures { OnOk result (out.new.items ≡ out.old.items ++ two_types_text names.now.rows a b) }
{
    write_value_type(out, names, a)?;
    out.extend_from_slice(b", ")?;
    write_value_type(out, names, b)
}

/// The operands of a product.
#[derive(Clone, Copy)]
pub struct Product {
    pub a: ValueId,
    pub b: ValueId,
    pub outs: ValueId,
}

fn write_factors(out: &mut Vec<u8>, names: &Names, ty: &Ty, product: Product) -> Result<(), Memory>
    ensures { OnOk result (out.new.items ≡ out.old.items ++ factors_text names.now.rows ty.now product.a product.b product.outs) }
{
    out.extend_from_slice(b"ins(")?;
    write_two_names(out, names, product.a, product.b)?;
    out.extend_from_slice(b" : ")?;
    write_two_types(out, names, product.a, product.b)?;
    out.extend_from_slice(b") ")?;
    write_into(out, names, ty, product.outs)
}

pub fn write_matmul(
    out: &mut Vec<u8>,
    names: &Names,
    ty: &Ty,
    product: Product,
) -> Result<(), Memory>
    ensures { OnOk result (out.new.items ≡ out.old.items ++ matmul_text names.now.rows ty.now product.a product.b product.outs) }
{
    out.extend_from_slice(b"linalg.matmul ")?;
    write_factors(out, names, ty, product)
}

pub fn write_batch_matmul(
    out: &mut Vec<u8>,
    names: &Names,
    ty: &Ty,
    product: Product,
) -> Result<(), Memory>
    ensures { OnOk result (out.new.items ≡ out.old.items ++ batch_matmul_text names.now.rows ty.now product.a product.b product.outs) }
{
    out.extend_from_slice(b"linalg.batch_matmul ")?;
    write_factors(out, names, ty, product)
}

fn write_axes(out: &mut Vec<u8>, axes: &[u32]) -> Result<(), Memory>
    ensures { OnOk result (out.new.items ≡ out.old.items ++ axes_text [] axes.now) }
{
    let mut before: &[u8] = b"";
    for axis in axes {
        out.extend_from_slice(before)?;
        write_number(out, *axis)?;
        before = b", ";
    }
    Ok(())
}

pub fn write_transpose(
    out: &mut Vec<u8>,
    names: &Names,
    source: ValueId,
    outs: ValueId,
    order: &[u32],
) -> Result<(), Memory>
    ensures { OnOk result (out.new.items ≡ out.old.items ++ transpose_text names.now.rows source outs order.now) }
{
    out.extend_from_slice(b"linalg.transpose ")?;
    write_moved(out, names, source, outs)?;
    out.extend_from_slice(b" permutation = [")?;
    write_axes(out, order)?;
    out.extend_from_slice(b"]")?;
    Ok(())
}

pub fn write_broadcast(
    out: &mut Vec<u8>,
    names: &Names,
    source: ValueId,
    outs: ValueId,
    dims: &[u32],
) -> Result<(), Memory>
    ensures { OnOk result (out.new.items ≡ out.old.items ++ broadcast_text names.now.rows source outs dims.now) }
{
    out.extend_from_slice(b"linalg.broadcast ")?;
    write_moved(out, names, source, outs)?;
    out.extend_from_slice(b" dimensions = [")?;
    write_axes(out, dims)?;
    out.extend_from_slice(b"]")?;
    Ok(())
}
