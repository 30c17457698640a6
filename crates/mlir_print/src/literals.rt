//! Integer literals.

ghost use Rattle.std.specs.Prelude.{◌≡◌, ◌++◌, OnOk};
ghost use Rattle.std.specs.Fmt.{signed_decimal};
ghost use Rattle.payload_ops.specs.Bits.{signed_of};
ghost use Rattle.mlir_base.specs.Types.{bits_of, is_elem};
ghost use Rattle.mlir_base.specs.declared.types.ElemTy.TheVariants.{Int};
ghost use Rattle.mlir_print.specs.Literals.{truth_text, literal_text};

use crate::types::write_elem;
use itoa::Buffer;
use mlir_base::{ElemTy, Memory};
use payload_ops::{signed, wrap};

pub fn write_signed(out: &mut Vec<u8>, number: i64) -> Result<(), Memory>
    ensures { OnOk result (out.new.items ≡ out.old.items ++ signed_decimal number) }
{
    let mut buffer = Buffer::new();
    out.extend_from_slice(buffer.format(number).as_bytes())?;
    Ok(())
}

pub fn write_truth(out: &mut Vec<u8>, value: u64) -> Result<(), Memory>
    ensures { OnOk result (out.new.items ≡ out.old.items ++ truth_text value) }
{
    if value == 0 {
        out.extend_from_slice(b"false")?;
    } else {
        out.extend_from_slice(b"true")?;
    }
    Ok(())
}

fn is_truth(elem: &ElemTy) -> bool
    ensures { result ≡ is_elem elem.now (Int 1) }
{
    match elem {
        ElemTy::Int(width) => width.bits() == 1,
        ElemTy::Index => false,
    }
}

/// The number that the value's bits stand for in two's complement.
pub fn number_of(elem: &ElemTy, value: u64) -> i64
    ensures { result ≡ signed_of (bits_of elem.now) value }
{
    let width = elem.width();
    signed(width, wrap(width, value as i128))
}

/// A value of the type, with its type but for i1.
pub fn write_literal(out: &mut Vec<u8>, elem: &ElemTy, value: u64) -> Result<(), Memory>
    ensures { OnOk result (out.new.items ≡ out.old.items ++ literal_text elem.now value) }
{
    if is_truth(elem) {
        return write_truth(out, value);
    }
    write_signed(out, number_of(elem, value))?;
    out.extend_from_slice(b" : ")?;
    write_elem(out, *elem)
}
