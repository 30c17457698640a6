//! Types.

ghost use Rattle.std.specs.Prelude.{◌≡◌, ◌++◌, OnOk, decimal};
ghost use Rattle.mlir_print.specs.Types.{ty_text, elem_text, extents_text, lanes_text};
ghost use Rattle.mlir_print.specs.Names.{given_text};
ghost use Rattle.text_format.specs.Writers.{unbuilt_text};

use crate::names::Given;
use itoa::Buffer;
use mlir_base::{ElemTy, Memory};
use mlir_ir::{Extent, Ty};

pub fn write_number(out: &mut Vec<u8>, number: u32) -> Result<(), Memory>
    ensures { OnOk result (out.new.items ≡ out.old.items ++ decimal number) }
{
    let mut buffer = Buffer::new();
    out.extend_from_slice(buffer.format(number).as_bytes())?;
    Ok(())
}

pub fn write_elem(out: &mut Vec<u8>, elem: ElemTy) -> Result<(), Memory>
    ensures { OnOk result (out.new.items ≡ out.old.items ++ elem_text elem) }
{
    match elem {
        ElemTy::Int(width) => {
            out.extend_from_slice(b"i")?;
            write_number(out, width.bits() as u32)
        }
        ElemTy::Index => {
            out.extend_from_slice(b"index")?;
            Ok(())
        }
    }
}

fn write_extents(out: &mut Vec<u8>, extents: &[Extent]) -> Result<(), Memory>
    ensures { OnOk result (out.new.items ≡ out.old.items ++ extents_text extents.now) }
{
    for extent in extents {
        match extent {
            Extent::Fixed(number) => {
                write_number(out, *number)?;
                out.extend_from_slice(b"x")?;
            }
            Extent::Any => {
                out.extend_from_slice(b"?x")?;
            }
        }
    }
    Ok(())
}

fn write_lanes(out: &mut Vec<u8>, lanes: &[u32]) -> Result<(), Memory>
    ensures { OnOk result (out.new.items ≡ out.old.items ++ lanes_text lanes.now) }
{
    for number in lanes {
        write_number(out, *number)?;
        out.extend_from_slice(b"x")?;
    }
    Ok(())
}

pub fn write_type(out: &mut Vec<u8>, ty: &Ty) -> Result<(), Memory>
    ensures { OnOk result (out.new.items ≡ out.old.items ++ ty_text ty.now) }
{
    match ty {
        Ty::Scalar(elem) => write_elem(out, *elem),
        Ty::Tensor { extents, elem } => {
            out.extend_from_slice(b"tensor<")?;
            write_extents(out, extents.as_slice())?;
            write_elem(out, ElemTy::Int(*elem))?;
            out.extend_from_slice(b">")?;
            Ok(())
        }
        Ty::Vector { extents, elem } => {
            out.extend_from_slice(b"vector<")?;
            write_lanes(out, extents.as_slice())?;
            write_elem(out, ElemTy::Int(*elem))?;
            out.extend_from_slice(b">")?;
            Ok(())
        }
    }
}

pub fn write_name(out: &mut Vec<u8>, name: Given) -> Result<(), Memory>
    ensures { OnOk result (out.new.items ≡ out.old.items ++ given_text name) }
{
    let mut buffer = Buffer::new();
    match name {
        Given::Argument(number) => {
            out.extend_from_slice(b"%arg")?;
            out.extend_from_slice(buffer.format(number).as_bytes())?;
        }
        Given::Result(number) => {
            out.extend_from_slice(b"%")?;
            out.extend_from_slice(buffer.format(number).as_bytes())?;
        }
    }
    Ok(())
}

/// What no text of the grammar spells so far.
pub fn write_unbuilt(out: &mut Vec<u8>) -> Result<(), Memory>
    ensures { OnOk result (out.new.items ≡ out.old.items ++ unbuilt_text) }
{
    out.extend_from_slice(b"?")?;
    Ok(())
}
