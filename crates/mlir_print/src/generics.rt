//! Generic operations.

ghost use Rattle.std.specs.Prelude.{◌≡◌, ◌++◌, ◌+◌, [], OnOk};
ghost use Rattle.mlir_print.specs.Generics.{iterator_text};
ghost use Rattle.mlir_print.specs.GenericParts.{ins_text, outs_text, operands_text, iterators_text, maps_text, traits_text, head_text, tail_text, generic_text};

use crate::aliases::{Aliases, write_uses};
use crate::names::Names;
use crate::payloads::write_region;
use crate::types::write_type;
use crate::values::{write_types, write_value, write_value_type, write_values};
use affine_maps::AffineMap;
use mlir_base::Memory;
use mlir_ir::{Iter, Ty, ValueId};
use payload_ops::Payload;

fn write_ins(out: &mut Vec<u8>, names: &Names, ins: &[ValueId]) -> Result<(), Memory>
    ensures { OnOk result (out.new.items ≡ out.old.items ++ ins_text names.now.rows ins.now) }
{
    out.extend_from_slice(b"ins(")?;
    write_values(out, names, ins)?;
    out.extend_from_slice(b" : ")?;
    write_types(out, names, ins)?;
    out.extend_from_slice(b")")?;
    Ok(())
}

pub fn write_outs(out: &mut Vec<u8>, names: &Names, outs: ValueId) -> Result<(), Memory>
    ensures { OnOk result (out.new.items ≡ out.old.items ++ outs_text names.now.rows outs) }
{
    out.extend_from_slice(b"outs(")?;
    write_value(out, names, outs)?;
    out.extend_from_slice(b" : ")?;
    write_value_type(out, names, outs)?;
    out.extend_from_slice(b")")?;
    Ok(())
}

/// The inputs, where there are any, and the output.
fn write_operands(
    out: &mut Vec<u8>,
    names: &Names,
    ins: &[ValueId],
    outs: ValueId,
) -> Result<(), Memory>
    ensures { OnOk result (out.new.items ≡ out.old.items ++ operands_text names.now.rows ins.now outs) }
{
    match ins {
        [] => write_outs(out, names, outs),
        _ => {
            write_ins(out, names, ins)?;
            out.extend_from_slice(b" ")?;
            write_outs(out, names, outs)
        }
    }
}

fn iterator_text(iterator: Iter) -> &'static [u8]
    ensures { result.now ≡ iterator_text iterator }
{
    match iterator {
        Iter::Parallel => b"\"parallel\"",
        Iter::Reduction => b"\"reduction\"",
    }
}

fn write_iterators(out: &mut Vec<u8>, iterators: &[Iter]) -> Result<(), Memory>
    ensures { OnOk result (out.new.items ≡ out.old.items ++ iterators_text [] iterators.now) }
{
    let mut before: &[u8] = b"";
    for iterator in iterators {
        out.extend_from_slice(before)?;
        out.extend_from_slice(iterator_text(*iterator))?;
        before = b", ";
    }
    Ok(())
}

fn write_maps(out: &mut Vec<u8>, aliases: &Aliases, maps: &[AffineMap]) -> Result<(), Memory>
    ensures { OnOk result (out.new.items ≡ out.old.items ++ maps_text aliases.now maps.now) }
{
    out.extend_from_slice(b"{indexing_maps = [")?;
    write_uses(out, aliases, maps)?;
    out.extend_from_slice(b"]")?;
    Ok(())
}

fn write_traits(
    out: &mut Vec<u8>,
    aliases: &Aliases,
    maps: &[AffineMap],
    iterators: &[Iter],
) -> Result<(), Memory>
    ensures { OnOk result (out.new.items ≡ out.old.items ++ traits_text aliases.now maps.now iterators.now) }
{
    write_maps(out, aliases, maps)?;
    out.extend_from_slice(b", iterator_types = [")?;
    write_iterators(out, iterators)?;
    out.extend_from_slice(b"]}")?;
    Ok(())
}

fn write_head(
    out: &mut Vec<u8>,
    aliases: &Aliases,
    names: &Names,
    parts: Parts,
) -> Result<(), Memory>
    ensures { OnOk result (out.new.items ≡ out.old.items ++ head_text aliases.now names.now.rows parts.entry.maps.now parts.entry.iterators.now parts.entry.ins.now parts.entry.outs) }
{
    out.extend_from_slice(b"linalg.generic ")?;
    write_traits(out, aliases, parts.maps, parts.iterators)?;
    out.extend_from_slice(b" ")?;
    write_operands(out, names, parts.ins, parts.outs)
}

fn write_tail(
    out: &mut Vec<u8>,
    aliases: &Aliases,
    names: &Names,
    ty: &Ty,
    payload: &Payload,
) -> Result<(), Memory>
    ensures { OnOk result (out.new.items ≡ out.old.items ++ tail_text aliases.now names.now ty.now payload.now) }
{
    out.extend_from_slice(b" {\n    ")?;
    write_region(
        out,
        aliases,
        names.next_argument(),
        names.next_result() + 1,
        payload,
    )?;
    out.extend_from_slice(b"\n    } -> ")?;
    write_type(out, ty)
}

/// The fields of a generic operation that are written.
#[derive(Clone, Copy)]
pub struct Parts<'a> {
    pub maps: &'a [AffineMap],
    pub iterators: &'a [Iter],
    pub ins: &'a [ValueId],
    pub outs: ValueId,
    pub payload: &'a Payload,
}

pub fn write_generic(
    out: &mut Vec<u8>,
    aliases: &Aliases,
    names: &Names,
    ty: &Ty,
    parts: Parts,
) -> Result<(), Memory>
    ensures { OnOk result (out.new.items ≡ out.old.items ++ generic_text aliases.now names.now ty.now parts.entry.maps.now parts.entry.iterators.now parts.entry.ins.now parts.entry.outs parts.entry.payload.now) }
{
    write_head(out, aliases, names, parts)?;
    write_tail(out, aliases, names, ty, parts.payload)
}
