//! Values by their names, and their types.

ghost use Rattle.std.specs.Prelude.{◌≡◌, ◌++◌, [], OnOk};
ghost use Rattle.mlir_print.specs.Names.{name_in, type_in};
ghost use Rattle.mlir_print.specs.Returns.{values_text, types_text};

use crate::names::Names;
use crate::types::{write_name, write_type, write_unbuilt};
use mlir_base::Memory;
use mlir_ir::ValueId;

pub fn write_value(out: &mut Vec<u8>, names: &Names, value: ValueId) -> Result<(), Memory>
    ensures { OnOk result (out.new.items ≡ out.old.items ++ name_in names.now.rows value) }
{
    match names.look(value) {
        Some(row) => write_name(out, row.name),
        None => write_unbuilt(out),
    }
}

pub fn write_value_type(out: &mut Vec<u8>, names: &Names, value: ValueId) -> Result<(), Memory>
    ensures { OnOk result (out.new.items ≡ out.old.items ++ type_in names.now.rows value) }
{
    match names.look(value) {
        Some(row) => write_type(out, row.ty),
        None => write_unbuilt(out),
    }
}

pub fn write_values(out: &mut Vec<u8>, names: &Names, values: &[ValueId]) -> Result<(), Memory>
    ensures { OnOk result (out.new.items ≡ out.old.items ++ values_text names.now.rows [] values.now) }
{
    let mut before: &[u8] = b"";
    for value in values {
        out.extend_from_slice(before)?;
        write_value(out, names, *value)?;
        before = b", ";
    }
    Ok(())
}

pub fn write_types(out: &mut Vec<u8>, names: &Names, values: &[ValueId]) -> Result<(), Memory>
    ensures { OnOk result (out.new.items ≡ out.old.items ++ types_text names.now.rows [] values.now) }
{
    let mut before: &[u8] = b"";
    for value in values {
        out.extend_from_slice(before)?;
        write_value_type(out, names, *value)?;
        before = b", ";
    }
    Ok(())
}
