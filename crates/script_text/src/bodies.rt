//! Steps, without their results.

ghost use Rattle.std.specs.Prelude.{◌≡◌, ◌++◌, [], OnOk, decimal};
ghost use Rattle.text_format.specs.Numerals.{numeral};
ghost use Rattle.text_format.specs.Writers.{unbuilt_text};
ghost use Rattle.script_text.specs.Names.{given_text, name_in};
ghost use Rattle.script_text.specs.Texts.{numbers_text, list_text, value_text, values_text, quoted_text, quoted_texts, to_one_text, to_two_text, both_to_two_text, to_three_text, repeated, to_many_text, match_text, handle_text, sized_text, fuse_text, dims_text, multiples_text, pad_args_text, pad_text, vector_list_text, vector_sizes_text, vectorize_text, split_text, generalize_text, pass_text, interchange_text, tile_for_text, tile_forall_text, pack_text, none_text, one_text, group_text};

use crate::names::{Given, Rows};
use itoa::Buffer;
use mlir_base::{List, Memory, Name, Width};
use script_read::{HandleId, PadArgs, StepKind};

/// What no text spells.
fn write_unbuilt(out: &mut Vec<u8>) -> Result<(), Memory>
    ensures { OnOk result (out.new.items ≡ out.old.items ++ unbuilt_text) }
{
    out.extend_from_slice(b"?")?;
    Ok(())
}

fn write_number(out: &mut Vec<u8>, number: u64) -> Result<(), Memory>
    ensures { OnOk result (out.new.items ≡ out.old.items ++ decimal number) }
{
    let mut buffer = Buffer::new();
    out.extend_from_slice(buffer.format(number).as_bytes())?;
    Ok(())
}

/// How many results a step has, or which of them this is.
pub fn write_count(out: &mut Vec<u8>, count: u64) -> Result<(), Memory>
    ensures { OnOk result (out.new.items ≡ out.old.items ++ numeral count) }
{
    write_number(out, count)
}

pub fn write_given(out: &mut Vec<u8>, name: Given) -> Result<(), Memory>
    ensures { OnOk result (out.new.items ≡ out.old.items ++ given_text name) }
{
    match name {
        Given::Root => {
            out.extend_from_slice(b"%arg0")?;
            Ok(())
        }
        Given::Single(number) => {
            out.extend_from_slice(b"%")?;
            write_number(out, number)
        }
        Given::Part(number, part) => {
            out.extend_from_slice(b"%")?;
            write_number(out, number)?;
            out.extend_from_slice(b"#")?;
            write_count(out, part)
        }
    }
}

fn write_handle(out: &mut Vec<u8>, rows: &Rows, handle: HandleId) -> Result<(), Memory>
    ensures { OnOk result (out.new.items ≡ out.old.items ++ name_in rows.now handle) }
{
    match rows.look(handle.0) {
        Some(row) => write_given(out, row.name),
        None => write_unbuilt(out),
    }
}

// ---- lists

fn write_numbers(out: &mut Vec<u8>, numbers: &[u32]) -> Result<(), Memory>
    ensures { OnOk result (out.new.items ≡ out.old.items ++ numbers_text [] numbers.now) }
{
    let mut before: &[u8] = b"";
    for number in numbers {
        out.extend_from_slice(before)?;
        write_number(out, *number as u64)?;
        before = b", ";
    }
    Ok(())
}

#[tactic(auto, unfolding(crate::specs::Texts::list_text))]
fn write_list(out: &mut Vec<u8>, numbers: &[u32]) -> Result<(), Memory>
    ensures { OnOk result (out.new.items ≡ out.old.items ++ list_text numbers.now) }
{
    out.extend_from_slice(b"[")?;
    write_numbers(out, numbers)?;
    out.extend_from_slice(b"]")?;
    Ok(())
}

#[tactic(auto, unfolding(crate::specs::Texts::value_text))]
fn write_value(out: &mut Vec<u8>, value: i128, width: Width) -> Result<(), Memory>
    ensures { OnOk result (out.new.items ≡ out.old.items ++ value_text value width) }
{
    let mut buffer = Buffer::new();
    out.extend_from_slice(buffer.format(value).as_bytes())?;
    out.extend_from_slice(b" : i")?;
    write_number(out, width.bits() as u64)
}

fn write_values(out: &mut Vec<u8>, values: &[(i128, Width)]) -> Result<(), Memory>
    ensures { OnOk result (out.new.items ≡ out.old.items ++ values_text [] values.now) }
{
    let mut before: &[u8] = b"";
    for value in values {
        out.extend_from_slice(before)?;
        write_value(out, value.0, value.1)?;
        before = b", ";
    }
    Ok(())
}

#[tactic(auto, unfolding(crate::specs::Texts::quoted_text))]
fn write_quoted(out: &mut Vec<u8>, name: &Name) -> Result<(), Memory>
    ensures { OnOk result (out.new.items ≡ out.old.items ++ quoted_text name.now) }
{
    out.extend_from_slice(b"\"")?;
    out.extend_from_slice(name.as_str().as_bytes())?;
    out.extend_from_slice(b"\"")?;
    Ok(())
}

fn write_names(out: &mut Vec<u8>, names: &[Name]) -> Result<(), Memory>
    ensures { OnOk result (out.new.items ≡ out.old.items ++ quoted_texts [] names.now) }
{
    let mut before: &[u8] = b"";
    for name in names {
        out.extend_from_slice(before)?;
        write_quoted(out, name)?;
        before = b", ";
    }
    Ok(())
}

// ---- types

/// The text, so many times.
pub fn write_repeated(out: &mut Vec<u8>, count: usize, text: &[u8]) -> Result<(), Memory>
    ensures { OnOk result (out.new.items ≡ out.old.items ++ repeated count text.now) }
{
    for _turn in 0..count {
        out.extend_from_slice(text)?;
    }
    Ok(())
}

/// The types of two results, and of so many more.
#[tactic(auto, unfolding(crate::specs::Texts::to_many_text))]
fn write_to_many(out: &mut Vec<u8>, more: usize) -> Result<(), Memory>
    ensures { OnOk result (out.new.items ≡ out.old.items ++ to_many_text more) }
{
    out.extend_from_slice(b" : (!transform.any_op) -> (!transform.any_op, !transform.any_op")?;
    write_repeated(out, more, b", !transform.any_op")?;
    out.extend_from_slice(b")")?;
    Ok(())
}

// ---- steps, without their types

#[tactic(auto, unfolding(crate::specs::Texts::match_text))]
fn write_match(
    out: &mut Vec<u8>,
    rows: &Rows,
    names: &List<Name>,
    inside: HandleId,
) -> Result<(), Memory>
    ensures { OnOk result (out.new.items ≡ out.old.items ++ match_text rows.now names.now inside) }
{
    out.extend_from_slice(b"transform.structured.match ops{[")?;
    write_names(out, names.as_slice())?;
    out.extend_from_slice(b"]} in ")?;
    write_handle(out, rows, inside)
}

/// A step that names a handle alone.
#[tactic(auto, unfolding(crate::specs::Texts::handle_text))]
fn write_named(out: &mut Vec<u8>, rows: &Rows, word: &str, handle: HandleId) -> Result<(), Memory>
    ensures { OnOk result (out.new.items ≡ out.old.items ++ handle_text word.now rows.now handle) }
{
    out.extend_from_slice(word.as_bytes())?;
    write_handle(out, rows, handle)
}

/// A step with a list.
#[tactic(auto, unfolding(crate::specs::Texts::sized_text))]
fn write_sized(
    out: &mut Vec<u8>,
    rows: &Rows,
    word: &str,
    handle: HandleId,
    before: &str,
    sizes: &List<u32>,
) -> Result<(), Memory>
    ensures { OnOk result (out.new.items ≡ out.old.items ++ sized_text word.now rows.now handle before.now sizes.now) }
{
    out.extend_from_slice(word.as_bytes())?;
    write_handle(out, rows, handle)?;
    out.extend_from_slice(before.as_bytes())?;
    write_list(out, sizes.as_slice())
}

#[tactic(auto, unfolding(crate::specs::Texts::fuse_text))]
fn write_fuse(
    out: &mut Vec<u8>,
    rows: &Rows,
    producer: HandleId,
    containing: HandleId,
) -> Result<(), Memory>
    ensures { OnOk result (out.new.items ≡ out.old.items ++ fuse_text rows.now producer containing) }
{
    out.extend_from_slice(b"transform.structured.fuse_into_containing_op ")?;
    write_handle(out, rows, producer)?;
    out.extend_from_slice(b" into ")?;
    write_handle(out, rows, containing)
}

#[tactic(auto, unfolding(crate::specs::Texts::dims_text))]
fn write_dims(out: &mut Vec<u8>, dims: &[u32]) -> Result<(), Memory>
    ensures { OnOk result (out.new.items ≡ out.old.items ++ dims_text dims.now) }
{
    out.extend_from_slice(b"], padding_dimensions = ")?;
    write_list(out, dims)
}

#[tactic(auto, unfolding(crate::specs::Texts::multiples_text))]
fn write_multiples(out: &mut Vec<u8>, multiples: &[u32]) -> Result<(), Memory>
    ensures { OnOk result (out.new.items ≡ out.old.items ++ multiples_text multiples.now) }
{
    out.extend_from_slice(b", pad_to_multiple_of = ")?;
    write_list(out, multiples)
}

#[tactic(auto, unfolding(crate::specs::Texts::pad_args_text))]
fn write_pad_args(out: &mut Vec<u8>, args: &PadArgs) -> Result<(), Memory>
    ensures { OnOk result (out.new.items ≡ out.old.items ++ pad_args_text args.now) }
{
    write_values(out, args.values.as_slice())?;
    write_dims(out, args.dims.as_slice())?;
    write_multiples(out, args.multiples.as_slice())
}

#[tactic(auto, unfolding(crate::specs::Texts::pad_text))]
fn write_pad(out: &mut Vec<u8>, rows: &Rows, target: HandleId, args: &PadArgs) -> Result<(), Memory>
    ensures { OnOk result (out.new.items ≡ out.old.items ++ pad_text rows.now target args.now) }
{
    out.extend_from_slice(b"transform.structured.pad ")?;
    write_handle(out, rows, target)?;
    out.extend_from_slice(b" {padding_values = [")?;
    write_pad_args(out, args)?;
    out.extend_from_slice(b", copy_back_op = \"none\"}")?;
    Ok(())
}

#[tactic(auto, unfolding(crate::specs::Texts::vector_list_text))]
fn write_vector_list(out: &mut Vec<u8>, sizes: &[u32]) -> Result<(), Memory>
    ensures { OnOk result (out.new.items ≡ out.old.items ++ vector_list_text sizes.now) }
{
    out.extend_from_slice(b" vector_sizes ")?;
    write_list(out, sizes)
}

fn write_vector_sizes(out: &mut Vec<u8>, sizes: &Option<List<u32>>) -> Result<(), Memory>
    ensures { OnOk result (out.new.items ≡ out.old.items ++ vector_sizes_text sizes.now) }
{
    match sizes {
        Some(sizes) => write_vector_list(out, sizes.as_slice()),
        None => Ok(()),
    }
}

#[tactic(auto, unfolding(crate::specs::Texts::vectorize_text))]
fn write_vectorize(
    out: &mut Vec<u8>,
    rows: &Rows,
    target: HandleId,
    sizes: &Option<List<u32>>,
) -> Result<(), Memory>
    ensures { OnOk result (out.new.items ≡ out.old.items ++ vectorize_text rows.now target sizes.now) }
{
    out.extend_from_slice(b"transform.structured.vectorize ")?;
    write_handle(out, rows, target)?;
    write_vector_sizes(out, sizes)?;
    out.extend_from_slice(b" : !transform.any_op")?;
    Ok(())
}

#[tactic(auto, unfolding(crate::specs::Texts::split_text))]
fn write_split(out: &mut Vec<u8>, rows: &Rows, handle: HandleId) -> Result<(), Memory>
    ensures { OnOk result (out.new.items ≡ out.old.items ++ split_text rows.now handle) }
{
    write_named(out, rows, "transform.split_handle ", handle)
}

#[tactic(auto, unfolding(crate::specs::Texts::generalize_text))]
fn write_generalize(out: &mut Vec<u8>, rows: &Rows, handle: HandleId) -> Result<(), Memory>
    ensures { OnOk result (out.new.items ≡ out.old.items ++ generalize_text rows.now handle) }
{
    write_named(out, rows, "transform.structured.generalize ", handle)
}

#[tactic(auto, unfolding(crate::specs::Texts::pass_text))]
fn write_pass(out: &mut Vec<u8>, rows: &Rows, handle: HandleId) -> Result<(), Memory>
    ensures { OnOk result (out.new.items ≡ out.old.items ++ pass_text rows.now handle) }
{
    write_named(
        out,
        rows,
        "transform.apply_registered_pass \"linalg-fuse-elementwise-ops\" to ",
        handle,
    )
}

#[tactic(auto, unfolding(crate::specs::Texts::interchange_text))]
fn write_interchange(
    out: &mut Vec<u8>,
    rows: &Rows,
    target: HandleId,
    sizes: &List<u32>,
) -> Result<(), Memory>
    ensures { OnOk result (out.new.items ≡ out.old.items ++ interchange_text rows.now target sizes.now) }
{
    write_sized(
        out,
        rows,
        "transform.structured.interchange ",
        target,
        " iterator_interchange = ",
        sizes,
    )
}

#[tactic(auto, unfolding(crate::specs::Texts::tile_for_text))]
fn write_tile_for(
    out: &mut Vec<u8>,
    rows: &Rows,
    target: HandleId,
    sizes: &List<u32>,
) -> Result<(), Memory>
    ensures { OnOk result (out.new.items ≡ out.old.items ++ tile_for_text rows.now target sizes.now) }
{
    write_sized(
        out,
        rows,
        "transform.structured.tile_using_for ",
        target,
        " tile_sizes ",
        sizes,
    )
}

#[tactic(auto, unfolding(crate::specs::Texts::tile_forall_text))]
fn write_tile_forall(
    out: &mut Vec<u8>,
    rows: &Rows,
    target: HandleId,
    sizes: &List<u32>,
) -> Result<(), Memory>
    ensures { OnOk result (out.new.items ≡ out.old.items ++ tile_forall_text rows.now target sizes.now) }
{
    write_sized(
        out,
        rows,
        "transform.structured.tile_using_forall ",
        target,
        " tile_sizes ",
        sizes,
    )
}

#[tactic(auto, unfolding(crate::specs::Texts::pack_text))]
fn write_pack(
    out: &mut Vec<u8>,
    rows: &Rows,
    target: HandleId,
    sizes: &List<u32>,
) -> Result<(), Memory>
    ensures { OnOk result (out.new.items ≡ out.old.items ++ pack_text rows.now target sizes.now) }
{
    write_sized(
        out,
        rows,
        "transform.structured.pack ",
        target,
        " packed_sizes = ",
        sizes,
    )
}

// ---- with their types

/// A step without results.
pub fn write_none(out: &mut Vec<u8>, rows: &Rows, kind: &StepKind) -> Result<(), Memory>
    ensures { OnOk result (out.new.items ≡ out.old.items ++ none_text rows.now kind.now) }
{
    match kind {
        StepKind::Vectorize { target, sizes } => write_vectorize(out, rows, *target, sizes),
        _ => write_unbuilt(out),
    }
}

#[tactic(auto, unfolding(crate::specs::Texts::to_one_text))]
fn write_to_one(out: &mut Vec<u8>) -> Result<(), Memory>
    ensures { OnOk result (out.new.items ≡ out.old.items ++ to_one_text) }
{
    out.extend_from_slice(b" : (!transform.any_op) -> !transform.any_op")?;
    Ok(())
}

#[tactic(auto, unfolding(crate::specs::Texts::to_two_text))]
fn write_to_two(out: &mut Vec<u8>) -> Result<(), Memory>
    ensures { OnOk result (out.new.items ≡ out.old.items ++ to_two_text) }
{
    out.extend_from_slice(b" : (!transform.any_op) -> (!transform.any_op, !transform.any_op)")?;
    Ok(())
}

#[tactic(auto, unfolding(crate::specs::Texts::both_to_two_text))]
fn write_both_to_two(out: &mut Vec<u8>) -> Result<(), Memory>
    ensures { OnOk result (out.new.items ≡ out.old.items ++ both_to_two_text) }
{
    out.extend_from_slice(
        b" : (!transform.any_op, !transform.any_op) -> (!transform.any_op, !transform.any_op)",
    )?;
    Ok(())
}

#[tactic(auto, unfolding(crate::specs::Texts::to_three_text))]
fn write_to_three(out: &mut Vec<u8>) -> Result<(), Memory>
    ensures { OnOk result (out.new.items ≡ out.old.items ++ to_three_text) }
{
    out.extend_from_slice(
        b" : (!transform.any_op) -> (!transform.any_op, !transform.any_op, !transform.any_op)",
    )?;
    Ok(())
}

/// A step with one result.
pub fn write_one(out: &mut Vec<u8>, rows: &Rows, kind: &StepKind) -> Result<(), Memory>
    ensures { OnOk result (out.new.items ≡ out.old.items ++ one_text rows.now kind.now) }
{
    match kind {
        StepKind::Match { names, inside } => {
            write_match(out, rows, names, *inside)?;
            write_to_one(out)
        }
        StepKind::Split { handle } => {
            write_split(out, rows, *handle)?;
            write_to_one(out)
        }
        StepKind::Generalize { target } => {
            write_generalize(out, rows, *target)?;
            write_to_one(out)
        }
        StepKind::Interchange { target, order } => {
            write_interchange(out, rows, *target, order)?;
            write_to_one(out)
        }
        StepKind::TileFor { target, sizes } => {
            write_tile_for(out, rows, *target, sizes)?;
            write_to_one(out)
        }
        StepKind::Pack { target, sizes } => {
            write_pack(out, rows, *target, sizes)?;
            write_to_one(out)
        }
        StepKind::FuseElementwise { target } => {
            write_pass(out, rows, *target)?;
            write_to_one(out)
        }
        _ => write_unbuilt(out),
    }
}

/// A step with two results and these.
pub fn write_group(
    out: &mut Vec<u8>,
    rows: &Rows,
    more: &[HandleId],
    kind: &StepKind,
) -> Result<(), Memory>
    ensures { OnOk result (out.new.items ≡ out.old.items ++ group_text rows.now more.now kind.now) }
{
    match kind {
        StepKind::Split { handle } => {
            write_split(out, rows, *handle)?;
            write_to_many(out, more.len())
        }
        StepKind::TileFor { target, sizes } => {
            write_tile_for(out, rows, *target, sizes)?;
            write_to_many(out, more.len())
        }
        StepKind::TileForall { target, sizes } => {
            write_tile_forall(out, rows, *target, sizes)?;
            write_to_two(out)
        }
        StepKind::FuseInto {
            producer,
            containing,
        } => {
            write_fuse(out, rows, *producer, *containing)?;
            write_both_to_two(out)
        }
        StepKind::Pad { target, args } => {
            write_pad(out, rows, *target, args)?;
            write_to_three(out)
        }
        _ => write_unbuilt(out),
    }
}
