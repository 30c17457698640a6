//! Payloads.

ghost use Rattle.std.specs.Prelude.{◌≡◌, ◌≤◌, ◌^◌, ◌+◌, ◌++◌, ◌∷◌, [], length, codes, OnOk, IsTrue};
ghost use Rattle.std.specs.List.{list_all};
ghost use Rattle.payload_ops.specs.declared.step.Arg.TheVariants.{Step};
ghost use Rattle.payload_ops.specs.declared.step.StepOp.TheVariants.{Linear};
ghost use Rattle.payload_ops.specs.Payload.{arg_type};
ghost use Rattle.mlir_print.specs.Names.{given_text, local_name};
ghost use Rattle.mlir_print.specs.Maps.{has_map_numbers, linear_map};
ghost use Rattle.mlir_print.specs.Payloads.{type_in};
ghost use Rattle.mlir_print.specs.Types.{elem_text};
ghost use Rattle.mlir_print.specs.Literals.{literal_text};
ghost use Rattle.mlir_print.specs.PayloadParts.{block_arg_text, block_args_text, local_text, operands_text, typed_text, binary_step_text, compare_step_text, select_step_text, conversion_text, cast_step_text, index_step_text, arguments_text, apply_text, operation_text, step_text, steps_text, yield_text, block_text, region_text};

use crate::aliases::{Aliases, write_use};
use crate::linear::linear_map;
use crate::literals::write_literal;
use crate::names::Given;
use crate::types::{write_elem, write_name, write_number, write_unbuilt};
use affine_maps::AffineMap;
use mlir_base::{ElemTy, Memory};
use mlir_scope::{Cast, binary_text, cast_text, predicate_text};
use payload_ops::{Arg, BinOp, Payload, PayloadStep, Predicate, StepOp};

/// A payload, where the numbers of its arguments and of its results begin, and the aliases of maps.
#[derive(Drop)]
pub struct Inside<'a> {
    aliases: &'a Aliases,
    args: u128,
    results: u128,
    payload: &'a Payload,
    ghost args_fit: { args ≤ 2 ^ 127 },
    ghost results_fit: { results ≤ 2 ^ 127 },
}

fn write_local(out: &mut Vec<u8>, inside: &Inside<'_>, arg: Arg) -> Result<(), Memory>
    ensures { OnOk result (out.new.items ≡ out.old.items ++ local_text inside.now.args inside.now.results inside.now.payload.now arg) }
{
    match arg {
        Arg::Input(number) => write_name(out, Given::Argument(inside.args + number as u128)),
        Arg::Out => {
            let inputs = inside.payload.ins().len();
            write_name(out, Given::Argument(inside.args + inputs as u128))
        }
        Arg::Step(number) => write_name(out, Given::Result(inside.results + number as u128)),
    }
}

/// The type of what an argument names.
fn arg_type(payload: &Payload, arg: Arg) -> Option<ElemTy>
    ensures { result ≡ arg_type payload.now.ins payload.now.out payload.now.steps arg }
{
    match arg {
        Arg::Input(number) => payload.ins().as_slice().get(number as usize).copied(),
        Arg::Out => Some(payload.out()),
        Arg::Step(number) => match payload.steps().as_slice().get(number as usize) {
            Some(step) => Some(step.ty),
            None => None,
        },
    }
}

fn write_arg_type(out: &mut Vec<u8>, payload: &Payload, arg: Arg) -> Result<(), Memory>
    ensures { OnOk result (out.new.items ≡ out.old.items ++ type_in payload.now arg) }
{
    match arg_type(payload, arg) {
        Some(elem) => write_elem(out, elem),
        None => write_unbuilt(out),
    }
}

fn write_block_arg(out: &mut Vec<u8>, number: u128, elem: ElemTy) -> Result<(), Memory>
    ensures { OnOk result (out.new.items ≡ out.old.items ++ block_arg_text number elem) }
{
    write_name(out, Given::Argument(number))?;
    out.extend_from_slice(b": ")?;
    write_elem(out, elem)
}

fn write_block_args(
    out: &mut Vec<u8>,
    first: u128,
    inputs: &[ElemTy],
    output: ElemTy,
) -> Result<(), Memory>
    requires { first ≤ 2 ^ 127 }
    ensures { OnOk result (out.new.items ≡ out.old.items ++ block_args_text [] first inputs.now output) }
{
    let mut number = first;
    let mut before: &[u8] = b"";
    for elem in inputs {
        out.extend_from_slice(before)?;
        write_block_arg(out, number, *elem)?;
        number += 1;
        before = b", ";
    }
    out.extend_from_slice(before)?;
    write_block_arg(out, number, output)
}

fn write_operands(
    out: &mut Vec<u8>,
    inside: &Inside<'_>,
    left: Arg,
    right: Arg,
) -> Result<(), Memory>
    ensures { OnOk result (out.new.items ≡ out.old.items ++ operands_text inside.now.args inside.now.results inside.now.payload.now left right) }
{
    write_local(out, inside, left)?;
    out.extend_from_slice(b", ")?;
    write_local(out, inside, right)
}

/// Two operands, and the type that is written for them.
fn write_typed(
    out: &mut Vec<u8>,
    inside: &Inside<'_>,
    left: Arg,
    right: Arg,
    elem: ElemTy,
) -> Result<(), Memory>
    ensures { OnOk result (out.new.items ≡ out.old.items ++ typed_text inside.now.args inside.now.results inside.now.payload.now left right (elem_text elem)) }
{
    write_operands(out, inside, left, right)?;
    out.extend_from_slice(b" : ")?;
    write_elem(out, elem)
}

fn write_binary(
    out: &mut Vec<u8>,
    inside: &Inside<'_>,
    op: BinOp,
    operands: (Arg, Arg),
    elem: ElemTy,
) -> Result<(), Memory>
    ensures { OnOk result (out.new.items ≡ out.old.items ++ binary_step_text inside.now.args inside.now.results inside.now.payload.now op operands.0 operands.1 elem) }
{
    out.extend_from_slice(binary_text(op))?;
    out.extend_from_slice(b" ")?;
    write_typed(out, inside, operands.0, operands.1, elem)
}

fn write_compare(
    out: &mut Vec<u8>,
    inside: &Inside<'_>,
    predicate: Predicate,
    left: Arg,
    right: Arg,
) -> Result<(), Memory>
    ensures { OnOk result (out.new.items ≡ out.old.items ++ compare_step_text inside.now.args inside.now.results inside.now.payload.now predicate left right) }
{
    out.extend_from_slice(b"arith.cmpi ")?;
    out.extend_from_slice(predicate_text(predicate))?;
    out.extend_from_slice(b", ")?;
    write_operands(out, inside, left, right)?;
    out.extend_from_slice(b" : ")?;
    write_arg_type(out, inside.payload, left)
}

fn write_select(
    out: &mut Vec<u8>,
    inside: &Inside<'_>,
    condition: Arg,
    operands: (Arg, Arg),
    elem: ElemTy,
) -> Result<(), Memory>
    ensures { OnOk result (out.new.items ≡ out.old.items ++ select_step_text inside.now.args inside.now.results inside.now.payload.now condition operands.0 operands.1 elem) }
{
    out.extend_from_slice(b"arith.select ")?;
    write_local(out, inside, condition)?;
    out.extend_from_slice(b", ")?;
    write_typed(out, inside, operands.0, operands.1, elem)
}

/// An operand, its type, and the type that it is changed to.
#[tactic(auto, unfolding(crate::specs::PayloadParts::conversion_text))]
fn write_conversion(
    out: &mut Vec<u8>,
    inside: &Inside<'_>,
    value: Arg,
    to: ElemTy,
) -> Result<(), Memory>
    ensures { OnOk result (out.new.items ≡ out.old.items ++ conversion_text inside.now.args inside.now.results inside.now.payload.now value to) }
{
    write_local(out, inside, value)?;
    out.extend_from_slice(b" : ")?;
    write_arg_type(out, inside.payload, value)?;
    out.extend_from_slice(b" to ")?;
    write_elem(out, to)
}

fn write_cast(
    out: &mut Vec<u8>,
    inside: &Inside<'_>,
    cast: Cast,
    value: Arg,
    to: ElemTy,
) -> Result<(), Memory>
    ensures { OnOk result (out.new.items ≡ out.old.items ++ cast_step_text inside.now.args inside.now.results inside.now.payload.now cast value to) }
{
    out.extend_from_slice(cast_text(cast))?;
    out.extend_from_slice(b" ")?;
    write_conversion(out, inside, value, to)
}

fn write_index(out: &mut Vec<u8>, dimension: u32) -> Result<(), Memory>
    ensures { OnOk result (out.new.items ≡ out.old.items ++ index_step_text dimension) }
{
    out.extend_from_slice(b"linalg.index ")?;
    write_number(out, dimension)?;
    out.extend_from_slice(b" : index")?;
    Ok(())
}

fn write_constant(out: &mut Vec<u8>, elem: ElemTy, value: u64) -> Result<(), Memory>
    ensures { OnOk result (out.new.items ≡ out.old.items ++ (codes "arith.constant " ++ literal_text elem value)) }
{
    out.extend_from_slice(b"arith.constant ")?;
    write_literal(out, &elem, value)
}

fn write_index_cast(
    out: &mut Vec<u8>,
    inside: &Inside<'_>,
    value: Arg,
    to: ElemTy,
) -> Result<(), Memory>
    ensures { OnOk result (out.new.items ≡ out.old.items ++ (codes "arith.index_cast " ++ conversion_text inside.now.args inside.now.results inside.now.payload.now value to)) }
{
    out.extend_from_slice(b"arith.index_cast ")?;
    write_conversion(out, inside, value, to)
}

/// The arguments of a linear step, between commas.
fn write_arguments(
    out: &mut Vec<u8>,
    inside: &Inside<'_>,
    terms: &[(Arg, i64)],
) -> Result<(), Memory>
    ensures { OnOk result (out.new.items ≡ out.old.items ++ arguments_text inside.now.args inside.now.results inside.now.payload.now [] terms.now) }
{
    let mut before: &[u8] = b"";
    for term in terms {
        out.extend_from_slice(before)?;
        write_local(out, inside, term.0)?;
        before = b", ";
    }
    Ok(())
}

fn write_apply(
    out: &mut Vec<u8>,
    inside: &Inside<'_>,
    map: &AffineMap,
    terms: &[(Arg, i64)],
) -> Result<(), Memory>
    ensures { OnOk result (out.new.items ≡ out.old.items ++ apply_text inside.now.aliases.now inside.now.args inside.now.results inside.now.payload.now map.now terms.now) }
{
    out.extend_from_slice(b"affine.apply ")?;
    write_use(out, inside.aliases, map)?;
    out.extend_from_slice(b"(")?;
    write_arguments(out, inside, terms)?;
    out.extend_from_slice(b")")?;
    Ok(())
}

fn write_linear(
    out: &mut Vec<u8>,
    inside: &Inside<'_>,
    constant: i64,
    terms: &[(Arg, i64)],
) -> Result<(), Memory>
    requires { IsTrue (has_map_numbers (Linear constant terms.now)) }
    ensures { OnOk result (out.new.items ≡ out.old.items ++ apply_text inside.now.aliases.now inside.now.args inside.now.results inside.now.payload.now (linear_map constant terms.now) terms.now) }
{
    let map = linear_map(inside.aliases.alloc(), constant, terms)?;
    write_apply(out, inside, &map, terms)
}

fn write_operation(out: &mut Vec<u8>, inside: &Inside<'_>, step: &PayloadStep) -> Result<(), Memory>
    requires { IsTrue (has_map_numbers step.now.op) }
    ensures { OnOk result (out.new.items ≡ out.old.items ++ operation_text inside.now.aliases.now inside.now.args inside.now.results inside.now.payload.now step.now.ty step.now.op) }
{
    let elem = step.ty;
    match &step.op {
        StepOp::Const(value) => write_constant(out, elem, *value),
        StepOp::Index(dimension) => write_index(out, *dimension),
        StepOp::Binary(op, left, right) => write_binary(out, inside, *op, (*left, *right), elem),
        StepOp::Compare(predicate, left, right) => {
            write_compare(out, inside, *predicate, *left, *right)
        }
        StepOp::Select(condition, chosen, other) => {
            write_select(out, inside, *condition, (*chosen, *other), elem)
        }
        StepOp::SignExtend(value) => write_cast(out, inside, Cast::SignExtend, *value, elem),
        StepOp::ZeroExtend(value) => write_cast(out, inside, Cast::ZeroExtend, *value, elem),
        StepOp::Truncate(value) => write_cast(out, inside, Cast::Truncate, *value, elem),
        StepOp::IndexCast(value) => write_index_cast(out, inside, *value, elem),
        StepOp::Linear { constant, terms } => {
            write_linear(out, inside, *constant, terms.as_slice())
        }
        StepOp::Captured(_) => write_unbuilt(out),
    }
}

#[tactic(auto, unfolding(crate::specs::PayloadParts::step_text))]
fn write_step(
    out: &mut Vec<u8>,
    inside: &Inside<'_>,
    number: u64,
    step: &PayloadStep,
) -> Result<(), Memory>
    requires { IsTrue (has_map_numbers step.now.op) }
    ensures { OnOk result (out.new.items ≡ out.old.items ++ step_text inside.now.aliases.now inside.now.args inside.now.results inside.now.payload.now number step.now.ty step.now.op) }
{
    write_name(out, Given::Result(inside.results + number as u128))?;
    out.extend_from_slice(b" = ")?;
    write_operation(out, inside, step)
}

fn write_steps(out: &mut Vec<u8>, inside: &Inside<'_>, steps: &[PayloadStep]) -> Result<(), Memory>
    requires { IsTrue (list_all (λ s. has_map_numbers s.op) steps.now) }
    ensures { OnOk result (out.new.items ≡ out.old.items ++ steps_text inside.now.aliases.now inside.now.args inside.now.results inside.now.payload.now 0 steps.now) }
{
    let mut number = 0u64;
    for step in steps {
        out.extend_from_slice(b"\n      ")?;
        write_step(out, inside, number, step)?;
        number += 1;
    }
    Ok(())
}

fn write_yield(out: &mut Vec<u8>, inside: &Inside<'_>) -> Result<(), Memory>
    ensures { OnOk result (out.new.items ≡ out.old.items ++ yield_text inside.now.args inside.now.results inside.now.payload.now) }
{
    out.extend_from_slice(b"\n      linalg.yield ")?;
    write_local(out, inside, inside.payload.yielded())?;
    out.extend_from_slice(b" : ")?;
    write_elem(out, inside.payload.out())
}

fn write_block(
    out: &mut Vec<u8>,
    inside: &Inside<'_>,
    inputs: &[ElemTy],
    output: &ElemTy,
    steps: &[PayloadStep],
) -> Result<(), Memory>
    requires { IsTrue (list_all (λ s. has_map_numbers s.op) steps.now) }
    ensures { OnOk result (out.new.items ≡ out.old.items ++ block_text inside.now.aliases.now inside.now.args inside.now.results inside.now.payload.now inputs.now output.now steps.now) }
{
    out.extend_from_slice(b"^bb0(")?;
    write_block_args(out, inside.args, inputs, *output)?;
    out.extend_from_slice(b"):")?;
    write_steps(out, inside, steps)?;
    write_yield(out, inside)
}

/// The region of a payload, where the numbers of arguments and of results begin at these.
pub fn write_region(
    out: &mut Vec<u8>,
    aliases: &Aliases,
    args: u128,
    results: u128,
    payload: &Payload,
) -> Result<(), Memory>
    requires args_fit { args ≤ 2 ^ 127 }
    requires results_fit { results ≤ 2 ^ 127 }
    ensures { OnOk result (out.new.items ≡ out.old.items ++ region_text aliases.now args results payload.now) }
{
    let inside = Inside {
        aliases,
        args,
        results,
        payload,
    };
    write_block(
        out,
        &inside,
        payload.ins().as_slice(),
        &payload.out(),
        payload.steps().as_slice(),
    )
}
