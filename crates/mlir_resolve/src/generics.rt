//! Generic operations.

ghost use Rattle.std.specs.Prelude.{◌≡◌, ◌<◌, ◌≤◌, length, IfOk, OnOk, map};
ghost use Rattle.mlir_lex.specs.Chain.{Agree, each};
ghost use Rattle.mlir_scope.specs.Maps.{map_of};
ghost use Rattle.mlir_scope.specs.Scope.{IsOuter};
ghost use Rattle.mlir_payload.specs.Payload.{payload_of};
ghost use Rattle.mlir_resolve.specs.Generics.{iterator_of, iterators_from, inputs_of, more_types, input_types, typed_inputs, typed_output, operands_of, generic_with, generic_of};

use affine_maps::AffineMap;
use mlir_base::{ElemTy, List, Memory, Which};
use mlir_ir::{Iter, OpKind, Ty, ValueId};
use mlir_lex::{Fault, Refused};
use mlir_payload::read_payload;
use mlir_scope::{Aliases, Names, operand, read_map, type_at, typed_as};
use mlir_syntax::{
    Generic, Inputs, IteratorType, MapUse, NextInput, NextType, Operands, Output, Region,
};
use payload_ops::Payload;
use std::alloc::Global;
use text_format::Token;

/// The maps, in order.
fn read_maps(alloc: Global, aliases: &Aliases, uses: &[MapUse]) -> Result<List<AffineMap>, Refused>
    ensures { Agree result (each (map_of aliases.now) uses.now) }
{
    let mut found = List::new(alloc);
    for used in uses {
        let map = read_map(alloc, aliases, used)?;
        found.push(map)?;
    }
    Ok(found)
}

/// Iterator `number`.
fn read_iterator(number: usize, iterator: &IteratorType) -> Result<Iter, Refused>
    ensures { Agree result (iterator_of number iterator.now) }
{
    if number >= 12 {
        return Err(Refused::At(Fault::Limit(Which::Loops, iterator.word.start())));
    }
    if iterator.word.text() == b"\"parallel\"".as_slice() {
        Ok(Iter::Parallel)
    } else {
        Ok(Iter::Reduction)
    }
}

/// The iterators, in order.
fn read_iterators(alloc: Global, iterators: &[IteratorType]) -> Result<List<Iter>, Refused>
    ensures { Agree result (iterators_from 0 iterators.now) }
{
    let mut found = List::new(alloc);
    let mut number = 0usize;
    for iterator in iterators {
        let next = read_iterator(number, iterator)?;
        found.push(next)?;
        number += 1;
    }
    Ok(found)
}

/// The inputs, in order, with their element types.
fn read_inputs(
    alloc: Global,
    names: &Names,
    inputs: &Inputs,
) -> Result<List<(ValueId, ElemTy)>, Refused>
    ensures { Agree result (inputs_of names.now inputs.now) }
{
    let mut found = List::new(alloc);
    let first = operand(names, 0, &inputs.first)?;
    found.push(first)?;
    let mut number = 1usize;
    for input in inputs.more.as_slice() {
        let next = operand(names, number, &input.name)?;
        found.push(next)?;
        number += 1;
    }
    Ok(found)
}

/// The types behind the first, one for each input.
fn read_more_types(
    alloc: Global,
    names: &Names,
    close: &Token,
    inputs: &[NextInput],
    types: &[NextType],
) -> Result<(), Refused>
    ensures { Agree result (more_types close.now names.now inputs.now types.now) }
{
    let mut wanted = inputs;
    let mut rest = types;
    while let [input, more @ ..] = wanted {
        match rest {
            [written, others @ ..] => {
                typed_as(alloc, names, &input.name, &written.ty)?;
                wanted = more;
                rest = others;
            }
            [] => return Err(Refused::At(Fault::Syntax(close.start()))),
        }
    }
    match rest {
        [written, ..] => Err(Refused::At(Fault::Syntax(written.comma.start()))),
        [] => Ok(()),
    }
}

/// The types of the inputs.
fn read_input_types(alloc: Global, names: &Names, inputs: &Inputs) -> Result<(), Refused>
    ensures { Agree result (input_types names.now inputs.now) }
{
    typed_as(alloc, names, &inputs.first, &inputs.types.first)?;
    read_more_types(
        alloc,
        names,
        &inputs.types.close,
        inputs.more.as_slice(),
        inputs.types.more.as_slice(),
    )
}

/// The inputs with their element types, where there are any.
#[tactic(auto, unfolding(crate::specs::Generics::typed_inputs))]
fn read_typed_inputs(
    alloc: Global,
    names: &Names,
    inputs: &Option<Inputs>,
) -> Result<List<(ValueId, ElemTy)>, Refused>
    ensures { Agree result (typed_inputs names.now inputs.now) }
{
    match inputs {
        None => Ok(List::new(alloc)),
        Some(inputs) => {
            let found = read_inputs(alloc, names, inputs)?;
            read_input_types(alloc, names, inputs)?;
            Ok(found)
        }
    }
}

/// The output, with its element type.
fn read_typed_output(
    alloc: Global,
    names: &Names,
    number: usize,
    output: &Output,
) -> Result<(ValueId, ElemTy), Refused>
    ensures exact { Agree result (typed_output names.now number output.now) }
    ensures few { OnOk result (number < 64) }
{
    let found = operand(names, number, &output.name)?;
    typed_as(alloc, names, &output.name, &output.ty)?;
    Ok(found)
}

/// The inputs and the output, with their element types.
fn read_operands(
    alloc: Global,
    names: &Names,
    operands: &Operands,
) -> Result<(List<(ValueId, ElemTy)>, (ValueId, ElemTy)), Refused>
    ensures value { Agree result (operands_of names.now operands.now) }
    ensures few { IfOk result (λ r. length r.0 < 64) }
{
    let ins = read_typed_inputs(alloc, names, &operands.inputs)?;
    match read_typed_output(alloc, names, ins.as_slice().len(), &operands.output) {
        Ok(out) => Ok((ins, out)),
        Err(refused) => Err(refused),
    }
}

fn elems(alloc: Global, values: &[(ValueId, ElemTy)]) -> Result<List<ElemTy>, Memory>
    ensures { IfOk result (λ l. l ≡ map (λ v. v.1) values.now) }
{
    let mut found = List::new(alloc);
    for value in values {
        found.push(value.1)?;
    }
    Ok(found)
}

fn ids(alloc: Global, values: &[(ValueId, ElemTy)]) -> Result<List<ValueId>, Memory>
    ensures { IfOk result (λ l. l ≡ map (λ v. v.0) values.now) }
{
    let mut found = List::new(alloc);
    for value in values {
        found.push(value.0)?;
    }
    Ok(found)
}

/// The payload over these inputs and this output.
fn read_region<'a>(
    alloc: Global,
    aliases: &Aliases,
    names: &Names<'a>,
    ins: &List<(ValueId, ElemTy)>,
    out: &ElemTy,
    region: &Region<'a>,
) -> Result<Payload, Refused>
    requires few { length ins.now ≤ 64 }
    requires outer { IsOuter names.now }
    ensures { Agree result (payload_of aliases.now names.now (map (λ v. v.1) ins.now) out.now region.now) }
{
    let inputs = elems(alloc, ins.as_slice())?;
    read_payload(alloc, aliases, names, inputs, out, region)
}

fn generic_kind(
    alloc: Global,
    maps: List<AffineMap>,
    iterators: List<Iter>,
    ins: &List<(ValueId, ElemTy)>,
    out: ValueId,
    payload: Payload,
) -> Result<OpKind, Memory>
    ensures { IfOk result (λ k. k ≡ generic_with maps iterators ins.now out payload) }
{
    let numbers = ids(alloc, ins.as_slice())?;
    Ok(OpKind::Generic {
        maps,
        iterators,
        ins: numbers,
        outs: out,
        captured: List::new(alloc),
        payload,
    })
}

/// A generic operation, with the type of its result.
pub fn read_generic<'a>(
    alloc: Global,
    aliases: &Aliases,
    names: &Names<'a>,
    generic: &Generic<'a>,
) -> Result<(Ty, OpKind), Refused>
    requires outer { IsOuter names.now }
    ensures { Agree result (generic_of aliases.now names.now generic.now) }
{
    let maps = read_maps(alloc, aliases, generic.maps.as_slice())?;
    let iterators = read_iterators(alloc, generic.iterators.as_slice())?;
    let (ins, out) = read_operands(alloc, names, &generic.operands)?;
    let payload = read_region(alloc, aliases, names, &ins, &out.1, &generic.region)?;
    let ty = type_at(alloc, &generic.result_type)?;
    let kind = generic_kind(alloc, maps, iterators, &ins, out.0, payload)?;
    Ok((ty, kind))
}
