//! The steps of payloads.

ghost use Rattle.std.specs.Prelude.{◌≡◌, ◌<◌, ◌≤◌, ◌+◌, ◌++◌, None, Some, length, true, OnOk, OnErr, IfOk, option_copied};
ghost use Rattle.affine_maps.specs.Map.{terms_fit};
ghost use Rattle.mlir_base.specs.Types.{is_elem};
ghost use Rattle.payload_ops.specs.Payload.{is_narrower, is_cast};
ghost use Rattle.mlir_base.specs.declared.types.ElemTy.TheVariants.{Int};
ghost use Rattle.mlir_payload.specs.declared.inside.Inside.{Inside as Insider};
ghost use Rattle.mlir_scope.specs.declared.names.Meaning.TheVariants.{Constant};
ghost use Rattle.mlir_lex.specs.Chain.{Agree, Leaves, Becomes, thread};
ghost use Rattle.mlir_scope.specs.Names.{find};
ghost use Rattle.mlir_payload.specs.Steps.{fresh_in, with_step, constant_step, brought, argument, binary_of, compare_of, select_of, converted, is_integer, changes_width, cast_op, cast_of, index_cast_of, index_of, symbol_operands, fits_operands, only, stop_of, fault_of_map, fault_at_stop, index_argument, apply_arguments, term_on, linear, apply_of, operation_of, name_in, room, step_of, stop_behind, steps_of};

use crate::inside::Inside;
use affine_maps::{AffineMap, Expr};
use mlir_base::{ElemTy, List, Memory, Which};
use mlir_lex::{Fault, Refused};
use mlir_scope::{
    Aliases, Cast, Meaning, Names, binary_named, cast_named, digits_value, elem_at, fresh, one_bit,
    predicate_named, read_literal, read_map_with_symbols, same_elem, use_start,
};
use mlir_syntax::{
    ApplyOperand, ApplyStep, ApplySymbols, BinaryStep, CompareStep, Conversion, SelectStep, Step,
    StepOperation,
};
use payload_ops::{Arg, PayloadStep, StepOp};
use std::alloc::Global;
use text_format::Token;

/// No name of this text is in scope, in the function or in the payload.
pub fn fresh_in(outer: &Names, names: &Names, token: &Token) -> Result<(), Refused>
    ensures { Agree result (fresh_in outer.now names.now token.now) }
{
    fresh(outer, token)?;
    fresh(names, token)
}

/// One more step, under this name.
fn add_step<'a>(inside: &mut Inside<'a>, name: &Token<'a>, step: PayloadStep) -> Result<(), Memory>
    requires new { find inside.old.names name.now.text ≡ None }
    requires few { length inside.old.steps < 1024 }
    ensures { OnOk result (inside.new ≡ with_step inside.old name.now.text step) }
{
    let number = inside.steps.len() as u32;
    inside
        .names
        .define(name.text(), Meaning::Local(Arg::Step(number), step.ty))?;
    inside.steps.push(step)?;
    Ok(())
}

/// A scalar constant of the function becomes a step.
fn bring<'a>(
    inside: &mut Inside<'a>,
    more: usize,
    token: &Token<'a>,
    elem: &ElemTy,
    value: u64,
) -> Result<(Arg, ElemTy), Refused>
    requires new { find inside.old.names token.now.text ≡ None }
    requires few { length inside.old.steps + more ≤ 1024 }
    ensures value { Leaves inside.new result (brought more inside.old token.now (Some (Constant 0 elem.now value))) }
    ensures few { OnOk result (length inside.new.steps + more ≤ 1024) }
{
    let count = inside.steps.len();
    if count + more >= 1024 {
        return Err(Refused::At(Fault::Limit(Which::PayloadSteps, token.start())));
    }
    let step = PayloadStep {
        ty: *elem,
        op: StepOp::Const(value),
    };
    add_step(inside, token, step)?;
    Ok((Arg::Step(count as u32), *elem))
}

/// An argument of the block, an earlier step, or a constant of the function, which becomes a step where it isn't one yet.
pub fn argument<'a>(
    outer: &Names<'a>,
    inside: &mut Inside<'a>,
    more: usize,
    token: &Token<'a>,
) -> Result<(Arg, ElemTy), Refused>
    requires few { length inside.old.steps + more ≤ 1024 }
    ensures value { Leaves inside.new result (argument outer.now more inside.old token.now) }
    ensures few { OnOk result (length inside.new.steps + more ≤ 1024) }
{
    match inside.names.find(token.text()) {
        Some(Meaning::Local(arg, elem)) => return Ok((*arg, *elem)),
        Some(_) => return Err(Refused::At(Fault::UnknownName(token.start()))),
        None => {}
    }
    match outer.find(token.text()) {
        Some(Meaning::Constant(_, elem, value)) => bring(inside, more, token, elem, *value),
        Some(Meaning::Held(..)) => Err(Refused::At(Fault::Unsupported(token.start()))),
        Some(Meaning::Local(..)) => Err(Refused::At(Fault::UnknownName(token.start()))),
        None => Err(Refused::At(Fault::UnknownName(token.start()))),
    }
}

fn read_binary<'a>(
    outer: &Names<'a>,
    inside: &mut Inside<'a>,
    step: &BinaryStep<'a>,
) -> Result<PayloadStep, Refused>
    requires few { length inside.old.steps < 1024 }
    ensures value { Leaves inside.new result (binary_of outer.now inside.old step.now) }
    ensures few { OnOk result (length inside.new.steps < 1024) }
{
    let Some(op) = binary_named(step.name.text()) else {
        return Err(Refused::At(Fault::Syntax(step.name.start())));
    };
    let (left, elem) = argument(outer, inside, 1, &step.left)?;
    let (right, other) = argument(outer, inside, 1, &step.right)?;
    same_elem(&elem, &step.ty)?;
    same_elem(&other, &step.ty)?;
    Ok(PayloadStep {
        ty: elem,
        op: StepOp::Binary(op, left, right),
    })
}

fn read_compare<'a>(
    outer: &Names<'a>,
    inside: &mut Inside<'a>,
    step: &CompareStep<'a>,
) -> Result<PayloadStep, Refused>
    requires few { length inside.old.steps < 1024 }
    ensures value { Leaves inside.new result (compare_of outer.now inside.old step.now) }
    ensures few { OnOk result (length inside.new.steps < 1024) }
{
    let Some(predicate) = predicate_named(step.predicate.text()) else {
        return Err(Refused::At(Fault::Syntax(step.predicate.start())));
    };
    let (left, elem) = argument(outer, inside, 1, &step.left)?;
    let (right, other) = argument(outer, inside, 1, &step.right)?;
    same_elem(&elem, &step.ty)?;
    same_elem(&other, &step.ty)?;
    Ok(PayloadStep {
        ty: ElemTy::Int(one_bit()),
        op: StepOp::Compare(predicate, left, right),
    })
}

fn is_truth(elem: &ElemTy) -> bool
    ensures { result ≡ is_elem elem.now (Int 1) }
{
    match elem {
        ElemTy::Int(width) => width.bits() == 1,
        ElemTy::Index => false,
    }
}

fn read_select<'a>(
    outer: &Names<'a>,
    inside: &mut Inside<'a>,
    step: &SelectStep<'a>,
) -> Result<PayloadStep, Refused>
    requires few { length inside.old.steps < 1024 }
    ensures value { Leaves inside.new result (select_of outer.now inside.old step.now) }
    ensures few { OnOk result (length inside.new.steps < 1024) }
{
    let (condition, truth) = argument(outer, inside, 1, &step.condition)?;
    let (chosen, elem) = argument(outer, inside, 1, &step.chosen)?;
    let (other, same) = argument(outer, inside, 1, &step.other)?;
    same_elem(&elem, &step.ty)?;
    same_elem(&same, &step.ty)?;
    if !is_truth(&truth) {
        return Err(Refused::At(Fault::TypeDiffers(step.ty.start())));
    }
    Ok(PayloadStep {
        ty: elem,
        op: StepOp::Select(condition, chosen, other),
    })
}

/// The operand of a conversion, with the type that is written for it.
fn read_converted<'a>(
    outer: &Names<'a>,
    inside: &mut Inside<'a>,
    conversion: &Conversion<'a>,
) -> Result<(Arg, ElemTy), Refused>
    requires few { length inside.old.steps < 1024 }
    ensures value { Leaves inside.new result (converted outer.now inside.old conversion.now) }
    ensures few { OnOk result (length inside.new.steps < 1024) }
{
    let (value, elem) = argument(outer, inside, 1, &conversion.value)?;
    same_elem(&elem, &conversion.from)?;
    Ok((value, elem))
}

fn is_integer(elem: &ElemTy) -> bool
    ensures { result ≡ is_integer elem.now }
{
    match elem {
        ElemTy::Int(_) => true,
        ElemTy::Index => false,
    }
}

fn is_narrower(elem: &ElemTy, than: &ElemTy) -> bool
    ensures { result ≡ is_narrower elem.now than.now }
{
    match (elem, than) {
        (ElemTy::Int(v), ElemTy::Int(w)) => v.bits() < w.bits(),
        _ => false,
    }
}

fn changes_width(cast: Cast, from: &ElemTy, to: &ElemTy) -> bool
    ensures { result ≡ changes_width cast from.now to.now }
{
    match cast {
        Cast::SignExtend | Cast::ZeroExtend => is_narrower(from, to),
        Cast::Truncate => is_narrower(to, from),
    }
}

fn cast_op(cast: Cast, value: Arg) -> StepOp
    ensures { result ≡ cast_op cast value }
{
    match cast {
        Cast::SignExtend => StepOp::SignExtend(value),
        Cast::ZeroExtend => StepOp::ZeroExtend(value),
        Cast::Truncate => StepOp::Truncate(value),
    }
}

fn read_cast<'a>(
    outer: &Names<'a>,
    inside: &mut Inside<'a>,
    name: &Token<'a>,
    conversion: &Conversion<'a>,
) -> Result<PayloadStep, Refused>
    requires few { length inside.old.steps < 1024 }
    ensures value { Leaves inside.new result (cast_of outer.now inside.old name.now conversion.now) }
    ensures few { OnOk result (length inside.new.steps < 1024) }
{
    let Some(cast) = cast_named(name.text()) else {
        return Err(Refused::At(Fault::Syntax(name.start())));
    };
    let (value, elem) = read_converted(outer, inside, conversion)?;
    if !is_integer(&elem) {
        return Err(Refused::At(Fault::TypeDiffers(conversion.from.start())));
    }
    let to = elem_at(&conversion.to)?;
    if !changes_width(cast, &elem, &to) {
        return Err(Refused::At(Fault::TypeDiffers(conversion.to.start())));
    }
    Ok(PayloadStep {
        ty: to,
        op: cast_op(cast, value),
    })
}

/// Whether exactly one of the types is `index`.
fn is_cast(from: &ElemTy, to: &ElemTy) -> bool
    ensures { result ≡ is_cast (Some from.now) to.now }
{
    match (from, to) {
        (ElemTy::Int(_), ElemTy::Index) | (ElemTy::Index, ElemTy::Int(_)) => true,
        _ => false,
    }
}

fn read_index_cast<'a>(
    outer: &Names<'a>,
    inside: &mut Inside<'a>,
    conversion: &Conversion<'a>,
) -> Result<PayloadStep, Refused>
    requires few { length inside.old.steps < 1024 }
    ensures value { Leaves inside.new result (index_cast_of outer.now inside.old conversion.now) }
    ensures few { OnOk result (length inside.new.steps < 1024) }
{
    let (value, elem) = read_converted(outer, inside, conversion)?;
    let to = elem_at(&conversion.to)?;
    if !is_cast(&elem, &to) {
        return Err(Refused::At(Fault::TypeDiffers(conversion.to.start())));
    }
    Ok(PayloadStep {
        ty: to,
        op: StepOp::IndexCast(value),
    })
}

/// A coordinate of the point.
fn read_index(dimension: &Token) -> Result<PayloadStep, Refused>
    ensures { (s : Insider) → Leaves s result (index_of s dimension.now) }
{
    match digits_value(dimension.text()) {
        Some(number) if number <= 1048576 => Ok(PayloadStep {
            ty: ElemTy::Index,
            op: StepOp::Index(number as u32),
        }),
        _ => Err(Refused::At(Fault::Number(dimension.start(), dimension.start()))),
    }
}

/// The operands in brackets.
fn symbol_operands<'b, 'a>(symbols: &'b Option<ApplySymbols<'a>>) -> &'b [ApplyOperand<'a>]
    ensures { result.now ≡ symbol_operands symbols.now }
{
    match symbols {
        None => &[],
        Some(brackets) => brackets.operands.as_slice(),
    }
}

/// Whether the map has a dimension for each operand.
fn fits_operands(map: &AffineMap, apply: &ApplyStep) -> bool
    ensures { result ≡ fits_operands map.now apply.now }
{
    let symbols = symbol_operands(&apply.symbols);
    map.dims() as u128 == apply.operands.len() as u128 + symbols.len() as u128
}

fn only(results: &[Expr]) -> Option<&Expr>
    ensures { option_copied result ≡ only results.now }
{
    match results {
        [result] => Some(result),
        _ => None,
    }
}

/// Where reading stopped, if more operands might have followed: behind a closed bracket none do.
fn stop_of(symbols: &Option<ApplySymbols>, stop: Option<u32>) -> Option<u32>
    ensures { result ≡ stop_of symbols.now stop }
{
    let Some(brackets) = symbols else {
        return stop;
    };
    match stop {
        Some(at) => {
            if brackets.close.start() < at {
                None
            } else {
                Some(at)
            }
        }
        None => None,
    }
}

/// A wrong number of operands, where they have ended.
fn fault_of_map(stop: Option<u32>, fits: bool, at: u32) -> Result<(), Refused>
    ensures { Agree result (fault_of_map stop fits at) }
{
    if stop.is_none() && !fits {
        return Err(Refused::At(Fault::Unsupported(at)));
    }
    Ok(())
}

/// A wrong number of operands, where reading stopped and more may have been meant.
fn fault_at_stop(stop: Option<u32>, fits: bool) -> Result<(), Refused>
    ensures { Agree result (fault_at_stop stop fits) }
{
    match stop {
        Some(at) if !fits => Err(Refused::At(Fault::Syntax(at))),
        _ => Ok(()),
    }
}

/// An operand has type `index`.
fn read_index_argument<'a>(
    outer: &Names<'a>,
    inside: &mut Inside<'a>,
    operand: &ApplyOperand<'a>,
) -> Result<Arg, Refused>
    requires few { length inside.old.steps < 1024 }
    ensures value { Leaves inside.new result (index_argument outer.now inside.old operand.now) }
    ensures few { OnOk result (length inside.new.steps < 1024) }
{
    let (arg, elem) = argument(outer, inside, 1, &operand.name)?;
    match elem {
        ElemTy::Index => Ok(arg),
        ElemTy::Int(_) => Err(Refused::At(Fault::TypeDiffers(operand.name.start()))),
    }
}

/// Operands of type `index`, in order.
fn read_index_arguments<'a>(
    alloc: Global,
    outer: &Names<'a>,
    inside: &mut Inside<'a>,
    operands: &[ApplyOperand<'a>],
) -> Result<List<Arg>, Refused>
    requires few { length inside.old.steps < 1024 }
    ensures value { Leaves inside.new result (thread (index_argument outer.now) inside.old operands.now) }
    ensures few { OnOk result (length inside.new.steps < 1024) }
{
    let mut found = List::new(alloc);
    for operand in operands {
        let arg = read_index_argument(outer, inside, operand)?;
        found.push(arg)?;
    }
    Ok(found)
}

fn joined(first: List<Arg>, more: &[Arg]) -> Result<List<Arg>, Memory>
    ensures { IfOk result (λ l. l ≡ first ++ more.now) }
{
    let mut all = first;
    for arg in more {
        all.push(*arg)?;
    }
    Ok(all)
}

/// The operands, those in brackets behind the others.
fn read_apply_arguments<'a>(
    alloc: Global,
    outer: &Names<'a>,
    inside: &mut Inside<'a>,
    apply: &ApplyStep<'a>,
) -> Result<List<Arg>, Refused>
    requires few { length inside.old.steps < 1024 }
    ensures value { Leaves inside.new result (apply_arguments outer.now inside.old apply.now) }
    ensures few { OnOk result (length inside.new.steps < 1024) }
{
    let first = read_index_arguments(alloc, outer, inside, apply.operands.as_slice())?;
    let symbols = symbol_operands(&apply.symbols);
    let more = read_index_arguments(alloc, outer, inside, symbols)?;
    let all = joined(first, more.as_slice())?;
    Ok(all)
}

/// A dimension's argument with its coefficient.
fn term_on(arguments: &[Arg], term: &(u32, i64)) -> (Arg, i64)
    requires { term.now.0 < length arguments.now }
    ensures { result ≡ term_on arguments.now term.now }
{
    (arguments[term.0 as usize], term.1)
}

/// A map's result on these arguments.
fn linear(alloc: Global, value: &Expr, arguments: &[Arg]) -> Result<PayloadStep, Memory>
    requires { terms_fit (length arguments.now) value.now.terms 0 ≡ true }
    ensures { IfOk result (λ p. p ≡ linear value.now arguments.now) }
{
    let mut terms = List::new(alloc);
    for term in value.terms.as_slice() {
        terms.push(term_on(arguments, term))?;
    }
    Ok(PayloadStep {
        ty: ElemTy::Index,
        op: StepOp::Linear {
            constant: value.constant,
            terms,
        },
    })
}

fn read_apply<'a>(
    alloc: Global,
    aliases: &Aliases,
    outer: &Names<'a>,
    stop: Option<u32>,
    inside: &mut Inside<'a>,
    apply: &ApplyStep<'a>,
) -> Result<PayloadStep, Refused>
    requires few { length inside.old.steps < 1024 }
    ensures value { Leaves inside.new result (apply_of aliases.now outer.now stop inside.old apply.now) }
    ensures few { OnOk result (length inside.new.steps < 1024) }
{
    let map = read_map_with_symbols(alloc, aliases, &apply.map)?;
    let at = use_start(&apply.map);
    let Some(value) = only(map.results().as_slice()) else {
        return Err(Refused::At(Fault::Unsupported(at)));
    };
    let fits = fits_operands(&map, apply);
    let stop = stop_of(&apply.symbols, stop);
    fault_of_map(stop, fits, at)?;
    let arguments = read_apply_arguments(alloc, outer, inside, apply)?;
    fault_at_stop(stop, fits)?;
    let step = linear(alloc, value, arguments.as_slice())?;
    Ok(step)
}

fn read_operation<'a>(
    alloc: Global,
    aliases: &Aliases,
    outer: &Names<'a>,
    stop: Option<u32>,
    inside: &mut Inside<'a>,
    operation: &StepOperation<'a>,
) -> Result<PayloadStep, Refused>
    requires few { length inside.old.steps < 1024 }
    ensures value { Leaves inside.new result (operation_of aliases.now outer.now stop inside.old operation.now) }
    ensures few { OnOk result (length inside.new.steps < 1024) }
{
    match operation {
        StepOperation::Constant(constant) => {
            let (elem, value) = read_literal(&constant.literal)?;
            Ok(PayloadStep {
                ty: elem,
                op: StepOp::Const(value),
            })
        }
        StepOperation::Binary(binary) => read_binary(outer, inside, binary),
        StepOperation::Compare(compare) => read_compare(outer, inside, compare),
        StepOperation::Select(select) => read_select(outer, inside, select),
        StepOperation::IndexCast(cast) => read_index_cast(outer, inside, &cast.conversion),
        StepOperation::Index(index) => read_index(&index.dimension),
        StepOperation::Apply(apply) => read_apply(alloc, aliases, outer, stop, inside, apply),
        StepOperation::Cast(cast) => read_cast(outer, inside, &cast.name, &cast.conversion),
    }
}

fn name_in<'b, 'a>(operation: &'b StepOperation<'a>) -> &'b Token<'a>
    ensures { result.now ≡ name_in operation.now }
{
    match operation {
        StepOperation::Constant(constant) => &constant.name,
        StepOperation::Binary(binary) => &binary.name,
        StepOperation::Compare(compare) => &compare.name,
        StepOperation::Select(select) => &select.name,
        StepOperation::IndexCast(cast) => &cast.name,
        StepOperation::Index(index) => &index.name,
        StepOperation::Apply(apply) => &apply.name,
        StepOperation::Cast(cast) => &cast.name,
    }
}

/// One more step is within the limit.
fn room(inside: &Inside, token: &Token) -> Result<(), Refused>
    ensures exact { Agree result (room inside.now token.now) }
    ensures few { OnOk result (length inside.now.steps < 1024) }
{
    if inside.steps.len() < 1024 {
        Ok(())
    } else {
        Err(Refused::At(Fault::Limit(Which::PayloadSteps, token.start())))
    }
}

/// The next step, which is defined behind it.
fn read_step<'a>(
    alloc: Global,
    aliases: &Aliases,
    outer: &Names<'a>,
    stop: Option<u32>,
    inside: &mut Inside<'a>,
    step: &Step<'a>,
) -> Result<(), Refused>
    ensures value { Becomes inside.new result (step_of aliases.now outer.now stop inside.old step.now) }
    ensures few { OnOk result (length inside.new.steps ≤ 1024) }
{
    fresh_in(outer, &inside.names, &step.result)?;
    room(inside, name_in(&step.operation))?;
    let one = read_operation(alloc, aliases, outer, stop, inside, &step.operation)?;
    add_step(inside, &step.result, one)?;
    Ok(())
}

/// Reading has not stopped before a next step.
fn stop_behind(stop: Option<u32>, rest: &[Step]) -> Option<u32>
    ensures { result ≡ stop_behind stop rest.now }
{
    match rest {
        [] => stop,
        _ => None,
    }
}

/// The steps of a payload, each of which is defined behind it. `stop` is where reading stopped, if it did so before the yield.
pub fn read_steps<'a>(
    alloc: Global,
    aliases: &Aliases,
    outer: &Names<'a>,
    stop: Option<u32>,
    inside: &mut Inside<'a>,
    steps: &[Step<'a>],
) -> Result<(), Refused>
    requires few { length inside.old.steps ≤ 1024 }
    ensures value { Becomes inside.new result (steps_of aliases.now outer.now stop inside.old steps.now) }
    ensures few { OnOk result (length inside.new.steps ≤ 1024) }
{
    let mut left = steps;
    while let [step, rest @ ..] = left {
        read_step(alloc, aliases, outer, stop_behind(stop, rest), inside, step)?;
        left = rest;
    }
    Ok(())
}
