//! Payloads of generic operations.

ghost use Rattle.std.specs.Prelude.{◌≡◌, ◌≤◌, length, IfOk};
ghost use Rattle.mlir_lex.specs.Chain.{Agree, Leaves, Becomes};
ghost use Rattle.mlir_scope.specs.Scope.{IsOuter};
ghost use Rattle.mlir_payload.specs.Payload.{locals_of, arg_of, more_args, block_args, yield_of, stop_before_yield, parts_of, payload_of};

use crate::inside::Inside;
use crate::steps::{argument, fresh_in, read_steps};
use mlir_base::{ElemTy, List, Memory};
use mlir_lex::{Fault, Refused};
use mlir_scope::{Aliases, Meaning, Names, same_elem};
use mlir_syntax::{BlockArgs, NextArg, Region};
use payload_ops::{Arg, Payload, PayloadStep, payload};
use std::alloc::Global;
use text_format::Token;

/// What the arguments of the block stand for: the inputs, and the output.
fn locals(alloc: Global, ins: &[ElemTy], out: &ElemTy) -> Result<List<(Arg, ElemTy)>, Memory>
    requires { length ins.now ≤ 64 }
    ensures { IfOk result (λ v. v ≡ locals_of 0 ins.now out.now) }
{
    let mut found = List::new(alloc);
    let mut number = 0u32;
    for elem in ins {
        found.push((Arg::Input(number), *elem))?;
        number += 1;
    }
    found.push((Arg::Out, *out))?;
    Ok(found)
}

/// An argument of the block is defined.
fn read_arg<'a>(
    outer: &Names<'a>,
    names: &mut Names<'a>,
    stands: &(Arg, ElemTy),
    name: &Token<'a>,
    ty: &Token<'a>,
) -> Result<(), Refused>
    ensures { Becomes names.new result (arg_of outer.now names.old stands.now name.now ty.now) }
{
    fresh_in(outer, names, name)?;
    same_elem(&stands.1, ty)?;
    names.define(name.text(), Meaning::Local(stands.0, stands.1))?;
    Ok(())
}

/// The arguments behind the first.
fn read_more_args<'a>(
    outer: &Names<'a>,
    names: &mut Names<'a>,
    close: &Token<'a>,
    locals: &[(Arg, ElemTy)],
    args: &[NextArg<'a>],
) -> Result<(), Refused>
    ensures { Becomes names.new result (more_args close.now outer.now names.old locals.now args.now) }
{
    let mut wanted = locals;
    let mut rest = args;
    while let [stands, more @ ..] = wanted {
        match rest {
            [arg, others @ ..] => {
                read_arg(outer, names, stands, &arg.name, &arg.ty)?;
                wanted = more;
                rest = others;
            }
            [] => return Err(Refused::At(Fault::Syntax(close.start()))),
        }
    }
    match rest {
        [arg, ..] => Err(Refused::At(Fault::Syntax(arg.comma.start()))),
        [] => Ok(()),
    }
}

/// The arguments of the block are defined.
fn read_args<'a>(
    outer: &Names<'a>,
    names: &mut Names<'a>,
    locals: &[(Arg, ElemTy)],
    args: &BlockArgs<'a>,
) -> Result<(), Refused>
    ensures { Becomes names.new result (block_args outer.now names.old locals.now args.now) }
{
    match locals {
        [] => Ok(()),
        [stands, more @ ..] => {
            read_arg(outer, names, stands, &args.first.name, &args.first.ty)?;
            read_more_args(outer, names, &args.close, more, args.more.as_slice())
        }
    }
}

/// What the payload yields, behind its steps.
fn read_yield<'a>(
    outer: &Names<'a>,
    out: &ElemTy,
    inside: &mut Inside<'a>,
    region: &Region<'a>,
) -> Result<Arg, Refused>
    requires few { length inside.old.steps ≤ 1024 }
    ensures { Leaves inside.new.steps result (yield_of outer.now out.now inside.old region.now) }
{
    let (yielded, elem) = argument(outer, inside, 0, &region.yielded)?;
    same_elem(&elem, &region.yield_type)?;
    same_elem(out, &region.yield_type)?;
    Ok(yielded)
}

/// Where reading stopped, if it did so before the yield.
fn stop_before_yield(region: &Region) -> Option<u32>
    ensures { result ≡ stop_before_yield region.now }
{
    if region.yield_name.start() < region.yielded.start() {
        None
    } else {
        Some(region.yield_name.start())
    }
}

/// The parts of a payload. Its names are in scope inside it alone.
fn read_parts<'a>(
    alloc: Global,
    aliases: &Aliases,
    outer: &Names<'a>,
    ins: &[ElemTy],
    out: &ElemTy,
    region: &Region<'a>,
) -> Result<(List<PayloadStep>, Arg), Refused>
    requires few { length ins.now ≤ 64 }
    ensures { Agree result (parts_of aliases.now outer.now ins.now out.now region.now) }
{
    let wanted = locals(alloc, ins, out)?;
    let mut inside = Inside {
        names: Names::new(alloc),
        steps: List::new(alloc),
    };
    read_args(outer, &mut inside.names, wanted.as_slice(), &region.args)?;
    let stop = stop_before_yield(region);
    read_steps(
        alloc,
        aliases,
        outer,
        stop,
        &mut inside,
        region.steps.as_slice(),
    )?;
    let yielded = read_yield(outer, out, &mut inside, region)?;
    Ok((inside.steps, yielded))
}

/// A payload over inputs and an output of these element types.
///
/// # Errors
/// The first fault of the region, at the first token that has one. `Memory` may come at any region.
pub fn read_payload<'a>(
    alloc: Global,
    aliases: &Aliases,
    outer: &Names<'a>,
    ins: List<ElemTy>,
    out: &ElemTy,
    region: &Region<'a>,
) -> Result<Payload, Refused>
    requires few { length ins ≤ 64 }
    requires outer { IsOuter outer.now }
    ensures { Agree result (payload_of aliases.now outer.now ins out.now region.now) }
{
    aliases.are_maps();
    let (steps, yielded) = read_parts(alloc, aliases, outer, ins.as_slice(), out, region)?;
    match payload(ins, *out, steps, yielded) {
        Some(payload) => Ok(payload),
        None => unreachable!(),
    }
}
