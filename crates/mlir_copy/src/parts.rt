ghost use Rattle.std.specs.Prelude.{◌≡◌, IfOk};

use crate::lists::copy_list;
use affine_maps::{AffineMap, Expr};
use mlir_base::{List, Memory};
use payload_ops::{Payload, PayloadStep, StepOp, payload};
use std::alloc::Global;

fn copy_expr(alloc: Global, expr: &Expr) -> Result<Expr, Memory>
    ensures { IfOk result (λ e. e ≡ expr.now) }
{
    let terms = copy_list(alloc, expr.terms.as_slice())?;
    Ok(Expr {
        constant: expr.constant,
        terms,
    })
}

fn copy_exprs(alloc: Global, exprs: &[Expr]) -> Result<List<Expr>, Memory>
    ensures { IfOk result (λ l. l ≡ exprs.now) }
{
    let mut copies = List::new(alloc);
    for expr in exprs {
        let copy = copy_expr(alloc, expr)?;
        copies.push(copy)?;
    }
    Ok(copies)
}

pub(crate) fn copy_map(alloc: Global, map: &AffineMap) -> Result<AffineMap, Memory>
    ensures { IfOk result (λ m. m ≡ map.now) }
{
    let results = copy_exprs(alloc, map.results().as_slice())?;
    match AffineMap::new(map.dims(), results) {
        Some(copy) => Ok(copy),
        None => unreachable!(),
    }
}

pub(crate) fn copy_maps(alloc: Global, maps: &[AffineMap]) -> Result<List<AffineMap>, Memory>
    ensures { IfOk result (λ l. l ≡ maps.now) }
{
    let mut copies = List::new(alloc);
    for map in maps {
        let copy = copy_map(alloc, map)?;
        copies.push(copy)?;
    }
    Ok(copies)
}

/// An equal operation of a payload.
pub fn copy_step_op(alloc: Global, op: &StepOp) -> Result<StepOp, Memory>
    ensures { IfOk result (λ o. o ≡ op.now) }
{
    match op {
        StepOp::Const(n) => Ok(StepOp::Const(*n)),
        StepOp::Index(d) => Ok(StepOp::Index(*d)),
        StepOp::Captured(k) => Ok(StepOp::Captured(*k)),
        StepOp::Linear { constant, terms } => {
            let terms = copy_list(alloc, terms.as_slice())?;
            Ok(StepOp::Linear {
                constant: *constant,
                terms,
            })
        }
        StepOp::Binary(op, a, b) => Ok(StepOp::Binary(*op, *a, *b)),
        StepOp::Compare(predicate, a, b) => Ok(StepOp::Compare(*predicate, *a, *b)),
        StepOp::Select(c, a, b) => Ok(StepOp::Select(*c, *a, *b)),
        StepOp::SignExtend(a) => Ok(StepOp::SignExtend(*a)),
        StepOp::ZeroExtend(a) => Ok(StepOp::ZeroExtend(*a)),
        StepOp::Truncate(a) => Ok(StepOp::Truncate(*a)),
        StepOp::IndexCast(a) => Ok(StepOp::IndexCast(*a)),
    }
}

fn copy_step(alloc: Global, step: &PayloadStep) -> Result<PayloadStep, Memory>
    ensures { IfOk result (λ s. s ≡ step.now) }
{
    let op = copy_step_op(alloc, &step.op)?;
    Ok(PayloadStep { ty: step.ty, op })
}

fn copy_steps(alloc: Global, steps: &[PayloadStep]) -> Result<List<PayloadStep>, Memory>
    ensures { IfOk result (λ l. l ≡ steps.now) }
{
    let mut copies = List::new(alloc);
    for step in steps {
        let copy = copy_step(alloc, step)?;
        copies.push(copy)?;
    }
    Ok(copies)
}

pub(crate) fn copy_payload(alloc: Global, p: &Payload) -> Result<Payload, Memory>
    ensures { IfOk result (λ q. q ≡ p.now) }
{
    let ins = copy_list(alloc, p.ins().as_slice())?;
    let steps = copy_steps(alloc, p.steps().as_slice())?;
    match payload(ins, p.out(), steps, p.yielded()) {
        Some(copy) => Ok(copy),
        None => unreachable!(),
    }
}
