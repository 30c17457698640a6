//! The steps `generalize` and `interchange` on small modules.

use affine_maps::{AffineMap, Expr};
use mlir_base::{ElemTy, List, Memory, Name, Width};
use mlir_ir::{Extent, Func, Iter, Module, Op, OpId, OpKind, Ty, ValueId, find, uses};
use mlir_verify::{Checked, verify};
use payload_ops::{Arg, BinOp, Payload, PayloadStep, StepOp, payload};
use rewrite_base::{Made, StepError, StepRule, generalize, interchange};
use std::alloc::Global;

fn tensor(alloc: Global, sizes: &[u32]) -> Result<Ty, Memory> {
    let mut extents = List::new(alloc);
    for size in sizes {
        extents.push(Extent::Fixed(*size))?;
    }
    let elem = Width::new(32).ok_or(Memory)?;
    Ok(Ty::Tensor { extents, elem })
}

fn one<T: Drop>(alloc: Global, item: T) -> Result<List<T>, Memory> {
    let mut all = List::new(alloc);
    all.push(item)?;
    Ok(all)
}

/// An operation of this kind with one result of this type.
fn giving(alloc: Global, sizes: &[u32], kind: OpKind) -> Result<Op, Memory> {
    let ty = tensor(alloc, sizes)?;
    let results = one(alloc, (ValueId(9), ty))?;
    Ok(Op {
        id: OpId(0),
        results,
        kind,
    })
}

fn returning(alloc: Global) -> Result<Op, Memory> {
    let values = one(alloc, ValueId(9))?;
    Ok(Op {
        id: OpId(1),
        results: List::new(alloc),
        kind: OpKind::Return { values },
    })
}

/// An operation, and the return of its result.
fn body_of(alloc: Global, op: Op) -> Result<List<Op>, Memory> {
    let mut body = one(alloc, op)?;
    body.push(returning(alloc)?)?;
    Ok(body)
}

fn verified(alloc: Global, funcs: List<Func>) -> Result<Checked, Memory> {
    match verify(alloc, Module { funcs }) {
        Ok(checked) => Ok(checked),
        Err(_) => Err(Memory),
    }
}

fn funcs_of(
    alloc: Global,
    params: List<(ValueId, Ty)>,
    results: List<Ty>,
    body: List<Op>,
) -> Result<List<Func>, Memory> {
    let name = Name::new(alloc, "f")?;
    let mut funcs = List::new(alloc);
    if body.as_slice().len() > 0 {
        funcs.push(Func {
            name,
            params,
            results,
            body,
        })?;
    }
    Ok(funcs)
}

/// A function whose first operation gives its result, of this type.
fn module_of(
    alloc: Global,
    params: List<(ValueId, Ty)>,
    sizes: &[u32],
    kind: OpKind,
) -> Result<Checked, Memory> {
    let op = giving(alloc, sizes, kind)?;
    let body = body_of(alloc, op)?;
    let results = one(alloc, tensor(alloc, sizes)?)?;
    let funcs = funcs_of(alloc, params, results, body)?;
    verified(alloc, funcs)
}

fn matmul(alloc: Global) -> Result<Checked, Memory> {
    let mut params = one(alloc, (ValueId(0), tensor(alloc, &[5, 3])?))?;
    params.push((ValueId(1), tensor(alloc, &[3, 7])?))?;
    params.push((ValueId(2), tensor(alloc, &[5, 7])?))?;
    let kind = OpKind::Matmul {
        a: ValueId(0),
        b: ValueId(1),
        outs: ValueId(2),
    };
    module_of(alloc, params, &[5, 7], kind)
}

fn dimension(alloc: Global, d: u32) -> Result<Expr, Memory> {
    Ok(Expr {
        constant: 0,
        terms: one(alloc, (d, 1))?,
    })
}

/// Joins the output's element with the input.
fn joining(alloc: Global, op: BinOp) -> Result<Payload, Memory> {
    let elem = ElemTy::Int(Width::new(32).ok_or(Memory)?);
    let steps = one(
        alloc,
        PayloadStep {
            ty: elem,
            op: StepOp::Binary(op, Arg::Out, Arg::Input(0)),
        },
    )?;
    payload(one(alloc, elem)?, elem, steps, Arg::Step(0)).ok_or(Memory)
}

/// A matrix and a scalar.
fn matrix_and_scalar(alloc: Global) -> Result<List<(ValueId, Ty)>, Memory> {
    let mut params = one(alloc, (ValueId(0), tensor(alloc, &[2, 3])?))?;
    params.push((ValueId(1), tensor(alloc, &[])?))?;
    Ok(params)
}

/// The map to both dimensions, and the one to none.
fn reducing_maps(alloc: Global) -> Result<List<AffineMap>, Memory> {
    let mut results = one(alloc, dimension(alloc, 0)?)?;
    results.push(dimension(alloc, 1)?)?;
    let mut maps = one(alloc, AffineMap::new(2, results).ok_or(Memory)?)?;
    maps.push(AffineMap::new(2, List::new(alloc)).ok_or(Memory)?)?;
    Ok(maps)
}

fn two_reductions(alloc: Global) -> Result<List<Iter>, Memory> {
    let mut iterators = one(alloc, Iter::Reduction)?;
    iterators.push(Iter::Reduction)?;
    Ok(iterators)
}

/// A reduction of a matrix to a scalar by this operation.
fn reducing(alloc: Global, op: BinOp) -> Result<OpKind, Memory> {
    let maps = reducing_maps(alloc)?;
    let iterators = two_reductions(alloc)?;
    let ins = one(alloc, ValueId(0))?;
    let payload = joining(alloc, op)?;
    Ok(OpKind::Generic {
        maps,
        iterators,
        ins,
        outs: ValueId(1),
        captured: List::new(alloc),
        payload,
    })
}

fn reduction(alloc: Global, op: BinOp) -> Result<Checked, Memory> {
    let params = matrix_and_scalar(alloc)?;
    let kind = reducing(alloc, op)?;
    module_of(alloc, params, &[], kind)
}

/// What a step did: the number of the operation that stands for its target, or the rule that it breaks.
fn outcome(answer: &Result<(Checked, Made), StepError>) -> Option<(Option<u32>, Option<StepRule>)> {
    match answer {
        Ok(formed) => match formed.1.ops.as_slice().first() {
            Some(op) => Some((Some(op.0), None)),
            None => None,
        },
        Err(StepError::Rule { rule, op: Some(_) }) => Some((None, Some(*rule))),
        Err(_) => None,
    }
}

fn generalized(alloc: Global, c: Checked, op: OpId) -> Result<(Checked, Made), StepError> {
    if find(c.module(), op).is_none() {
        return Err(StepError::Memory);
    }
    generalize(alloc, c, op)
}

fn interchanged(
    alloc: Global,
    c: Checked,
    op: OpId,
    order: &[u32],
) -> Result<(Checked, Made), StepError> {
    if find(c.module(), op).is_none() {
        return Err(StepError::Memory);
    }
    interchange(alloc, c, op, order)
}

/// How many maps, iterators and steps the operation has, where it is a generic, and how often its value is used.
fn counts(m: &Module, op: OpId, v: ValueId) -> Option<(usize, usize, usize, u32)> {
    match find(m, op) {
        Some(found) => match &found.kind {
            OpKind::Generic {
                maps,
                iterators,
                payload,
                ..
            } => Some((
                maps.len(),
                iterators.len(),
                payload.steps().len(),
                uses(m, v),
            )),
            _ => None,
        },
        None => None,
    }
}

/// The same of what a step formed.
fn formed_counts(
    answer: &Result<(Checked, Made), StepError>,
    op: OpId,
    v: ValueId,
) -> Option<(usize, usize, usize, u32)> {
    match answer {
        Ok(formed) => counts(formed.0.module(), op, v),
        Err(_) => None,
    }
}

#[test]
fn products_become_generics(rt: HostRuntime) -> Result<(), Memory> {
    let alloc = rt.alloc();
    let formed = generalized(alloc, matmul(alloc)?, OpId(0));
    assert!(rt; outcome(&formed) == Some((Some(2), None)));
    assert!(rt; formed_counts(&formed, OpId(2), ValueId(10)) == Some((3, 3, 2, 1)));
    Ok(())
}

/// What interchanging the dimensions of a reduction by this operation does.
fn turned(
    alloc: Global,
    op: BinOp,
    order: &[u32],
) -> Result<Option<(Option<u32>, Option<StepRule>)>, Memory> {
    let c = reduction(alloc, op)?;
    Ok(outcome(&interchanged(alloc, c, OpId(0), order)))
}

#[test]
fn steps_name_the_rule_that_they_break(rt: HostRuntime) -> Result<(), Memory> {
    let alloc = rt.alloc();
    let wrong = Some((None, Some(StepRule::WrongKind)));
    assert!(rt; outcome(&generalized(alloc, matmul(alloc)?, OpId(1))) == wrong);
    let order = Some((None, Some(StepRule::Permutation)));
    assert!(rt; turned(alloc, BinOp::Addi, &[0, 0])? == order);
    assert!(rt; turned(alloc, BinOp::Addi, &[1, 0])? == Some((Some(2), None)));
    let kept = Some((None, Some(StepRule::ReductionOrder)));
    assert!(rt; turned(alloc, BinOp::Subi, &[1, 0])? == kept);
    Ok(())
}
