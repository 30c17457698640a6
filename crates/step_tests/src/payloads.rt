//! Payloads that are formed: joined, with captured values at their first uses.

use affine_maps::Expr;
use mlir_base::{ElemTy, List, Memory};
use payload_forms::{Joining, join, joined, placed};
use payload_ops::{Arg, BinOp, Payload, PayloadStep, StepOp, payload};
use std::alloc::Global;

/// A step of type `index`.
fn step(op: StepOp) -> PayloadStep {
    PayloadStep {
        ty: ElemTy::Index,
        op,
    }
}

/// One input, its first captured value times `linalg.index d`, that added to the input twice.
fn scaled(alloc: Global, d: u32) -> Result<Option<Payload>, Memory> {
    let mut ins = List::new(alloc);
    ins.push(ElemTy::Index)?;
    let mut steps = List::new(alloc);
    steps.push(step(StepOp::Captured(0)))?;
    steps.push(step(StepOp::Index(d)))?;
    steps.push(step(StepOp::Binary(BinOp::Muli, Arg::Step(0), Arg::Step(1))))?;
    steps.push(step(StepOp::Binary(BinOp::Addi, Arg::Step(2), Arg::Input(0))))?;
    steps.push(step(StepOp::Binary(BinOp::Addi, Arg::Step(3), Arg::Step(0))))?;
    Ok(payload(ins, ElemTy::Index, steps, Arg::Step(4)))
}

/// d1 + 7
fn later(alloc: Global) -> Result<List<Expr>, Memory> {
    let mut terms = List::new(alloc);
    terms.push((1u32, 1i64))?;
    let mut exprs = List::new(alloc);
    exprs.push(Expr { constant: 7, terms })?;
    Ok(exprs)
}

/// The producer's dimension 0 is this expression, and of three captured values both have the last one.
fn joining(exprs: &List<Expr>, input: u32) -> Joining<'_> {
    Joining {
        input,
        exprs: exprs.as_slice(),
        captured: 3,
        of_producer: &[2],
        of_consumer: &[2],
    }
}

fn number_of(arg: Arg) -> u32 {
    match arg {
        Arg::Input(i) => 100 + i % 100,
        Arg::Out => 99,
        Arg::Step(i) => i,
    }
}

/// Whether the step has this letter and these numbers: of a dimension or captured value, or of its arguments. An input
/// counts from 100.
fn is_step(op: &StepOp, letter: u8, a: u32, b: u32) -> bool {
    match op {
        StepOp::Captured(k) => letter == b'c' && *k == a,
        StepOp::Index(d) => letter == b'i' && *d == a,
        StepOp::Linear { constant, terms } => {
            letter == b'l' && *constant == 7 && terms.len() == 1 && a == b
        }
        StepOp::Binary(BinOp::Muli, x, y) => {
            letter == b'm' && number_of(*x) == a && number_of(*y) == b
        }
        StepOp::Binary(BinOp::Addi, x, y) => {
            letter == b'a' && number_of(*x) == a && number_of(*y) == b
        }
        _ => false,
    }
}

fn has_steps(p: Option<Payload>, rows: &[(u8, u32, u32)], yielded: u32) -> bool {
    let Some(p) = p else {
        return false;
    };
    for (i, row) in rows.iter().enumerate() {
        match p.steps().as_slice().get(i) {
            Some(step) => {
                if !is_step(&step.op, row.0, row.1, row.2) {
                    return false;
                }
            }
            None => return false,
        }
    }
    p.steps().len() == rows.len() && number_of(p.yielded()) == yielded
}

fn joined_payload(alloc: Global, input: u32) -> Result<Option<Payload>, Memory> {
    let Some(producer) = scaled(alloc, 0)? else {
        return Ok(None);
    };
    let Some(consumer) = scaled(alloc, 0)? else {
        return Ok(None);
    };
    let exprs = later(alloc)?;
    let by = joining(&exprs, input);
    joined(alloc, &by, &producer, &consumer)
}

fn placed_payload(alloc: Global) -> Result<Option<Payload>, Memory> {
    let Some(producer) = scaled(alloc, 0)? else {
        return Ok(None);
    };
    let Some(consumer) = scaled(alloc, 0)? else {
        return Ok(None);
    };
    let exprs = later(alloc)?;
    let by = joining(&exprs, 0);
    match placed(alloc, join(alloc, &by, &producer, &consumer)?)? {
        Some(p) => Ok(Some(p.payload)),
        None => Ok(None),
    }
}

#[test]
fn payloads_are_joined_and_placed(rt: HostRuntime) -> Result<(), Memory> {
    let in_front = [
        (b'c', 0u32, 0u32),
        (b'c', 1, 0),
        (b'c', 2, 0),
        (b'i', 1, 0),
        (b'l', 0, 0),
        (b'm', 2, 4),
        (b'a', 5, 100),
        (b'a', 6, 2),
        (b'i', 0, 0),
        (b'm', 2, 8),
        (b'a', 9, 7),
        (b'a', 10, 2),
    ];
    let at_first_use = [
        (b'i', 1u32, 0u32),
        (b'l', 0, 0),
        (b'c', 0, 0),
        (b'm', 2, 1),
        (b'a', 3, 100),
        (b'a', 4, 2),
        (b'i', 0, 0),
        (b'm', 2, 6),
        (b'a', 7, 5),
        (b'a', 8, 2),
    ];
    assert!(rt; has_steps(joined_payload(rt.alloc(), 0)?, &in_front, 11));
    assert!(rt; has_steps(placed_payload(rt.alloc())?, &at_first_use, 9));
    assert!(rt; joined_payload(rt.alloc(), 1)?.is_none());
    Ok(())
}
