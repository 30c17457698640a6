use mlir_base::{ElemTy, List, Memory};
use payload_laws::{can_trap, combiner, neutral_under};
use payload_ops::{Arg, BinOp, Combiner, Division, Payload, PayloadStep, StepOp, eval, payload};
use std::alloc::Global;

/// The operation on the input and the output's element, both `index`.
fn joining(alloc: Global, op: BinOp) -> Result<Option<Payload>, Memory> {
    let mut ins = List::new(alloc);
    ins.push(ElemTy::Index)?;
    let mut steps = List::new(alloc);
    steps.push(PayloadStep {
        ty: ElemTy::Index,
        op: StepOp::Binary(op, Arg::Input(0), Arg::Out),
    })?;
    Ok(payload(ins, ElemTy::Index, steps, Arg::Step(0)))
}

#[test]
fn payloads_are_asked_before_they_run(rt: HostRuntime) -> Result<(), Memory> {
    let rows = [
        (BinOp::Addi, Some(Combiner::Add), false, true),
        (BinOp::Muli, Some(Combiner::Mul), false, false),
        (BinOp::Divui, None, true, false),
    ];
    for (op, joins, traps, keeps) in rows {
        match joining(rt.alloc(), op)? {
            Some(p) => {
                assert!(rt; combiner(&p) == joins);
                assert!(rt; can_trap(&p) == traps);
                let mut scratch = [None];
                if p.ins().len() == 1 && p.steps().len() == 1 {
                    assert!(rt; neutral_under(&p, &[Some(0)], &mut scratch) == keeps);
                }
            }
            None => assert!(rt; false),
        }
    }
    Ok(())
}

#[test]
fn a_step_that_nothing_uses_runs(rt: HostRuntime) -> Result<(), Memory> {
    let mut steps = List::new(rt.alloc());
    steps.push(PayloadStep {
        ty: ElemTy::Index,
        op: StepOp::Binary(BinOp::Remui, Arg::Out, Arg::Out),
    })?;
    match payload(List::new(rt.alloc()), ElemTy::Index, steps, Arg::Out) {
        Some(p) => {
            assert!(rt; eval(&p, &[], &[], &[], 5, &mut [0]) == Ok(5));
            assert!(rt; eval(&p, &[], &[], &[], 0, &mut [0]) == Err(Division));
        }
        None => assert!(rt; false),
    }
    Ok(())
}
