ghost use Rattle.std.specs.Prelude.{◌≡◌};
ghost use Rattle.payload_laws.specs.Known.{constant_in, constant_of, divisor_may_trap, divides, op_may_trap, may_trap};

use mlir_base::{ElemTy, Width, all_ones};
use payload_ops::{Arg, BinOp, Payload, PayloadStep, StepOp};

/// Tells whether some values could make a step trap. True exactly where a division or remainder has a
/// divisor that is no constant, or that is 0, or where `Divsi` has the divisor -1
/// (Arith manual, "arith.divsi").
pub fn can_trap(p: &Payload) -> bool
    ensures { result ≡ may_trap p.now }
{
    let steps = p.steps().as_slice();
    for step in steps {
        if op_may_trap(steps, &step.ty, &step.op) {
            return true;
        }
    }
    false
}

fn op_may_trap(steps: &[PayloadStep], ty: &ElemTy, op: &StepOp) -> bool
    ensures { result ≡ op_may_trap steps.now ty.now op.now }
{
    match op {
        StepOp::Binary(op, _, divisor) => {
            divides(*op) && divisor_may_trap(*op, ty.width(), constant_of(steps, *divisor))
        }
        _ => false,
    }
}

fn divides(op: BinOp) -> bool
    ensures { result ≡ divides op }
{
    matches!(
        op,
        BinOp::Divsi | BinOp::Divui | BinOp::Remsi | BinOp::Remui
    )
}

fn divisor_may_trap(op: BinOp, w: Width, divisor: Option<u64>) -> bool
    ensures { result ≡ divisor_may_trap op w divisor }
{
    match divisor {
        Some(b) => match op {
            BinOp::Divsi => b == 0 || b == all_ones(w),
            _ => b == 0,
        },
        None => true,
    }
}

// The constant that an argument names, where it names one.
fn constant_of(steps: &[PayloadStep], arg: Arg) -> Option<u64>
    ensures { result ≡ constant_of steps.now arg }
{
    match arg {
        Arg::Step(k) => match steps.get(k as usize) {
            Some(step) => constant_in(&step.op),
            None => None,
        },
        _ => None,
    }
}

fn constant_in(op: &StepOp) -> Option<u64>
    ensures { result ≡ constant_in op.now }
{
    match op {
        StepOp::Const(value) => Some(*value),
        _ => None,
    }
}
