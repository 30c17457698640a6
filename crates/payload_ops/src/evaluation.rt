ghost use Rattle.std.specs.Prelude.{◌≡◌, ◌%◌, ◌^◌, ◌<◌, ◌≤◌, pos, ◌+ℤ◌, ◌*ℤ◌, IsTrue, IfOk, IsSome, length, take, slice_index};
ghost use Rattle.std.specs.List.{list_all};
ghost use Rattle.payload_ops.specs.Bits.{reduce, signed_of, Gives};
ghost use Rattle.payload_ops.specs.Payload.{arg_type, term_fits};
ghost use Rattle.mlir_base.specs.Types.{is_value};
ghost use Rattle.payload_ops.specs.Values.{arg_value, arg_bits, terms_sum, step_value, payload_value, IsGiven};
ghost use Rattle.payload_ops.specs.Evaluation.{given_of, IsReady, IsNext};

use crate::bits::{compare, low_bits, signed, wrap_signed};
use crate::kinds::Division;
use crate::operations::binary;
use crate::payloads::Payload;
use crate::step::{Arg, PayloadStep, StepOp};
use mlir_base::Width;

/// A payload, and what it is given at one point.
#[derive(Drop)]
struct Arguments<'a> {
    payload: &'a Payload,
    point: &'a [u64],
    outer: &'a [u64],
    ins: &'a [u64],
    out: u64,
}

impl<'a> Arguments<'a> {
    // The value of an argument, where `done` are the values of the steps so far.
    fn value_of(&self, arg: Arg, done: &[u64]) -> u64
        requires ready { IsReady self.now.payload.now (given_of self.now) done.now }
        requires named { IsSome (arg_type self.now.payload.now.ins self.now.payload.now.out (take (length done.now) self.now.payload.now.steps) arg) }
        ensures value { result ≡ arg_value (given_of self.now) done.now arg }
        ensures in_type { result < 2 ^ arg_bits self.now.payload.now arg }
    {
        match arg {
            Arg::Input(k) => self.ins[k as usize],
            Arg::Out => self.out,
            Arg::Step(k) => done[k as usize],
        }
    }

    fn width_of(&self, arg: Arg) -> Width
        requires { IsSome (arg_type self.now.payload.now.ins self.now.payload.now.out self.now.payload.now.steps arg) }
        ensures { result ≡ arg_bits self.now.payload.now arg }
    {
        match arg {
            Arg::Input(k) => self.payload.ins().as_slice()[k as usize].width(),
            Arg::Out => self.payload.out().width(),
            Arg::Step(k) => self.payload.steps().as_slice()[k as usize].ty.width(),
        }
    }

    // A constant and the sum of coefficients times arguments, modulo 2^64.
    fn linear(&self, constant: i64, terms: &[(Arg, i64)], done: &[u64]) -> u64
        requires ready { IsReady self.now.payload.now (given_of self.now) done.now }
        requires fits { IsTrue (list_all (term_fits (arg_type self.now.payload.now.ins self.now.payload.now.out (take (length done.now) self.now.payload.now.steps))) terms.now) }
        ensures { result ≡ reduce 64 (constant +ℤ terms_sum (arg_value (given_of self.now) done.now) terms.now) }
    {
        let mut sum = constant.cast_unsigned();
        for term in terms {
            sum = plus_scaled(sum, term.1, self.value_of(term.0, done));
        }
        sum
    }

    // The signed reading of an argument at another width (Arith manual, "arith.extsi" and
    // "arith.index_cast").
    fn resized(&self, arg: Arg, to: Width, done: &[u64]) -> u64
        requires ready { IsReady self.now.payload.now (given_of self.now) done.now }
        requires named { IsSome (arg_type self.now.payload.now.ins self.now.payload.now.out (take (length done.now) self.now.payload.now.steps) arg) }
        ensures { result ≡ reduce to (signed_of (arg_bits self.now.payload.now arg) (arg_value (given_of self.now) done.now arg)) }
    {
        wrap_signed(to, signed(self.width_of(arg), self.value_of(arg, done)))
    }

    // The value of the next step, where `done` are those of the steps before it.
    #[tactic(auto, unfolding(crate::specs::Values::op_value))]
    fn step_value(&self, step: &PayloadStep, done: &[u64]) -> Result<u64, Division>
        requires { IsNext self.now.payload.now (given_of self.now) done.now step.now }
        ensures { Gives (step_value self.now.payload.now (given_of self.now) done.now step.now) result }
    {
        match &step.op {
            StepOp::Const(value) => Ok(*value),
            StepOp::Index(d) => Ok(index_at(self.point, *d)),
            StepOp::Captured(k) => Ok(index_at(self.outer, *k)),
            StepOp::Linear { constant, terms } => {
                Ok(self.linear(*constant, terms.as_slice(), done))
            }
            StepOp::Binary(op, a, b) => binary(
                *op,
                step.ty.width(),
                self.value_of(*a, done),
                self.value_of(*b, done),
            ),
            StepOp::Compare(predicate, a, b) => {
                let holds = compare(
                    *predicate,
                    self.width_of(*a),
                    self.value_of(*a, done),
                    self.value_of(*b, done),
                );
                Ok(u64::from(holds))
            }
            StepOp::Select(condition, a, b) => {
                if self.value_of(*condition, done) == 0 {
                    Ok(self.value_of(*b, done))
                } else {
                    Ok(self.value_of(*a, done))
                }
            }
            StepOp::SignExtend(a) => Ok(self.resized(*a, step.ty.width(), done)),
            StepOp::ZeroExtend(a) => Ok(self.value_of(*a, done)),
            StepOp::Truncate(a) => Ok(low_bits(step.ty.width(), self.value_of(*a, done))),
            StepOp::IndexCast(a) => Ok(self.resized(*a, step.ty.width(), done)),
        }
    }
}

// A sum and a coefficient times a value, modulo 2^64.
fn plus_scaled(sum: u64, coefficient: i64, value: u64) -> u64
    ensures { result ≡ reduce 64 (pos sum +ℤ (coefficient *ℤ pos value)) }
{
    sum.wrapping_add(coefficient.cast_unsigned().wrapping_mul(value))
}

// An element as a value of type `index`.
fn index_at(values: &[u64], k: u32) -> u64
    requires { k < length values.now }
    ensures { result ≡ slice_index values.now k % 2 ^ 64 }
{
    values[k as usize]
}

/// What the output's element becomes at a point (Linalg manual, "linalg.generic"): the yielded
/// argument after all steps. `point` has the coordinates, `outer` the captured values, `ins` one
/// element of each input and `out` the output's. `Division` comes exactly where some step traps,
/// also one that nothing uses. `scratch` has a place for each step's value, and what it holds
/// afterwards is not said.
pub fn eval(
    p: &Payload,
    point: &[u64],
    outer: &[u64],
    ins: &[u64],
    out: u64,
    scratch: &mut [u64],
) -> Result<u64, Division>
    requires given { IsGiven p.now (record { point = point.now; outer = outer.now; ins = ins.now; out = out }) }
    requires room { length p.now.steps ≤ length scratch.old }
    ensures value { Gives (payload_value p.now (record { point = point.now; outer = outer.now; ins = ins.now; out = out })) result }
    ensures in_type { IfOk result (λ v. IsTrue (is_value p.now.out v)) }
{
    let arguments = Arguments {
        payload: p,
        point,
        outer,
        ins,
        out,
    };
    for (i, step) in p.steps().as_slice().iter().enumerate() {
        let value = arguments.step_value(step, &scratch[..i])?;
        scratch[i] = value;
    }
    Ok(arguments.value_of(p.yielded(), &scratch[..p.steps().len()]))
}
