ghost use Rattle.std.specs.Prelude.{◌≡◌, ◌≤◌, ◌%◌, ◌^◌, [], length, IsSome, slice_get};
ghost use Rattle.std.specs.Option.{option_map, option_and_then};
ghost use Rattle.payload_ops.specs.Bits.{binary_of, compares, reduce, signed_of};
ghost use Rattle.payload_laws.specs.Known.{known_arg, known_first, known_second, known_binary, agreed, known_select, known_compare, known_op, known_steps, where_true, is_known_as, is_neutral_under};
ghost use Rattle.mlir_base.specs.Types.{bits_of};
ghost use Rattle.payload_ops.specs.Payload.{arg_type};
ghost use Rattle.payload_ops.specs.Values.{arg_bits, bit_of};

use crate::combine::{combining, neutral};
use mlir_base::{ElemTy, Width, all_ones};
use payload_ops::{
    Arg, BinOp, Division, Payload, Predicate, StepOp, binary, compare, low_bits, signed,
    wrap_signed,
};

/// Tells whether the term of a payload with a combiner is known to be the combiner's neutral element
/// where only some inputs are known: `pads` has one entry for each input, a value of its type or
/// `None`. Then a payload that cannot trap keeps the output's element. False where there is no
/// combiner. `scratch` is at least as long as the steps, and what it holds afterwards is not said.
pub fn neutral_under(p: &Payload, pads: &[Option<u64>], scratch: &mut [Option<u64>]) -> bool
    requires pads { length pads.now ≡ length p.now.ins }
    requires room { length p.now.steps ≤ length scratch.old }
    ensures { result ≡ is_neutral_under p.now pads.now }
{
    match combining(p.steps().as_slice(), p.yielded()) {
        Some(found) => {
            let term = known_after(p, pads, scratch, found.1);
            is_known_as(neutral(found.0, p.out().width()), term)
        }
        None => false,
    }
}

// What is known of an argument after all steps.
fn known_after(
    p: &Payload,
    pads: &[Option<u64>],
    scratch: &mut [Option<u64>],
    arg: Arg,
) -> Option<u64>
    requires pads { length pads.now ≡ length p.now.ins }
    requires room { length p.now.steps ≤ length scratch.old }
    ensures { result ≡ known_arg pads.now (known_steps p.now pads.now p.now.steps []) arg }
{
    let steps = p.steps().as_slice();
    for i in 0..steps.len() {
        let step = &steps[i];
        let known = Known {
            payload: p,
            pads,
            done: &scratch[..i],
        };
        let value = known.op(&step.ty, &step.op);
        scratch[i] = value;
    }
    let known = Known {
        payload: p,
        pads,
        done: &scratch[..steps.len()],
    };
    known.arg(arg)
}

/// What is known of a payload: of its inputs, and of its first steps.
#[derive(Drop)]
struct Known<'a> {
    payload: &'a Payload,
    pads: &'a [Option<u64>],
    done: &'a [Option<u64>],
}

impl<'a> Known<'a> {
    fn arg(&self, arg: Arg) -> Option<u64>
        ensures { result ≡ known_arg self.now.pads.now self.now.done.now arg }
    {
        match arg {
            Arg::Input(k) => known_at(self.pads, k),
            Arg::Out => None,
            Arg::Step(k) => known_at(self.done, k),
        }
    }

    fn width(&self, arg: Arg) -> Width
        requires { IsSome (arg_type self.now.payload.now.ins self.now.payload.now.out self.now.payload.now.steps arg) }
        ensures { result ≡ arg_bits self.now.payload.now arg }
    {
        match arg {
            Arg::Input(k) => self.payload.ins().as_slice()[k as usize].width(),
            Arg::Out => self.payload.out().width(),
            Arg::Step(k) => self.payload.steps().as_slice()[k as usize].ty.width(),
        }
    }

    #[tactic(auto, unfolding(crate::specs::Known::known_op))]
    fn op(&self, ty: &ElemTy, op: &StepOp) -> Option<u64>
        requires pads { length self.now.pads.now ≡ length self.now.payload.now.ins }
        requires done { length self.now.done.now ≤ length self.now.payload.now.steps }
        ensures { result ≡ known_op (known_arg self.now.pads.now self.now.done.now) (arg_bits self.now.payload.now) ty.now op.now }
    {
        match op {
            StepOp::Const(value) => Some(*value),
            StepOp::Index(_) => None,
            StepOp::Captured(_) => None,
            StepOp::Linear { .. } => None,
            StepOp::Binary(op, a, b) => known_binary(*op, ty.width(), self.arg(*a), self.arg(*b)),
            StepOp::Compare(predicate, a, b) => self.compare(*predicate, *a, *b),
            StepOp::Select(c, a, b) => known_select(self.arg(*c), self.arg(*a), self.arg(*b)),
            StepOp::SignExtend(a) => self.sign_read(ty, *a),
            StepOp::ZeroExtend(a) => self.arg(*a),
            StepOp::Truncate(a) => truncated(ty.width(), self.arg(*a)),
            StepOp::IndexCast(a) => self.sign_read(ty, *a),
        }
    }

    fn compare(&self, predicate: Predicate, a: Arg, b: Arg) -> Option<u64>
        requires pads { length self.now.pads.now ≡ length self.now.payload.now.ins }
        requires done { length self.now.done.now ≤ length self.now.payload.now.steps }
        ensures { result ≡ known_compare (compares predicate (arg_bits self.now.payload.now a)) (known_arg self.now.pads.now self.now.done.now a) (known_arg self.now.pads.now self.now.done.now b) }
    {
        match self.arg(a) {
            Some(x) => match self.arg(b) {
                Some(y) => Some(compared(predicate, self.width(a), x, y)),
                None => None,
            },
            None => None,
        }
    }

    // The signed reading of the argument as a value of the type.
    fn sign_read(&self, ty: &ElemTy, arg: Arg) -> Option<u64>
        requires pads { length self.now.pads.now ≡ length self.now.payload.now.ins }
        requires done { length self.now.done.now ≤ length self.now.payload.now.steps }
        ensures { result ≡ option_map (λ v. reduce (bits_of ty.now) (signed_of (arg_bits self.now.payload.now arg) v)) (known_arg self.now.pads.now self.now.done.now arg) }
    {
        match self.arg(arg) {
            Some(value) => Some(resized(self.width(arg), ty.width(), value)),
            None => None,
        }
    }
}

fn known_at(values: &[Option<u64>], k: u32) -> Option<u64>
    ensures { result ≡ option_and_then (λ v. v) (slice_get values.now k) }
{
    match values.get(k as usize) {
        Some(known) => *known,
        None => None,
    }
}

fn is_known_as(value: u64, known: Option<u64>) -> bool
    ensures { result ≡ is_known_as value known }
{
    match known {
        Some(found) => found == value,
        None => false,
    }
}

// These functions read their numbers modulo 2^N, and so ask for no range.

#[tactic(auto, using(payload_ops::proofs::Residues::compares_low))]
fn compared(predicate: Predicate, w: Width, a: u64, b: u64) -> u64
    ensures { result ≡ bit_of (compares predicate w a b) }
{
    if compare(predicate, w, low_bits(w, a), low_bits(w, b)) {
        1
    } else {
        0
    }
}

#[tactic(auto, using(payload_ops::proofs::Residues::signed_of_low))]
fn resized(from: Width, to: Width, value: u64) -> u64
    ensures { result ≡ reduce to (signed_of from value) }
{
    wrap_signed(to, signed(from, low_bits(from, value)))
}

fn truncated(w: Width, known: Option<u64>) -> Option<u64>
    ensures { result ≡ option_map (λ v. v % 2 ^ w) known }
{
    match known {
        Some(value) => Some(low_bits(w, value)),
        None => None,
    }
}

#[tactic(auto, using(payload_ops::proofs::Residues::binary_of_low))]
fn value_of(op: BinOp, w: Width, a: u64, b: u64) -> Option<u64>
    ensures { result ≡ binary_of op w a b }
{
    match binary(op, w, low_bits(w, a), low_bits(w, b)) {
        Ok(value) => Some(value),
        Err(Division) => None,
    }
}

fn known_binary(op: BinOp, w: Width, a: Option<u64>, b: Option<u64>) -> Option<u64>
    ensures { result ≡ known_binary op w a b }
{
    match a {
        Some(x) => match b {
            Some(y) => value_of(op, w, x, y),
            None => known_first(op, w, x),
        },
        None => match b {
            Some(y) => known_second(op, w, y),
            None => None,
        },
    }
}

// An operation whose first argument alone is known.
fn known_first(op: BinOp, w: Width, a: u64) -> Option<u64>
    ensures { result ≡ known_first op w a }
{
    match op {
        BinOp::Muli | BinOp::Andi => where_true(a == 0, 0),
        BinOp::Ori => where_true(a == all_ones(w), a),
        BinOp::Shli | BinOp::Shrsi | BinOp::Shrui => where_true(a == 0, 0),
        _ => None,
    }
}

// An operation whose second argument alone is known.
fn known_second(op: BinOp, w: Width, b: u64) -> Option<u64>
    ensures { result ≡ known_second op w b }
{
    match op {
        BinOp::Muli | BinOp::Andi => where_true(b == 0, 0),
        BinOp::Ori => where_true(b == all_ones(w), b),
        _ => None,
    }
}

fn where_true(test: bool, value: u64) -> Option<u64>
    ensures { result ≡ where_true test value }
{
    if test { Some(value) } else { None }
}

fn known_select(condition: Option<u64>, a: Option<u64>, b: Option<u64>) -> Option<u64>
    ensures { result ≡ known_select condition a b }
{
    match condition {
        Some(c) => { if c == 0 { b } else { a } }
        None => agreed(a, b),
    }
}

// The value where both are known and equal.
fn agreed(a: Option<u64>, b: Option<u64>) -> Option<u64>
    ensures { result ≡ agreed a b }
{
    match a {
        Some(x) => match b {
            Some(y) => where_true(x == y, x),
            None => None,
        },
        None => None,
    }
}
