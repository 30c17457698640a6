ghost use Rattle.std.specs.Prelude.{◌≡◌, []};
ghost use Rattle.std.specs.List.{list_all};
ghost use Rattle.mlir_base.specs.Types.{is_elem, is_value};
ghost use Rattle.payload_ops.specs.Payload.{arg_type, has_type, term_fits, op_fits, steps_fit, have_one_type, is_narrower, is_widening, is_narrowing, is_cast};

use crate::step::{Arg, PayloadStep, StepOp};
use mlir_base::{ElemTy, is_coefficient, is_in_range};

/// What the arguments of a step may name.
#[derive(Drop)]
pub struct Scope<'a> {
    pub ins: &'a [ElemTy],
    pub out: &'a ElemTy,
    pub earlier: &'a [PayloadStep],
}

impl<'a> Scope<'a> {
    fn type_of(&self, arg: Arg) -> Option<ElemTy>
        ensures { result ≡ arg_type self.now.ins.now self.now.out.now self.now.earlier.now arg }
    {
        match arg {
            Arg::Input(k) => self.ins.get(k as usize).copied(),
            Arg::Out => Some(*self.out),
            Arg::Step(k) => match self.earlier.get(k as usize) {
                Some(step) => Some(step.ty),
                None => None,
            },
        }
    }

    pub fn has_type(&self, arg: Arg, ty: &ElemTy) -> bool
        ensures { result ≡ has_type (arg_type self.now.ins.now self.now.out.now self.now.earlier.now arg) ty.now }
    {
        match self.type_of(arg) {
            Some(found) => is_elem(&found, ty),
            None => false,
        }
    }

    fn is_bool(&self, arg: Arg) -> bool
        ensures { result ≡ has_type (arg_type self.now.ins.now self.now.out.now self.now.earlier.now arg) (ElemTy.Int 1) }
    {
        match self.type_of(arg) {
            Some(ty) => is_bool_type(&ty),
            None => false,
        }
    }

    fn have_one_type(&self, a: Arg, b: Arg) -> bool
        ensures { result ≡ have_one_type (arg_type self.now.ins.now self.now.out.now self.now.earlier.now a) (arg_type self.now.ins.now self.now.out.now self.now.earlier.now b) }
    {
        match self.type_of(a) {
            Some(ty) => self.has_type(b, &ty),
            None => false,
        }
    }

    fn is_widening(&self, arg: Arg, to: &ElemTy) -> bool
        ensures { result ≡ is_widening (arg_type self.now.ins.now self.now.out.now self.now.earlier.now arg) to.now }
    {
        match self.type_of(arg) {
            Some(from) => is_narrower(&from, to),
            None => false,
        }
    }

    fn is_narrowing(&self, arg: Arg, to: &ElemTy) -> bool
        ensures { result ≡ is_narrowing (arg_type self.now.ins.now self.now.out.now self.now.earlier.now arg) to.now }
    {
        match self.type_of(arg) {
            Some(from) => is_narrower(to, &from),
            None => false,
        }
    }

    fn is_cast(&self, arg: Arg, to: &ElemTy) -> bool
        ensures { result ≡ is_cast (arg_type self.now.ins.now self.now.out.now self.now.earlier.now arg) to.now }
    {
        match self.type_of(arg) {
            Some(from) => is_index(&from) != is_index(to),
            None => false,
        }
    }

    fn terms_fit(&self, terms: &[(Arg, i64)]) -> bool
        ensures { result ≡ list_all (term_fits (arg_type self.now.ins.now self.now.out.now self.now.earlier.now)) terms.now }
    {
        for term in terms {
            if !self.has_type(term.0, &ElemTy::Index) || !is_coefficient(term.1) {
                return false;
            }
        }
        true
    }

    fn op_fits(&self, ty: &ElemTy, op: &StepOp) -> bool
        ensures { result ≡ op_fits (arg_type self.now.ins.now self.now.out.now self.now.earlier.now) ty.now op.now }
    {
        match op {
            StepOp::Const(value) => is_value(ty, *value),
            StepOp::Index(_) => is_index(ty),
            StepOp::Captured(_) => is_index(ty),
            StepOp::Linear { constant, terms } => {
                is_index(ty) && is_in_range(*constant) && self.terms_fit(terms.as_slice())
            }
            StepOp::Binary(_, a, b) => self.has_type(*a, ty) && self.has_type(*b, ty),
            StepOp::Compare(_, a, b) => is_bool_type(ty) && self.have_one_type(*a, *b),
            StepOp::Select(condition, a, b) => {
                self.is_bool(*condition) && self.has_type(*a, ty) && self.has_type(*b, ty)
            }
            StepOp::SignExtend(a) => self.is_widening(*a, ty),
            StepOp::ZeroExtend(a) => self.is_widening(*a, ty),
            StepOp::Truncate(a) => self.is_narrowing(*a, ty),
            StepOp::IndexCast(a) => self.is_cast(*a, ty),
        }
    }
}

// These functions borrow the types, since a copy of a type inside a match is not followed by the
// borrow checker.
fn is_elem(a: &ElemTy, b: &ElemTy) -> bool
    ensures { result ≡ is_elem a.now b.now }
{
    match a {
        ElemTy::Int(v) => match b {
            ElemTy::Int(w) => v.bits() == w.bits(),
            ElemTy::Index => false,
        },
        ElemTy::Index => is_index(b),
    }
}

fn is_index(ty: &ElemTy) -> bool
    ensures { result ≡ is_elem ty.now ElemTy.Index }
{
    matches!(ty, ElemTy::Index)
}

fn is_bool_type(ty: &ElemTy) -> bool
    ensures { result ≡ is_elem ty.now (ElemTy.Int 1) }
{
    match ty {
        ElemTy::Int(w) => w.bits() == 1,
        ElemTy::Index => false,
    }
}

fn is_narrower(a: &ElemTy, b: &ElemTy) -> bool
    ensures { result ≡ is_narrower a.now b.now }
{
    match a {
        ElemTy::Int(v) => match b {
            ElemTy::Int(w) => v.bits() < w.bits(),
            ElemTy::Index => false,
        },
        ElemTy::Index => false,
    }
}

fn is_value(ty: &ElemTy, value: u64) -> bool
    ensures { result ≡ is_value ty.now value }
{
    match ty {
        ElemTy::Int(w) => (value as u128) < 1u128 << w.bits(),
        ElemTy::Index => true,
    }
}

/// Tells whether each step fits those before it.
pub fn steps_fit<'a>(ins: &'a [ElemTy], out: &'a ElemTy, steps: &'a [PayloadStep]) -> bool
    ensures { result ≡ steps_fit ins.now out.now steps.now [] }
{
    for i in 0..steps.len() {
        let scope = Scope {
            ins,
            out,
            earlier: &steps[..i],
        };
        let step = &steps[i];
        if !scope.op_fits(&step.ty, &step.op) {
            return false;
        }
    }
    true
}
