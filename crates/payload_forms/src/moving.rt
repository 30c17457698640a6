//! Steps in other places.

ghost use Rattle.std.specs.Prelude.{◌≡◌, ◌<◌, ℕ, ◌+◌, ◌∷◌, ◌++◌, [], map, length, IfOk, OnOk, option_copied};
ghost use Rattle.mlir_meaning.specs.Grids.{count_up};
ghost use Rattle.payload_forms.specs.Joined.{applied, expr_at, numbered_terms};
ghost use Rattle.payload_forms.specs.Moved.{block, blocks, captured_step, index_step, number, number_at, numbers, op_to, width};
ghost use Rattle.payload_forms.specs.Names.{indices_of, renamed};

use crate::numbers::{number, number_at, plus};
use crate::renaming::{Inputs, Renaming};
use affine_maps::Expr;
use mlir_base::{ElemTy, List, Memory};
use payload_ops::{Arg, Payload, PayloadStep, StepOp};
use std::alloc::Global;

/// How steps move: each `linalg.index` stays, or becomes an `affine.apply` of the expression of its dimension, and
/// captured values have their steps elsewhere, at these numbers.
#[derive(Drop)]
pub(crate) struct Moving<'a> {
    pub exprs: Option<&'a [Expr]>,
    pub captured: &'a [u32],
}

/// The number of a step's value, and that of the next step.
#[derive(Clone, Copy)]
struct Spot {
    number: u64,
    next: u64,
}

fn index_step(d: u32) -> PayloadStep
    ensures { result ≡ index_step d }
{
    PayloadStep {
        ty: ElemTy::Index,
        op: StepOp::Index(d),
    }
}

fn captured_step(k: u32) -> PayloadStep
    ensures { result ≡ captured_step k }
{
    PayloadStep {
        ty: ElemTy::Index,
        op: StepOp::Captured(k),
    }
}

/// Adds a step for each of `count` captured values, from `first` on.
pub(crate) fn push_captured(
    steps: &mut List<PayloadStep>,
    first: u64,
    count: u64,
) -> Result<(), Memory>
    ensures { OnOk result (steps.new ≡ steps.old ++ map captured_step (count_up first count)) }
{
    for k in 0..count {
        let at = plus(first, k)?;
        steps.push(captured_step(number(at)?))?;
    }
    Ok(())
}

fn constant_of(exprs: &[Expr], d: u32) -> i64
    ensures { result ≡ (expr_at exprs.now d).constant }
{
    match exprs.get(d as usize) {
        Some(expr) => expr.constant,
        None => 0,
    }
}

fn terms_of<'a>(exprs: &'a [Expr], d: u32) -> &'a [(u32, i64)]
    ensures { result.now ≡ (expr_at exprs.now d).terms }
{
    match exprs.get(d as usize) {
        Some(expr) => expr.terms.as_slice(),
        None => &[],
    }
}

fn numbered_terms(
    alloc: Global,
    first: u64,
    terms: &[(u32, i64)],
) -> Result<List<(Arg, i64)>, Memory>
    ensures { IfOk result (λ l. l ≡ numbered_terms first terms.now) }
{
    let mut all = List::new(alloc);
    let mut next = first;
    for term in terms {
        all.push((Arg::Step(number(next)?), term.1))?;
        next = plus(next, 1)?;
    }
    Ok(all)
}

fn push_indices(steps: &mut List<PayloadStep>, terms: &[(u32, i64)]) -> Result<(), Memory>
    ensures { OnOk result (steps.new ≡ steps.old ++ map (λ t. index_step t.0) terms.now) }
{
    for term in terms {
        steps.push(index_step(term.0))?;
    }
    Ok(())
}

/// Adds the expression of a dimension as an `affine.apply`, from number `first` on.
fn push_applied(
    alloc: Global,
    steps: &mut List<PayloadStep>,
    first: u64,
    exprs: &[Expr],
    d: u32,
) -> Result<(), Memory>
    ensures { OnOk result (steps.new ≡ steps.old ++ applied (expr_at exprs.now d) first) }
{
    let constant = constant_of(exprs, d);
    let indices = terms_of(exprs, d);
    let terms = numbered_terms(alloc, first, indices)?;
    push_indices(steps, indices)?;
    steps.push(PayloadStep {
        ty: ElemTy::Index,
        op: StepOp::Linear { constant, terms },
    })
}

impl<'a> Moving<'a> {
    /// How many steps the `linalg.index` of a dimension becomes.
    fn count(&self, d: u32) -> u64
        ensures value { (n : ℕ) → length (indices_of (option_copied self.now.exprs) d n) ≡ result }
        ensures positive { 0 < result }
    {
        match self.exprs {
            None => 1,
            Some(exprs) => terms_of(exprs, d).len() as u64 + 1,
        }
    }

    /// Where a step stands whose first number is `n`.
    fn spot(&self, n: u64, op: &StepOp) -> Result<Spot, Memory>
        ensures number { IfOk result (λ s. s.number ≡ number (indices_of (option_copied self.now.exprs)) (number_at self.now.captured.now) n op.now) }
        ensures next { IfOk result (λ s. s.next ≡ n + width (indices_of (option_copied self.now.exprs)) n op.now) }
    {
        match op {
            StepOp::Index(d) => {
                let next = plus(n, self.count(*d))?;
                Ok(Spot {
                    number: next - 1,
                    next,
                })
            }
            StepOp::Captured(k) => Ok(Spot {
                number: number_at(self.captured, *k as usize) as u64,
                next: n,
            }),
            _ => {
                let next = plus(n, 1)?;
                Ok(Spot { number: n, next })
            }
        }
    }

    /// The numbers of the values of steps of which the first has number `first`.
    fn numbers(&self, alloc: Global, first: u64, steps: &[PayloadStep]) -> Result<List<u32>, Memory>
        ensures { IfOk result (λ l. l ≡ numbers (indices_of (option_copied self.now.exprs)) (number_at self.now.captured.now) first steps.now) }
    {
        let mut all = List::new(alloc);
        let mut next = first;
        for step in steps {
            let spot = self.spot(next, &step.op)?;
            all.push(number(spot.number)?)?;
            next = spot.next;
        }
        Ok(all)
    }

    fn push_index(
        &self,
        alloc: Global,
        into: &mut List<PayloadStep>,
        first: u64,
        d: u32,
    ) -> Result<(), Memory>
        ensures { OnOk result (into.new ≡ into.old ++ indices_of (option_copied self.now.exprs) d first) }
    {
        match self.exprs {
            None => into.push(index_step(d)),
            Some(exprs) => push_applied(alloc, into, first, exprs, d),
        }
    }

    /// Adds what a step becomes whose first number is `first`.
    pub(crate) fn push_block(
        &self,
        alloc: Global,
        into: &mut List<PayloadStep>,
        to: &Renaming,
        first: u64,
        step: &PayloadStep,
    ) -> Result<(), Memory>
        ensures { OnOk result (into.new ≡ into.old ++ block (indices_of (option_copied self.now.exprs)) (renamed to.now.inputs to.now.steps.now) first step.now.ty step.now.op) }
    {
        match &step.op {
            StepOp::Index(d) => self.push_index(alloc, into, first, *d),
            StepOp::Captured(_) => Ok(()),
            _ => push_renamed(alloc, into, to, step),
        }
    }

    fn push_blocks(
        &self,
        alloc: Global,
        into: &mut List<PayloadStep>,
        to: &Renaming,
        first: u64,
        steps: &[PayloadStep],
    ) -> Result<(), Memory>
        ensures { OnOk result (into.new ≡ into.old ++ blocks (indices_of (option_copied self.now.exprs)) (renamed to.now.inputs to.now.steps.now) first steps.now) }
    {
        let mut next = first;
        for step in steps {
            self.push_block(alloc, into, to, next, step)?;
            next = self.spot(next, &step.op)?.next;
        }
        Ok(())
    }

    /// Adds the steps of a payload, from number `first` on, and gives what it yields under its new name.
    pub(crate) fn push_payload(
        &self,
        alloc: Global,
        into: &mut List<PayloadStep>,
        inputs: Inputs,
        first: u64,
        old: &Payload,
    ) -> Result<Arg, Memory>
        ensures steps { OnOk result (into.new ≡ into.old ++ blocks (indices_of (option_copied self.now.exprs)) (renamed inputs (numbers (indices_of (option_copied self.now.exprs)) (number_at self.now.captured.now) first old.now.steps)) first old.now.steps) }
        ensures yielded { IfOk result (λ a. a ≡ renamed inputs (numbers (indices_of (option_copied self.now.exprs)) (number_at self.now.captured.now) first old.now.steps) old.now.yielded) }
    {
        let numbers = self.numbers(alloc, first, old.steps().as_slice())?;
        let to = Renaming {
            inputs,
            steps: numbers.as_slice(),
        };
        self.push_blocks(alloc, into, &to, first, old.steps().as_slice())?;
        to.name(old.yielded())
    }
}

fn push_renamed(
    alloc: Global,
    into: &mut List<PayloadStep>,
    to: &Renaming,
    step: &PayloadStep,
) -> Result<(), Memory>
    ensures { OnOk result (into.new ≡ into.old ++ record { ty = step.now.ty; op = op_to (renamed to.now.inputs to.now.steps.now) step.now.op } ∷ []) }
{
    let op = to.operation(alloc, &step.op)?;
    into.push(PayloadStep { ty: step.ty, op })
}
