//! Arguments under new names.

ghost use Rattle.std.specs.Prelude.{◌≡◌, ◌∷◌, [], map, IfOk};
ghost use Rattle.payload_forms.specs.Joined.{other};
ghost use Rattle.payload_forms.specs.Moved.{op_to};
ghost use Rattle.payload_forms.specs.Names.{input_to, renamed};

use crate::numbers::{number, number_at};
use mlir_base::{List, Memory};
use payload_ops::{Arg, StepOp};
use std::alloc::Global;

/// The new names of inputs: they stay, or stand behind others, or `count` others stand in the place of input `at`,
/// which is `value`.
#[derive(Clone, Copy)]
pub(crate) enum Inputs {
    Kept,
    After(u32),
    Spliced { at: u32, count: u32, value: Arg },
}

/// The new names of arguments: of inputs, and the new numbers of steps.
#[derive(Drop)]
pub(crate) struct Renaming<'a> {
    pub inputs: Inputs,
    pub steps: &'a [u32],
}

/// The new place of another entry, where `count` entries stand in the place of entry `at`.
fn other(at: u32, count: u32, i: u32) -> u64
    ensures { result ≡ other at count i }
{
    if i < at {
        i as u64
    } else if i == at {
        at as u64
    } else {
        count as u64 + (i as u64 - 1)
    }
}

fn behind(count: u32, i: u32) -> Result<Arg, Memory>
    ensures { IfOk result (λ a. a ≡ input_to (Inputs.After count) i) }
{
    Ok(Arg::Input(number(count as u64 + i as u64)?))
}

fn among(at: u32, count: u32, value: Arg, i: u32) -> Result<Arg, Memory>
    ensures { IfOk result (λ a. a ≡ input_to (Inputs.Spliced at count value) i) }
{
    if i == at {
        Ok(value)
    } else {
        Ok(Arg::Input(number(other(at, count, i))?))
    }
}

impl Inputs {
    fn name(self, i: u32) -> Result<Arg, Memory>
        ensures { IfOk result (λ a. a ≡ input_to self i) }
    {
        match self {
            Inputs::Kept => Ok(Arg::Input(i)),
            Inputs::After(count) => behind(count, i),
            Inputs::Spliced { at, count, value } => among(at, count, value, i),
        }
    }
}

impl<'a> Renaming<'a> {
    pub(crate) fn name(&self, arg: Arg) -> Result<Arg, Memory>
        ensures { IfOk result (λ a. a ≡ renamed self.now.inputs self.now.steps.now arg) }
    {
        match arg {
            Arg::Input(i) => self.inputs.name(i),
            Arg::Out => Ok(Arg::Out),
            Arg::Step(i) => Ok(Arg::Step(number_at(self.steps, i as usize))),
        }
    }

    fn names(&self, a: Arg, b: Arg) -> Result<(Arg, Arg), Memory>
        ensures { IfOk result (λ p. (p.0 ≡ renamed self.now.inputs self.now.steps.now a) × (p.1 ≡ renamed self.now.inputs self.now.steps.now b)) }
    {
        let a = self.name(a)?;
        let b = self.name(b)?;
        Ok((a, b))
    }

    fn terms(&self, alloc: Global, terms: &[(Arg, i64)]) -> Result<List<(Arg, i64)>, Memory>
        ensures { IfOk result (λ l. l ≡ map (λ t. (renamed self.now.inputs self.now.steps.now t.0, t.1)) terms.now) }
    {
        let mut all = List::new(alloc);
        for term in terms {
            let arg = self.name(term.0)?;
            all.push((arg, term.1))?;
        }
        Ok(all)
    }

    fn linear(&self, alloc: Global, constant: i64, terms: &[(Arg, i64)]) -> Result<StepOp, Memory>
        ensures { IfOk result (λ o. o ≡ op_to (renamed self.now.inputs self.now.steps.now) (StepOp.Linear constant terms.now)) }
    {
        let terms = self.terms(alloc, terms)?;
        Ok(StepOp::Linear { constant, terms })
    }

    fn select(&self, c: Arg, a: Arg, b: Arg) -> Result<StepOp, Memory>
        ensures { IfOk result (λ o. o ≡ op_to (renamed self.now.inputs self.now.steps.now) (StepOp.Select c a b)) }
    {
        let c = self.name(c)?;
        let (a, b) = self.names(a, b)?;
        Ok(StepOp::Select(c, a, b))
    }

    /// The operation with its arguments under their new names.
    pub(crate) fn operation(&self, alloc: Global, op: &StepOp) -> Result<StepOp, Memory>
        ensures { IfOk result (λ o. o ≡ op_to (renamed self.now.inputs self.now.steps.now) op.now) }
    {
        match op {
            StepOp::Const(n) => Ok(StepOp::Const(*n)),
            StepOp::Index(d) => Ok(StepOp::Index(*d)),
            StepOp::Captured(k) => Ok(StepOp::Captured(*k)),
            StepOp::Linear { constant, terms } => self.linear(alloc, *constant, terms.as_slice()),
            StepOp::Binary(op, a, b) => {
                let (a, b) = self.names(*a, *b)?;
                Ok(StepOp::Binary(*op, a, b))
            }
            StepOp::Compare(predicate, a, b) => {
                let (a, b) = self.names(*a, *b)?;
                Ok(StepOp::Compare(*predicate, a, b))
            }
            StepOp::Select(c, a, b) => self.select(*c, *a, *b),
            StepOp::SignExtend(a) => Ok(StepOp::SignExtend(self.name(*a)?)),
            StepOp::ZeroExtend(a) => Ok(StepOp::ZeroExtend(self.name(*a)?)),
            StepOp::Truncate(a) => Ok(StepOp::Truncate(self.name(*a)?)),
            StepOp::IndexCast(a) => Ok(StepOp::IndexCast(self.name(*a)?)),
        }
    }
}
