//! Captured values with their steps right before their first uses.

ghost use Rattle.std.specs.Prelude.{◌≡◌, ◌∷◌, ◌++◌, [], ◌+◌, ◌&&◌, not, true, nat_lt, suc, length, map, slice_index_or, IfOk, OnOk};
ghost use Rattle.mlir_meaning.specs.Grids.{count_up};
ghost use Rattle.mlir_meaning.specs.Points.{has, place_of};
ghost use Rattle.payload_forms.specs.Captured.{named, news, others, placed, placed_steps, placed_to, spots, used};
ghost use Rattle.named_forms.specs.Fit.{IsFit};
ghost use Rattle.payload_forms.specs.Moved.{args_of, block, captured_step, own_index};
ghost use Rattle.payload_forms.specs.Names.{renamed};
ghost use Rattle.payload_forms.specs.Uses.{Notes, PlacedFits};

use crate::first_uses::FirstUses;
use crate::joining::InFront;
use crate::moving::{Moving, push_captured};
use crate::numbers::{number, number_at, plus};
use crate::renaming::{Inputs, Renaming};
use mlir_base::{List, Memory};
use payload_ops::{Arg, Payload, PayloadStep, StepOp, payload};
use std::alloc::Global;

/// A payload, and which of the captured values before it are its own, in order of first use.
#[derive(Drop)]
pub struct PlacedPayload {
    pub payload: Payload,
    pub used: FirstUses,
}

/// Of the first steps: which of `captured` values they use, the numbers of these values' steps and of the others,
/// and that of the next step.
#[derive(Drop)]
pub(crate) struct Uses {
    captured: u32,
    seen: FirstUses,
    spots: List<u32>,
    others: List<u32>,
    next: u64,
}

impl Uses {
    fn new(alloc: Global, captured: u32) -> Uses
        ensures captured { result.captured ≡ captured }
        ensures seen { result.seen ≡ [] }
        ensures spots { result.spots ≡ [] }
        ensures others { result.others ≡ [] }
        ensures next { result.next ≡ 0 }
    {
        Uses {
            captured,
            seen: FirstUses::new(alloc),
            spots: List::new(alloc),
            others: List::new(alloc),
            next: 0,
        }
    }

    fn is_new(&self, k: u32) -> bool
        ensures { result ≡ (nat_lt k self.now.captured && not (has self.now.seen k)) }
    {
        k < self.captured && !self.seen.has(k)
    }

    /// Gives a captured value the next step.
    fn add(&mut self, k: u32) -> Result<(), Memory>
        requires { (nat_lt k self.old.captured && not (has self.old.seen k)) ≡ true }
        ensures { OnOk result (Notes self.old (Arg.Step k ∷ []) self.new) }
    {
        self.spots.push(number(self.next)?)?;
        self.next = plus(self.next, 1)?;
        self.seen.add(k)
    }

    /// Gives a captured value a step, if it has none.
    fn note_captured(&mut self, k: u32) -> Result<(), Memory>
        ensures { OnOk result (Notes self.old (Arg.Step k ∷ []) self.new) }
    {
        if self.is_new(k) { self.add(k) } else { Ok(()) }
    }

    fn note(&mut self, arg: Arg) -> Result<(), Memory>
        ensures { OnOk result (Notes self.old (arg ∷ []) self.new) }
    {
        match arg {
            Arg::Input(_) => Ok(()),
            Arg::Out => Ok(()),
            Arg::Step(k) => self.note_captured(k),
        }
    }

    fn note_two(&mut self, a: Arg, b: Arg) -> Result<(), Memory>
        ensures { OnOk result (Notes self.old (a ∷ b ∷ []) self.new) }
    {
        self.note(a)?;
        self.note(b)
    }

    fn note_three(&mut self, c: Arg, a: Arg, b: Arg) -> Result<(), Memory>
        ensures { OnOk result (Notes self.old (c ∷ a ∷ b ∷ []) self.new) }
    {
        self.note(c)?;
        self.note_two(a, b)
    }

    fn note_terms(&mut self, terms: &[(Arg, i64)]) -> Result<(), Memory>
        ensures { OnOk result (Notes self.old (map (λ t. t.0) terms.now) self.new) }
    {
        for term in terms {
            self.note(term.0)?;
        }
        Ok(())
    }

    fn note_operation(&mut self, op: &StepOp) -> Result<(), Memory>
        ensures { OnOk result (Notes self.old (args_of op.now) self.new) }
    {
        match op {
            StepOp::Const(_) | StepOp::Index(_) | StepOp::Captured(_) => Ok(()),
            StepOp::Linear { terms, .. } => self.note_terms(terms.as_slice()),
            StepOp::Binary(_, a, b) => self.note_two(*a, *b),
            StepOp::Compare(_, a, b) => self.note_two(*a, *b),
            StepOp::Select(c, a, b) => self.note_three(*c, *a, *b),
            StepOp::SignExtend(a) => self.note(*a),
            StepOp::ZeroExtend(a) => self.note(*a),
            StepOp::Truncate(a) => self.note(*a),
            StepOp::IndexCast(a) => self.note(*a),
        }
    }

    fn note_step(&mut self, step: &PayloadStep) -> Result<(), Memory>
        ensures captured { OnOk result (self.new.captured ≡ self.old.captured) }
        ensures seen { OnOk result (self.new.seen ≡ self.old.seen ++ named self.old.captured self.old.seen step.now) }
        ensures spots { OnOk result (self.new.spots ≡ self.old.spots ++ count_up self.old.next (length (named self.old.captured self.old.seen step.now))) }
        ensures others { OnOk result (self.new.others ≡ self.old.others ++ (self.old.next + length (named self.old.captured self.old.seen step.now)) ∷ []) }
        ensures next { OnOk result (self.new.next ≡ suc (self.old.next + length (named self.old.captured self.old.seen step.now))) }
    {
        self.note_operation(&step.op)?;
        self.others.push(number(self.next)?)?;
        self.next = plus(self.next, 1)?;
        Ok(())
    }

    /// What these steps use, of so many captured values.
    fn of(alloc: Global, captured: u32, rest: &[PayloadStep]) -> Result<Uses, Memory>
        ensures captured { IfOk result (λ u. u.captured ≡ captured) }
        ensures seen { IfOk result (λ u. u.seen ≡ used captured [] rest.now) }
        ensures spots { IfOk result (λ u. u.spots ≡ spots captured 0 [] rest.now) }
        ensures others { IfOk result (λ u. u.others ≡ others captured 0 [] rest.now) }
    {
        let mut uses = Uses::new(alloc, captured);
        for step in rest {
            uses.note_step(step)?;
        }
        Ok(uses)
    }

    /// The number of the step of a captured value.
    fn spot(&self, k: u32) -> u32
        ensures { result ≡ slice_index_or self.now.spots (place_of k 0 self.now.seen) 0 }
    {
        number_at(self.spots.as_slice(), self.seen.place_of(k))
    }

    /// The new numbers of all steps: of those for captured values, and of the others.
    fn numbers(&self, alloc: Global) -> Result<List<u32>, Memory>
        ensures { IfOk result (λ l. l ≡ map (λ k. slice_index_or self.now.spots (place_of k 0 self.now.seen) 0) (count_up 0 self.now.captured) ++ self.now.others) }
    {
        let mut all = List::new(alloc);
        for k in 0..self.captured {
            all.push(self.spot(k))?;
        }
        for n in self.others.as_slice() {
            all.push(*n)?;
        }
        Ok(all)
    }
}

/// Adds steps for `count` captured values from `first` on, and then a step under number `other`.
fn push_step(
    alloc: Global,
    steps: &mut List<PayloadStep>,
    to: &Renaming,
    first: u64,
    count: u64,
    other: u64,
    step: &PayloadStep,
) -> Result<(), Memory>
    ensures { OnOk result (steps.new ≡ steps.old ++ (map captured_step (count_up first count) ++ block own_index (renamed to.now.inputs to.now.steps.now) other step.now.ty step.now.op)) }
{
    let moving = Moving {
        exprs: None,
        captured: &[],
    };
    push_captured(steps, first, count)?;
    moving.push_block(alloc, steps, to, other, step)
}

/// The steps with these new names, and a step for each captured value right before its first use.
fn placed_steps(
    alloc: Global,
    to: &Renaming,
    uses: &Uses,
    rest: &[PayloadStep],
) -> Result<List<PayloadStep>, Memory>
    requires { uses.now.others ≡ others uses.now.captured 0 [] rest.now }
    ensures { IfOk result (λ l. l ≡ placed_steps uses.now.captured (renamed to.now.inputs to.now.steps.now) 0 [] rest.now) }
{
    let mut steps = List::new(alloc);
    let mut seen = 0u64;
    let mut next = 0u64;
    for (i, step) in rest.iter().enumerate() {
        let other = number_at(uses.others.as_slice(), i) as u64;
        let count = other - next;
        push_step(alloc, &mut steps, to, seen, count, other, step)?;
        seen = plus(seen, count)?;
        next = other + 1;
    }
    Ok(steps)
}

/// The steps of a payload with its captured values placed, what it yields, and which captured values it uses.
#[derive(Drop)]
struct Parts {
    steps: List<PayloadStep>,
    yielded: Arg,
    used: FirstUses,
}

fn renamed_parts(alloc: Global, front: &InFront, uses: Uses) -> Result<Parts, Memory>
    requires captured { uses.captured ≡ front.now.captured }
    requires seen { uses.seen ≡ used front.now.captured [] front.now.rest }
    requires spots { uses.spots ≡ spots front.now.captured 0 [] front.now.rest }
    requires others { uses.others ≡ others front.now.captured 0 [] front.now.rest }
    ensures steps { IfOk result (λ p. p.steps ≡ placed_steps front.now.captured (placed_to front.now.captured front.now.rest) 0 [] front.now.rest) }
    ensures yielded { IfOk result (λ p. p.yielded ≡ placed_to front.now.captured front.now.rest front.now.yielded) }
    ensures used { IfOk result (λ p. p.used ≡ used front.now.captured [] front.now.rest) }
{
    let numbers = uses.numbers(alloc)?;
    let to = Renaming {
        inputs: Inputs::Kept,
        steps: numbers.as_slice(),
    };
    let steps = placed_steps(alloc, &to, &uses, front.rest.as_slice())?;
    let yielded = to.name(front.yielded)?;
    Ok(Parts {
        steps,
        yielded,
        used: uses.seen,
    })
}

fn placed_parts(alloc: Global, front: &InFront) -> Result<Parts, Memory>
    ensures steps { IfOk result (λ p. p.steps ≡ placed_steps front.now.captured (placed_to front.now.captured front.now.rest) 0 [] front.now.rest) }
    ensures yielded { IfOk result (λ p. p.yielded ≡ placed_to front.now.captured front.now.rest front.now.yielded) }
    ensures used { IfOk result (λ p. p.used ≡ used front.now.captured [] front.now.rest) }
{
    let uses = Uses::of(alloc, front.captured, front.rest.as_slice())?;
    renamed_parts(alloc, front, uses)
}

/// The payload with each captured value that is used once, right before its first use, and the others gone; or `None`
/// where its parts don't fit together. Linear in the number of steps and of captured values.
pub fn placed(alloc: Global, front: InFront) -> Result<Option<PlacedPayload>, Memory>
    ensures { IfOk result (λ r. IsFit PlacedFits r (record { payload = placed front.captured front.ins front.out front.rest front.yielded; used = used front.captured [] front.rest })) }
{
    let parts = placed_parts(alloc, &front)?;
    match payload(front.ins, front.out, parts.steps, parts.yielded) {
        Some(payload) => Ok(Some(PlacedPayload {
            payload,
            used: parts.used,
        })),
        None => Ok(None),
    }
}
