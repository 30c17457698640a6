ghost use Rattle.std.specs.Prelude.{◌≡◌, ℕ, true, ◌==◌, ◌&&◌, not, is_some, IfOk, OnOk, None, Some, if◌then◌else◌};
ghost use Rattle.std.specs.BTreeSet.{contains};
ghost use Rattle.std.specs.Ordering.{nat_cmp};
ghost use Rattle.affine_maps.specs.Permutation.{is_among};
ghost use Rattle.mlir_ir.specs.Count.{first};
ghost use Rattle.mlir_ir.specs.declared.tree.OpId.{OpId as Number};
ghost use Rattle.mlir_verify.specs.Place.{type_among};
ghost use Rattle.mlir_verify.specs.Scope.{IsSet};
ghost use Rattle.step_passes.specs.Noting.{noted_in, IsNoted, told_here, Notes};
ghost use Rattle.step_passes.specs.Planned.{told_in, told_among};
ghost use Rattle.step_passes.specs.Sequences.{numbers_of};
ghost use Rattle.step_passes.specs.Telling.{types_known, exchanging};

use crate::known::KnownTypes;
use crate::told::{Step, Told, told_of};
use mlir_base::Memory;
use mlir_ir::{Func, Module, Op, OpId};
use std::alloc::Global;
use std::collections::{BTreeMap, BTreeSet};

/// What a step makes of its targets, by their numbers.
#[derive(Drop)]
pub(crate) struct Index {
    told: BTreeMap<u32, Told>,
}

impl Index {
    fn new(alloc: Global) -> Index
        ensures { (i : Number) → noted_in result i ≡ None }
    {
        Index {
            told: BTreeMap::new(alloc),
        }
    }

    fn has(&self, op: OpId) -> bool
        ensures { result ≡ is_some (noted_in self.now op) }
    {
        self.told.contains_key(&op.0)
    }

    fn put(&mut self, op: OpId, told: Told) -> Result<(), Memory>
        ensures { OnOk result ((i : Number)
            → noted_in self.new i ≡ (if op.0 == i.0 then Some told else noted_in self.old i)) }
    {
        match self.told.insert(op.0, told) {
            Ok(_) => Ok(()),
            Err(_) => Err(Memory),
        }
    }

    /// Takes out what is noted of an operation.
    pub(crate) fn take(&mut self, op: OpId) -> Option<Told>
        ensures value { result ≡ noted_in self.old op }
        ensures others { (i : Number) → noted_in self.new i ≡ (if op.0 == i.0 then None else noted_in self.old i) }
    {
        self.told.remove(&op.0)
    }
}

fn numbers_in(alloc: Global, ops: &[OpId]) -> Result<BTreeSet<u32>, Memory>
    ensures { IfOk result (λ s. IsSet s (numbers_of ops.now)) }
{
    let mut numbers = BTreeSet::new(alloc);
    for op in ops {
        if numbers.insert(op.0).is_err() {
            return Err(Memory);
        }
    }
    Ok(numbers)
}

/// Whether an operation is wanted, and no other of its number was noted.
fn is_new(wanted: &BTreeSet<u32>, index: &Index, op: OpId) -> bool
    ensures { result ≡ (contains nat_cmp wanted.now op.0 && not (is_some (noted_in index.now op))) }
{
    wanted.contains(&op.0) && !index.has(op)
}

/// Notes what the step makes of an operation, where it is wanted and the first of its number.
fn note(
    alloc: Global,
    step: &Step,
    known: &KnownTypes,
    wanted: &BTreeSet<u32>,
    op: &Op,
    index: &mut Index,
) -> Result<(), Memory>
    ensures { OnOk result (
        Notes wanted.now (told_here (exchanging step.now) (types_known known.now) op.now) index.old index.new) }
{
    if is_new(wanted, index, op.id) {
        let told = told_of(alloc, step, known, &op.kind)?;
        index.put(op.id, told)
    } else {
        Ok(())
    }
}

/// Notes what the step makes of an operation, and brings its results into scope.
fn note_op<'a>(
    alloc: Global,
    step: &Step,
    known: &mut KnownTypes<'a>,
    wanted: &BTreeSet<u32>,
    op: &'a Op,
    index: &mut Index,
) -> Result<(), Memory>
    ensures noted { OnOk result (
        Notes wanted.now (told_here (exchanging step.now) (types_known known.old) op.now) index.old index.new) }
    ensures types { OnOk result ((v : ℕ)
        → types_known known.new v ≡ first (type_among op.now.results v) (types_known known.old v)) }
{
    match note(alloc, step, known, wanted, op, index) {
        Ok(()) => known.bind(op.results.as_slice()),
        Err(e) => Err(e),
    }
}

/// The types of a function's parameters.
fn parameters(alloc: Global, f: &Func) -> Result<KnownTypes<'_>, Memory>
    ensures { IfOk result (λ known. (v : ℕ) → types_known known v ≡ type_among f.now.params v) }
{
    let mut known = KnownTypes::new(alloc);
    known.bind(f.params.as_slice())?;
    Ok(known)
}

/// Notes what the step makes of the operations of a function's body.
fn note_body(
    alloc: Global,
    step: &Step,
    wanted: &BTreeSet<u32>,
    f: &Func,
    index: &mut Index,
) -> Result<(), Memory>
    ensures { OnOk result (
        Notes wanted.now (λ i. told_in (exchanging step.now) i f.now.params f.now.body) index.old index.new) }
{
    let mut known = parameters(alloc, f)?;
    for op in f.body.as_slice() {
        note_op(alloc, step, &mut known, wanted, op, index)?;
    }
    Ok(())
}

fn note_all(
    alloc: Global,
    step: &Step,
    wanted: &BTreeSet<u32>,
    m: &Module,
    index: &mut Index,
) -> Result<(), Memory>
    ensures { OnOk result (Notes wanted.now (λ i. told_among (exchanging step.now) i m.now.funcs) index.old index.new) }
{
    for f in m.funcs.as_slice() {
        note_body(alloc, step, wanted, f, index)?;
    }
    Ok(())
}

/// What a step makes of these operations of a module.
pub(crate) fn index_of(
    alloc: Global,
    step: &Step,
    m: &Module,
    ops: &[OpId],
) -> Result<Index, Memory>
    ensures { IfOk result (λ s. (i : Number) → is_among i.0 (numbers_of ops.now) ≡ true
        → IsNoted (told_among (exchanging step.now) i m.now.funcs) (noted_in s i)) }
{
    let wanted = numbers_in(alloc, ops)?;
    let mut index = Index::new(alloc);
    note_all(alloc, step, &wanted, m, &mut index)?;
    Ok(index)
}
