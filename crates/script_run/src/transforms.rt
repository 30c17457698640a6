//! Steps at targets.

ghost use Rattle.std.specs.Prelude.{◌≡◌, true, map, IfOk};
ghost use Rattle.mlir_verify.specs.Rules.{IsVerified};
ghost use Rattle.step_passes.specs.Answered.{Answered};
ghost use Rattle.step_passes.specs.Sequences as pass;
ghost use Rattle.transform_handles.specs.declared.target.Target.TheVariants.{Operation};
ghost use Rattle.script_run.specs.Outcomes.{Agrees};
ghost use Rattle.script_run.specs.Sessions.{are_targets};
ghost use Rattle.script_run.specs.Steps.{at_target, at_each};
ghost use Rattle.script_run.specs.Transforms.{step_of, target_step, exchanging_of, front};

use crate::fusing::fuse_each;
use mlir_base::{List, Memory};
use mlir_ir::OpId;
use mlir_verify::Checked;
use rewrite_base::{Made, StepError, StepRule};
use std::alloc::Global;
use step_passes::{generalize_all, interchange_all};
use transform_handles::Target;

/// A step that puts a new operation in the place of each of its targets.
#[derive(Clone, Copy)]
pub(crate) enum Exchange<'a> {
    Generalize,
    Interchange(&'a [u32]),
}

/// A step that changes the module.
#[derive(Clone, Copy)]
pub(crate) enum Transform<'a> {
    Exchange(Exchange<'a>),
    FuseElementwise,
}

pub(crate) const WRONG_KIND: StepError = StepError::Rule {
    rule: StepRule::WrongKind,
    op: None,
};

/// The operations before the first target that is none.
fn operations_of(alloc: Global, targets: &[Target]) -> Result<List<OpId>, Memory>
    ensures { IfOk result (λ ops. ops ≡ front targets.now) }
{
    let mut ops = List::new(alloc);
    for t in targets {
        let Target::Operation(op) = *t else {
            return Ok(ops);
        };
        match ops.push(op) {
            Ok(()) => {}
            Err(e) => return Err(e),
        }
    }
    Ok(ops)
}

fn as_targets(alloc: Global, ops: &[OpId]) -> Result<List<Target>, Memory>
    ensures { IfOk result (λ ts. ts ≡ map Operation ops.now) }
{
    let mut targets = List::new(alloc);
    for op in ops {
        match targets.push(Target::Operation(*op)) {
            Ok(()) => {}
            Err(e) => return Err(e),
        }
    }
    Ok(targets)
}

impl<'a> Exchange<'a> {
    fn in_one_pass(
        &self,
        alloc: Global,
        c: Checked,
        ops: &[OpId],
    ) -> Result<(Checked, Made), StepError>
        requires { pass.are_targets c ops.now ≡ true }
        ensures { Answered result (pass.at_each (pass.exchanged_at (exchanging_of self.now)) ops.now c) }
    {
        match self {
            Exchange::Generalize => generalize_all(alloc, c, ops),
            Exchange::Interchange(order) => interchange_all(alloc, c, ops, order),
        }
    }

    /// The step at each target in turn, up to one that is no operation.
    fn at_operations(
        &self,
        alloc: Global,
        c: Checked,
        targets: &[Target],
    ) -> Result<(Checked, List<Target>), StepError>
        requires verified { IsVerified c }
        requires stand { are_targets c targets.now ≡ true }
        ensures { Agrees result (at_each (at_target (step_of self.now)) targets.now c) }
    {
        let ops = match operations_of(alloc, targets) {
            Ok(ops) => ops,
            Err(_) => return Err(StepError::Memory),
        };
        let (module, made) = match self.in_one_pass(alloc, c, ops.as_slice()) {
            Ok(formed) => formed,
            Err(e) => return Err(e),
        };
        if ops.len() != targets.len() {
            return Err(WRONG_KIND);
        }
        match as_targets(alloc, made.ops.as_slice()) {
            Ok(given) => Ok((module, given)),
            Err(_) => Err(StepError::Memory),
        }
    }
}

impl<'a> Transform<'a> {
    /// The step at each target in turn: the module after all, and what they gave.
    pub(crate) fn at_each(
        &self,
        alloc: Global,
        c: Checked,
        targets: &[Target],
    ) -> Result<(Checked, List<Target>), StepError>
        requires verified { IsVerified c }
        requires stand { are_targets c targets.now ≡ true }
        ensures { Agrees result (at_each (target_step self.now) targets.now c) }
    {
        match self {
            Transform::Exchange(x) => x.at_operations(alloc, c, targets),
            Transform::FuseElementwise => fuse_each(alloc, c, targets),
        }
    }
}
