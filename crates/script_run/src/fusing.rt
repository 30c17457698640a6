//! Elementwise fusion in functions.

ghost use Rattle.std.specs.Prelude.{◌≡◌, true};
ghost use Rattle.mlir_verify.specs.Rules.{IsVerified};
ghost use Rattle.script_run.specs.Outcomes.{Agrees};
ghost use Rattle.script_run.specs.Sessions.{are_targets};
ghost use Rattle.script_run.specs.Steps.{fuse_at, at_each};
ghost use Rattle.script_run.specs.Transforms.{function_stands, Fuses};

use crate::transforms::WRONG_KIND;
use fuse_elementwise::fuse_all;
use mlir_base::List;
use mlir_verify::Checked;
use rewrite_base::{StepError, StepRule};
use std::alloc::Global;
use transform_handles::Target;

/// The pairs of a function fused until none is left.
fn fuse_function(alloc: Global, c: Checked, t: Target) -> Result<Checked, StepError>
    requires { function_stands c t ≡ true }
    ensures { Fuses t result (fuse_at t c) }
{
    match t {
        Target::Root => Err(WRONG_KIND),
        Target::Function(func) => match fuse_all(alloc, c, func) {
            Ok((module, _)) => Ok(module),
            Err(e) => Err(e),
        },
        Target::Operation(op) => Err(StepError::Rule {
            rule: StepRule::WrongKind,
            op: Some(op),
        }),
    }
}

/// The step at each target in turn: the module after all, and what they gave, which is the functions themselves.
pub(crate) fn fuse_each(
    alloc: Global,
    c: Checked,
    targets: &[Target],
) -> Result<(Checked, List<Target>), StepError>
    requires verified { IsVerified c }
    requires stand { are_targets c targets.now ≡ true }
    ensures { Agrees result (at_each fuse_at targets.now c) }
{
    let mut module = c;
    let mut given = List::new(alloc);
    for t in targets {
        match fuse_function(alloc, module, *t) {
            Ok(next) => module = next,
            Err(e) => return Err(e),
        }
        match given.push(*t) {
            Ok(()) => {}
            Err(_) => return Err(StepError::Memory),
        }
    }
    Ok((module, given))
}
