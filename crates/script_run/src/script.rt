ghost use Rattle.std.specs.Prelude.{◌≡◌, ◌<◌, suc, true, IfOk, IfNone};
ghost use Rattle.mlir_verify.specs.Rules.{IsVerified};
ghost use Rattle.script_run.specs.Scripts.{is_built, are_built, told, unbuilt_from, run, Runs};
ghost use Rattle.script_run.specs.Laws.{AreSameFunctions};

use crate::error::ScriptError;
use crate::session::Session;
use mlir_verify::Checked;
use rewrite_base::StepError;
use script_read::{Script, StepKind};
use std::alloc::Global;

fn is_built(kind: &StepKind) -> bool
    ensures { result ≡ is_built kind.now }
{
    match kind {
        StepKind::Match { .. } => true,
        StepKind::Split { .. } => true,
        StepKind::Generalize { .. } => true,
        StepKind::Interchange { .. } => true,
        StepKind::FuseElementwise { .. } => true,
        _ => false,
    }
}

/// The number that is told of the step with `before` steps before it.
fn told(before: usize) -> u32
    ensures { result ≡ told (suc before) }
{
    if before < u32::MAX as usize {
        before as u32 + 1
    } else {
        u32::MAX
    }
}

/// The number of the first step of a script that isn't built, from 1 (2^32 - 1 where it is greater).
pub fn first_unbuilt(s: &Script) -> Option<u32>
    ensures first { result ≡ unbuilt_from s.now.steps 1 }
    ensures none { IfNone result (are_built s.now.steps ≡ true) }
{
    for (before, step) in s.steps.as_slice().iter().enumerate() {
        if !is_built(&step.kind) {
            return Some(told(before));
        }
    }
    None
}

/// The module that a script makes of this one, step by step, or the first step that is refused, with why. Every function keeps
/// its name, its types, and what it gives on all inputs of these types.
pub fn run_script(alloc: Global, c: Checked, s: &Script) -> Result<Checked, ScriptError>
    requires { are_built s.now.steps ≡ true }
    ensures runs { Runs result (run s.now c) }
    ensures verifies { IfOk result (λ n. IsVerified n) }
    ensures means { IfOk result (λ n. AreSameFunctions c.funcs n.funcs) }
{
    let mut session = match Session::new(alloc, c, s.root) {
        Ok(session) => session,
        Err(_) => {
            return Err(ScriptError {
                step: 1,
                why: StepError::Memory,
            });
        }
    };
    for (before, step) in s.steps.as_slice().iter().enumerate() {
        match session.apply(alloc, step) {
            Ok(()) => {}
            Err(why) => {
                return Err(ScriptError {
                    step: told(before),
                    why,
                });
            }
        }
    }
    Ok(session.into_module())
}
