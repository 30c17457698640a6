//! The step.

ghost use Rattle.std.specs.Prelude.{◌≡◌, ◌<◌, [], length, IfOk};
ghost use Rattle.mlir_ir.specs.declared.tree.Module.{Module as Whole};
ghost use Rattle.mlir_verify.specs.Rules.{IsVerified};
ghost use Rattle.rewrite_base.specs.Limits.{has_large_numbers, limit_of};
ghost use Rattle.fuse_elementwise.specs.Fused.{AnswersFuse, AnswersModule, WithinFuse};

use crate::turn::Stopped;
use crate::turning::fuse_func;
use mlir_base::{List, Which};
use mlir_edits::{ops_end, values_end};
use mlir_ir::Module;
use mlir_verify::Checked;
use rewrite_base::{Made, StepError, StepRule, passed};
use std::alloc::Global;

/// Whether a number of a value or of an operation is 2^31 or more.
fn has_large_numbers(m: &Module) -> bool
    ensures { result ≡ has_large_numbers m.now.funcs }
{
    values_end(m) > 1 << 31 || ops_end(m) > 1 << 31
}

/// The module with the pairs of a function fused.
fn fuse_module(alloc: Global, m: Module, func: usize) -> Result<Module, Stopped>
    requires there { func < length m.funcs }
    requires verified { IsVerified m }
    ensures { AnswersModule func m result }
{
    let mut funcs = m.funcs.into_vec();
    let f = funcs.remove(func);
    match fuse_func(alloc, f) {
        Ok(g) => match funcs.insert(func, g) {
            Ok(()) => Ok(Module {
                funcs: List::from_vec(funcs),
            }),
            Err(_) => Err(Stopped::Memory),
        },
        Err(e) => Err(e),
    }
}

/// The formed module, where no limit is passed.
fn within_limits(alloc: Global, formed: Module, large: bool) -> Result<(Checked, Made), StepError>
    requires { IsVerified formed }
    ensures { (m : Whole) → large ≡ has_large_numbers m.funcs → WithinFuse m formed result }
{
    if large {
        return Err(StepError::Limit {
            which: Which::Operations,
        });
    }
    match passed(&formed) {
        Some(which) => Err(StepError::Limit { which }),
        None => {
            let made = Made {
                ops: List::new(alloc),
            };
            Ok((Checked::from_verified(formed), made))
        }
    }
}

/// The step `fuse_elementwise`: in a function, the first pair of a generic and a consumer of its result that fits becomes
/// one generic, in the consumer's place and with its numbers, until no pair fits (Transform manual, "apply_registered_pass
/// linalg-fuse-elementwise-ops"). `func` is below the number of functions.
///
/// `MayTrap`: the producer of a pair so reached may trap; it is named. The limits `Operations`, `Depth` and `PayloadSteps`
/// come where the module that is formed passes them, `Operations` also where a number of the module is 2^31 or more, and
/// `Extent` where a map of the fused generic needs a number beyond plus and minus 2^31.
pub fn fuse_all(alloc: Global, c: Checked, func: u32) -> Result<(Checked, Made), StepError>
    requires { func < length c.funcs }
    ensures { AnswersFuse func c result }
{
    let m = c.into_module();
    let large = has_large_numbers(&m);
    match fuse_module(alloc, m, func as usize) {
        Ok(formed) => within_limits(alloc, formed, large),
        Err(Stopped::MayTrap(id)) => Err(StepError::Rule {
            rule: StepRule::MayTrap,
            op: Some(id),
        }),
        Err(Stopped::LargeNumber) => Err(StepError::Limit {
            which: if large {
                Which::Operations
            } else {
                Which::Extent
            },
        }),
        Err(Stopped::Memory) => Err(StepError::Memory),
    }
}
