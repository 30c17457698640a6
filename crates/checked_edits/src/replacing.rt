ghost use Rattle.std.specs.Prelude.{◌≡◌, ◌<◌, ◌^◌, IsSome};
ghost use Rattle.mlir_ir.specs.Count.{find_in};
ghost use Rattle.verified_runs.specs.Fresh.{fresh_value, fresh_op};
ghost use Rattle.checked_edits.specs.Replacing.{replaced, KeepsRules, Replaces};

use crate::limits::first_passed;
use mlir_base::List;
use mlir_edits::{place_of, replace_at};
use mlir_ir::{Module, Op, OpId, ValueId};
use mlir_verify::Checked;
use rewrite_base::StepError;
use std::alloc::Global;

/// The module as verified, where it passes no limit.
fn within_limits(m: Module) -> Result<Checked, StepError>
    requires { KeepsRules m }
    ensures { Replaces m result }
{
    match first_passed(&m) {
        Some(which) => Err(StepError::Limit { which }),
        None => Ok(Checked::from_verified(m)),
    }
}

/// The module with new operations in the place of the one of this number. Later uses of its results become uses of
/// `values`, one for each result; all else stays as it is, and nothing that stays is copied.
///
/// The module has the operation, and what is formed keeps every rule of the verifier but that on limits. A limit comes
/// exactly where the formed module passes one, and it is the first in their order. No broken rule comes.
pub fn replace(
    c: Checked,
    op: OpId,
    new_ops: List<Op>,
    values: List<ValueId>,
) -> Result<Checked, StepError>
    requires there { IsSome (find_in op c.funcs) }
    requires keeps { KeepsRules (replaced op new_ops values c) }
    ensures { Replaces (replaced op new_ops values c) result }
{
    let m = c.into_module();
    let Some(place) = place_of(&m, op) else {
        unreachable!()
    };
    match replace_at(m, place, new_ops, values.as_slice()) {
        Ok(formed) => within_limits(formed),
        Err(_) => Err(StepError::Memory),
    }
}

/// One more than the greatest number of a value, and one more than the greatest number of an operation, each 0 where there
/// is none. Each number of the module is below 2^32 - 1. This takes no memory.
pub fn fresh(c: &Checked) -> (u32, u32)
    requires values { fresh_value c.now.funcs < 2 ^ 32 }
    requires ops { fresh_op c.now.funcs < 2 ^ 32 }
    ensures value { result.0 ≡ fresh_value c.now.funcs }
    ensures op { result.1 ≡ fresh_op c.now.funcs }
{
    mlir_edits::fresh(c.module())
}
