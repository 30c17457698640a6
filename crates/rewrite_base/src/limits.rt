ghost use Rattle.std.specs.Prelude.{◌≡◌, ◌||◌};
ghost use Rattle.std.specs.List.{list_any};
ghost use Rattle.rewrite_base.specs.Limits.{has_large_numbers, has_many_operations, is_deep, has_long_payload, has_long_payloads, passed};

use mlir_base::Which;
use mlir_edits::{ops_end, values_end};
use mlir_ir::{Module, Op, OpKind, count_ops, depth};

/// The greatest number of operations of a module.
const MOST_OPERATIONS: u32 = 65_536;

/// The greatest number of loops around an operation.
const MOST_LOOPS: u32 = 64;

/// The greatest number of steps of a payload.
const MOST_STEPS: usize = 1_024;

/// Whether a number of a value or of an operation is 2^31 or more.
pub(crate) fn has_large_numbers(m: &Module) -> bool
    ensures { result ≡ has_large_numbers m.now.funcs }
{
    values_end(m) > 1 << 31 || ops_end(m) > 1 << 31
}

fn has_many_operations(m: &Module) -> bool
    ensures { result ≡ has_many_operations m.now.funcs }
{
    count_ops(m) > MOST_OPERATIONS
}

fn is_deep(m: &Module) -> bool
    ensures { result ≡ is_deep m.now.funcs }
{
    depth(m) > MOST_LOOPS
}

#[cycle(payloads)]
fn have_long_payload(ops: &[Op]) -> bool
    ensures { result ≡ list_any (λ o. has_long_payload o.kind) ops.now }
{
    for op in ops {
        if has_long_payload(&op.kind) {
            return true;
        }
    }
    false
}

#[cycle(payloads)]
fn has_long_payload(kind: &OpKind) -> bool
    ensures { result ≡ has_long_payload kind.now }
{
    match kind {
        OpKind::Generic { payload, .. } => payload.steps().len() > MOST_STEPS,
        OpKind::For { body, .. } => have_long_payload(body.as_slice()),
        OpKind::Forall { body, .. } => have_long_payload(body.as_slice()),
        _ => false,
    }
}

fn has_long_payloads(m: &Module) -> bool
    ensures { result ≡ has_long_payloads m.now.funcs }
{
    for f in m.funcs.as_slice() {
        if have_long_payload(f.body.as_slice()) {
            return true;
        }
    }
    false
}

/// The first limit that a module passes.
pub fn passed(m: &Module) -> Option<Which>
    ensures { result ≡ passed m.now.funcs }
{
    if has_many_operations(m) {
        Some(Which::Operations)
    } else if is_deep(m) {
        Some(Which::Depth)
    } else if has_long_payloads(m) {
        Some(Which::PayloadSteps)
    } else {
        None
    }
}
