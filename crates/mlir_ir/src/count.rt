ghost use Rattle.std.specs.Prelude.{◌≡◌, ◌^◌, ◌-◌, min};
ghost use Rattle.mlir_ir.specs.Count.{ops_count, module_count, count_inside};

use crate::tree::{Module, Op, OpKind};

/// The number of operations, or the greatest number of 32 bits where it is greater.
pub fn count_ops(m: &Module) -> u32
    ensures { result ≡ min (module_count m.now.funcs) (2 ^ 32 - 1) }
{
    let mut total = 0u32;
    for f in m.funcs.as_slice() {
        total = total.saturating_add(count_body(f.body.as_slice()));
    }
    total
}

#[cycle(count)]
fn count_body(ops: &[Op]) -> u32
    ensures { result ≡ min (ops_count ops.now) (2 ^ 32 - 1) }
{
    let mut total = 0u32;
    for op in ops {
        total = total.saturating_add(1).saturating_add(count_in(&op.kind));
    }
    total
}

#[cycle(count)]
fn count_in(kind: &OpKind) -> u32
    ensures { result ≡ min (count_inside kind.now) (2 ^ 32 - 1) }
{
    match kind {
        OpKind::For { body, .. } => count_body(body.as_slice()),
        OpKind::Forall { body, .. } => count_body(body.as_slice()),
        _ => 0,
    }
}
