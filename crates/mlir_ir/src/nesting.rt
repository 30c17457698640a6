ghost use Rattle.std.specs.Prelude.{◌≡◌, ◌^◌, ◌-◌, min, max};
ghost use Rattle.mlir_ir.specs.Depth.{depth_of, levels_of, levels_inside, module_levels};

use crate::tree::{Func, Module, Op, OpKind};

/// The greatest number of loops around one operation, or the greatest number of 32 bits where it is
/// greater. 0 for a module without operations.
pub fn depth(m: &Module) -> u32
    ensures { result ≡ min (depth_of m.now.funcs) (2 ^ 32 - 1) }
{
    let loops = levels(m.funcs.as_slice()).saturating_sub(1);
    if loops < u32::MAX as u64 {
        loops as u32
    } else {
        u32::MAX
    }
}

fn levels(funcs: &[Func]) -> u64
    ensures { result ≡ min (module_levels funcs.now) (2 ^ 64 - 1) }
{
    let mut most = 0u64;
    for f in funcs {
        most = most.max(levels_of(f.body.as_slice()));
    }
    most
}

#[cycle(levels)]
fn levels_of(ops: &[Op]) -> u64
    ensures { result ≡ min (levels_of ops.now) (2 ^ 64 - 1) }
{
    let mut most = 0u64;
    for op in ops {
        most = most.max(levels_inside(&op.kind).saturating_add(1));
    }
    most
}

#[cycle(levels)]
fn levels_inside(kind: &OpKind) -> u64
    ensures { result ≡ min (levels_inside kind.now) (2 ^ 64 - 1) }
{
    match kind {
        OpKind::For { body, .. } => levels_of(body.as_slice()),
        OpKind::Forall { body, .. } => levels_of(body.as_slice()),
        _ => 0,
    }
}
