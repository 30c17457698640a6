//! The uses of a body.

ghost use Rattle.std.specs.Prelude.{◌≡◌, ◌+◌, IfOk, OnOk};
ghost use Rattle.mlir_ir.specs.Count.{names, uses_kind, uses_op};
ghost use Rattle.mlir_ir.specs.declared.tree.ValueId.{ValueId as Value};
ghost use Rattle.use_counts.specs.Counts.{count_in};

use crate::counts::UseCounts;
use crate::operands::push_operands;
use mlir_base::Memory;
use mlir_ir::{Op, OpKind, ValueId};
use std::alloc::Global;

/// Adds the operands of operations, and of those inside them.
#[cycle(walk)]
fn push_body(out: &mut Vec<ValueId>, ops: &[Op]) -> Result<(), Memory>
    ensures { OnOk result ((v : Value) → names v out.new.items ≡ names v out.old.items + uses_op v ops.now) }
{
    for op in ops {
        match push_within(out, &op.kind) {
            Ok(()) => {}
            Err(e) => return Err(e),
        }
    }
    Ok(())
}

#[cycle(walk)]
fn push_within(out: &mut Vec<ValueId>, kind: &OpKind) -> Result<(), Memory>
    ensures { OnOk result ((v : Value) → names v out.new.items ≡ names v out.old.items + uses_kind v kind.now) }
{
    match push_operands(out, kind) {
        Ok(()) => match kind {
            OpKind::For { body, .. } => push_body(out, body.as_slice()),
            OpKind::Forall { body, .. } => push_body(out, body.as_slice()),
            _ => Ok(()),
        },
        Err(e) => Err(e),
    }
}

fn add_all(counts: &mut UseCounts, list: &[ValueId]) -> Result<(), Memory>
    ensures { OnOk result ((v : Value) → count_in counts.new v.0 ≡ count_in counts.old v.0 + names v list.now) }
{
    for v in list {
        match counts.add(*v) {
            Ok(()) => {}
            Err(e) => return Err(e),
        }
    }
    Ok(())
}

/// How often each value is used in a body, inside its operations too.
pub fn counted(alloc: Global, ops: &[Op]) -> Result<UseCounts, Memory>
    ensures { IfOk result (λ c. (v : Value) → count_in c v.0 ≡ uses_op v ops.now) }
{
    let mut out = Vec::new(alloc);
    push_body(&mut out, ops)?;
    let mut counts = UseCounts::new(alloc);
    add_all(&mut counts, out.as_slice())?;
    Ok(counts)
}
