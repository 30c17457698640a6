//! The operands of an operation, one after the other.

ghost use Rattle.std.specs.Prelude.{◌≡◌, ◌++◌, ◌∷◌, [], map, option_to_list, OnOk};
ghost use Rattle.mlir_ir.specs.Count.{operands, idx_values};

use mlir_base::Memory;
use mlir_ir::{Idx, OpKind, Ty, ValueId};

fn push(out: &mut Vec<ValueId>, v: ValueId) -> Result<(), Memory>
    ensures { OnOk result (out.new.items ≡ out.old.items ++ v ∷ []) }
{
    match out.push(v) {
        Ok(()) => Ok(()),
        Err(_) => Err(Memory),
    }
}

fn push_two(out: &mut Vec<ValueId>, v: ValueId, w: ValueId) -> Result<(), Memory>
    ensures { OnOk result (out.new.items ≡ out.old.items ++ (v ∷ w ∷ [])) }
{
    push(out, v)?;
    push(out, w)
}

fn push_three(out: &mut Vec<ValueId>, v: ValueId, w: ValueId, u: ValueId) -> Result<(), Memory>
    ensures { OnOk result (out.new.items ≡ out.old.items ++ (v ∷ w ∷ u ∷ [])) }
{
    push_two(out, v, w)?;
    push(out, u)
}

fn push_option(out: &mut Vec<ValueId>, v: &Option<ValueId>) -> Result<(), Memory>
    ensures { OnOk result (out.new.items ≡ out.old.items ++ option_to_list v.now) }
{
    match v {
        Some(v) => push(out, *v),
        None => Ok(()),
    }
}

fn push_list(out: &mut Vec<ValueId>, list: &[ValueId]) -> Result<(), Memory>
    ensures { OnOk result (out.new.items ≡ out.old.items ++ list.now) }
{
    for v in list {
        match push(out, *v) {
            Ok(()) => {}
            Err(e) => return Err(e),
        }
    }
    Ok(())
}

fn push_index(out: &mut Vec<ValueId>, i: &Idx) -> Result<(), Memory>
    ensures { OnOk result (out.new.items ≡ out.old.items ++ idx_values (i.now ∷ [])) }
{
    match i {
        Idx::Literal(_) => Ok(()),
        Idx::Value(v) => push(out, *v),
    }
}

fn push_indices(out: &mut Vec<ValueId>, list: &[Idx]) -> Result<(), Memory>
    ensures { OnOk result (out.new.items ≡ out.old.items ++ idx_values list.now) }
{
    for i in list {
        match push_index(out, i) {
            Ok(()) => {}
            Err(e) => return Err(e),
        }
    }
    Ok(())
}

fn push_starts(out: &mut Vec<ValueId>, list: &[(ValueId, Ty, ValueId)]) -> Result<(), Memory>
    ensures { OnOk result (out.new.items ≡ out.old.items ++ map (λ c. c.2) list.now) }
{
    for c in list {
        match push(out, c.2) {
            Ok(()) => {}
            Err(e) => return Err(e),
        }
    }
    Ok(())
}

fn push_places(out: &mut Vec<ValueId>, offsets: &[Idx], sizes: &[Idx]) -> Result<(), Memory>
    ensures { OnOk result (out.new.items ≡ out.old.items ++ (idx_values offsets.now ++ idx_values sizes.now)) }
{
    push_indices(out, offsets)?;
    push_indices(out, sizes)
}

fn push_slice(
    out: &mut Vec<ValueId>,
    source: ValueId,
    offsets: &[Idx],
    sizes: &[Idx],
) -> Result<(), Memory>
    ensures { OnOk result (out.new.items ≡ out.old.items ++ (source ∷ idx_values offsets.now ++ idx_values sizes.now)) }
{
    push(out, source)?;
    push_places(out, offsets, sizes)
}

fn push_insertion(
    out: &mut Vec<ValueId>,
    source: ValueId,
    dest: ValueId,
    offsets: &[Idx],
    sizes: &[Idx],
) -> Result<(), Memory>
    ensures { OnOk result (out.new.items ≡ out.old.items ++ (source ∷ dest ∷ idx_values offsets.now ++ idx_values sizes.now)) }
{
    push_two(out, source, dest)?;
    push_places(out, offsets, sizes)
}

fn push_pad(
    out: &mut Vec<ValueId>,
    source: ValueId,
    high: &[Idx],
    value: ValueId,
) -> Result<(), Memory>
    ensures { OnOk result (out.new.items ≡ out.old.items ++ (source ∷ idx_values high.now ++ value ∷ [])) }
{
    push(out, source)?;
    push_indices(out, high)?;
    push(out, value)
}

fn push_generic(
    out: &mut Vec<ValueId>,
    ins: &[ValueId],
    outs: ValueId,
    captured: &[ValueId],
) -> Result<(), Memory>
    ensures { OnOk result (out.new.items ≡ out.old.items ++ (ins.now ++ outs ∷ captured.now)) }
{
    push_list(out, ins)?;
    push(out, outs)?;
    push_list(out, captured)
}

fn push_pack(
    out: &mut Vec<ValueId>,
    source: ValueId,
    dest: ValueId,
    value: &Option<ValueId>,
) -> Result<(), Memory>
    ensures { OnOk result (out.new.items ≡ out.old.items ++ (source ∷ dest ∷ option_to_list value.now)) }
{
    push_two(out, source, dest)?;
    push_option(out, value)
}

fn push_for(
    out: &mut Vec<ValueId>,
    lower: ValueId,
    upper: ValueId,
    step: ValueId,
    carried: &[(ValueId, Ty, ValueId)],
) -> Result<(), Memory>
    ensures { OnOk result (out.new.items ≡ out.old.items ++ (lower ∷ upper ∷ step ∷ map (λ c. c.2) carried.now)) }
{
    push_three(out, lower, upper, step)?;
    push_starts(out, carried)
}

fn push_forall(
    out: &mut Vec<ValueId>,
    lower: &[Idx],
    upper: &[Idx],
    step: &[Idx],
    shared: &[(ValueId, Ty, ValueId)],
) -> Result<(), Memory>
    ensures { OnOk result (out.new.items ≡ out.old.items ++ (idx_values lower.now ++ idx_values upper.now ++ idx_values step.now ++ map (λ c. c.2) shared.now)) }
{
    push_places(out, lower, upper)?;
    push_indices(out, step)?;
    push_starts(out, shared)
}

fn push_read(
    out: &mut Vec<ValueId>,
    source: ValueId,
    offsets: &[ValueId],
    pad: ValueId,
    mask: &Option<ValueId>,
) -> Result<(), Memory>
    ensures { OnOk result (out.new.items ≡ out.old.items ++ (source ∷ offsets.now ++ pad ∷ option_to_list mask.now)) }
{
    push(out, source)?;
    push_list(out, offsets)?;
    push(out, pad)?;
    push_option(out, mask)
}

fn push_write(
    out: &mut Vec<ValueId>,
    value: ValueId,
    dest: ValueId,
    offsets: &[ValueId],
    mask: &Option<ValueId>,
) -> Result<(), Memory>
    ensures { OnOk result (out.new.items ≡ out.old.items ++ (value ∷ dest ∷ offsets.now ++ option_to_list mask.now)) }
{
    push_two(out, value, dest)?;
    push_list(out, offsets)?;
    push_option(out, mask)
}

/// Adds the operands of an operation itself.
pub(crate) fn push_operands(out: &mut Vec<ValueId>, kind: &OpKind) -> Result<(), Memory>
    ensures { OnOk result (out.new.items ≡ out.old.items ++ operands kind.now) }
{
    match kind {
        OpKind::Constant { .. } => Ok(()),
        OpKind::Apply { args, .. } => push_list(out, args.as_slice()),
        OpKind::Least { args, .. } => push_list(out, args.as_slice()),
        OpKind::Empty { sizes } => push_list(out, sizes.as_slice()),
        OpKind::ExtractSlice {
            source,
            offsets,
            sizes,
        } => push_slice(out, *source, offsets.as_slice(), sizes.as_slice()),
        OpKind::InsertSlice {
            source,
            dest,
            offsets,
            sizes,
        } => push_insertion(out, *source, *dest, offsets.as_slice(), sizes.as_slice()),
        OpKind::Pad {
            source,
            high,
            value,
        } => push_pad(out, *source, high.as_slice(), *value),
        OpKind::Generic {
            ins,
            outs,
            captured,
            ..
        } => push_generic(out, ins.as_slice(), *outs, captured.as_slice()),
        OpKind::Fill { value, outs } => push_two(out, *value, *outs),
        OpKind::Matmul { a, b, outs } => push_three(out, *a, *b, *outs),
        OpKind::BatchMatmul { a, b, outs } => push_three(out, *a, *b, *outs),
        OpKind::Transpose { source, outs, .. } => push_two(out, *source, *outs),
        OpKind::Broadcast { source, outs, .. } => push_two(out, *source, *outs),
        OpKind::Pack {
            source,
            dest,
            value,
            ..
        } => push_pack(out, *source, *dest, value),
        OpKind::Unpack { source, dest, .. } => push_two(out, *source, *dest),
        OpKind::For {
            lower,
            upper,
            step,
            carried,
            ..
        } => push_for(out, *lower, *upper, *step, carried.as_slice()),
        OpKind::Forall {
            lower,
            upper,
            step,
            shared,
            ..
        } => push_forall(
            out,
            lower.as_slice(),
            upper.as_slice(),
            step.as_slice(),
            shared.as_slice(),
        ),
        OpKind::Yield { values } => push_list(out, values.as_slice()),
        OpKind::ParallelInsert {
            source,
            dest,
            offsets,
            sizes,
        } => push_insertion(out, *source, *dest, offsets.as_slice(), sizes.as_slice()),
        OpKind::CreateMask { sizes } => push_list(out, sizes.as_slice()),
        OpKind::TransferRead {
            source,
            offsets,
            pad,
            mask,
            ..
        } => push_read(out, *source, offsets.as_slice(), *pad, mask),
        OpKind::TransferWrite {
            value,
            dest,
            offsets,
            mask,
            ..
        } => push_write(out, *value, *dest, offsets.as_slice(), mask),
        OpKind::Elementwise { args, .. } => push_list(out, args.as_slice()),
        OpKind::MultiReduction { source, acc, .. } => push_two(out, *source, *acc),
        OpKind::Return { values } => push_list(out, values.as_slice()),
    }
}
