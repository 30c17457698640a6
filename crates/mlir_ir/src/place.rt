ghost use Rattle.std.specs.Prelude.{◌≡◌, ◌^◌, ◌-◌, min, option_to_list, map, [], ◌∷◌};
ghost use Rattle.mlir_ir.specs.Count.{names, operands, idx_values, uses_in, uses_op, uses_kind};

use crate::tree::{Idx, Module, Op, OpKind, Ty, ValueId};

/// The number of operand places that name `v`, or the greatest number of 32 bits where it is greater.
pub fn uses(m: &Module, v: ValueId) -> u32
    ensures { result ≡ min (uses_in v m.now.funcs) (2 ^ 32 - 1) }
{
    let mut total = 0u32;
    for f in m.funcs.as_slice() {
        total = total.saturating_add(uses_body(f.body.as_slice(), v));
    }
    total
}

#[cycle(place)]
fn uses_body(ops: &[Op], v: ValueId) -> u32
    ensures { result ≡ min (uses_op v ops.now) (2 ^ 32 - 1) }
{
    let mut total = 0u32;
    for op in ops {
        total = total.saturating_add(uses_within(&op.kind, v));
    }
    total
}

#[cycle(place)]
fn uses_within(kind: &OpKind, v: ValueId) -> u32
    ensures { result ≡ min (uses_kind v kind.now) (2 ^ 32 - 1) }
{
    let own = own_uses(kind, v);
    match kind {
        OpKind::For { body, .. } => own.saturating_add(uses_body(body.as_slice(), v)),
        OpKind::Forall { body, .. } => own.saturating_add(uses_body(body.as_slice(), v)),
        _ => own,
    }
}

fn own_uses(kind: &OpKind, v: ValueId) -> u32
    ensures { result ≡ min (names v (operands kind.now)) (2 ^ 32 - 1) }
{
    match kind {
        OpKind::Constant { .. } => 0,
        OpKind::Apply { args, .. } => in_list(args.as_slice(), v),
        OpKind::Least { args, .. } => in_list(args.as_slice(), v),
        OpKind::Empty { sizes } => in_list(sizes.as_slice(), v),
        OpKind::ExtractSlice {
            source,
            offsets,
            sizes,
        } => is_one(source, v)
            .saturating_add(in_idxs(offsets.as_slice(), v))
            .saturating_add(in_idxs(sizes.as_slice(), v)),
        OpKind::InsertSlice {
            source,
            dest,
            offsets,
            sizes,
        } => is_one(source, v)
            .saturating_add(is_one(dest, v))
            .saturating_add(in_idxs(offsets.as_slice(), v))
            .saturating_add(in_idxs(sizes.as_slice(), v)),
        OpKind::Pad {
            source,
            high,
            value,
        } => is_one(source, v)
            .saturating_add(in_idxs(high.as_slice(), v))
            .saturating_add(is_one(value, v)),
        OpKind::Generic {
            ins,
            outs,
            captured,
            ..
        } => in_list(ins.as_slice(), v)
            .saturating_add(is_one(outs, v))
            .saturating_add(in_list(captured.as_slice(), v)),
        OpKind::Fill { value, outs } => is_one(value, v).saturating_add(is_one(outs, v)),
        OpKind::Matmul { a, b, outs } => is_one(a, v)
            .saturating_add(is_one(b, v))
            .saturating_add(is_one(outs, v)),
        OpKind::BatchMatmul { a, b, outs } => is_one(a, v)
            .saturating_add(is_one(b, v))
            .saturating_add(is_one(outs, v)),
        OpKind::Transpose { source, outs, .. } => is_one(source, v).saturating_add(is_one(outs, v)),
        OpKind::Broadcast { source, outs, .. } => is_one(source, v).saturating_add(is_one(outs, v)),
        OpKind::Pack {
            source,
            dest,
            value,
            ..
        } => is_one(source, v)
            .saturating_add(is_one(dest, v))
            .saturating_add(in_option(value, v)),
        OpKind::Unpack { source, dest, .. } => is_one(source, v).saturating_add(is_one(dest, v)),
        OpKind::For {
            lower,
            upper,
            step,
            carried,
            ..
        } => is_one(lower, v)
            .saturating_add(is_one(upper, v))
            .saturating_add(is_one(step, v))
            .saturating_add(in_starts(carried.as_slice(), v)),
        OpKind::Forall {
            lower,
            upper,
            step,
            shared,
            ..
        } => in_idxs(lower.as_slice(), v)
            .saturating_add(in_idxs(upper.as_slice(), v))
            .saturating_add(in_idxs(step.as_slice(), v))
            .saturating_add(in_starts(shared.as_slice(), v)),
        OpKind::Yield { values } => in_list(values.as_slice(), v),
        OpKind::ParallelInsert {
            source,
            dest,
            offsets,
            sizes,
        } => is_one(source, v)
            .saturating_add(is_one(dest, v))
            .saturating_add(in_idxs(offsets.as_slice(), v))
            .saturating_add(in_idxs(sizes.as_slice(), v)),
        OpKind::CreateMask { sizes } => in_list(sizes.as_slice(), v),
        OpKind::TransferRead {
            source,
            offsets,
            pad,
            mask,
            ..
        } => is_one(source, v)
            .saturating_add(in_list(offsets.as_slice(), v))
            .saturating_add(is_one(pad, v))
            .saturating_add(in_option(mask, v)),
        OpKind::TransferWrite {
            value,
            dest,
            offsets,
            mask,
            ..
        } => is_one(value, v)
            .saturating_add(is_one(dest, v))
            .saturating_add(in_list(offsets.as_slice(), v))
            .saturating_add(in_option(mask, v)),
        OpKind::Elementwise { args, .. } => in_list(args.as_slice(), v),
        OpKind::MultiReduction { source, acc, .. } => is_one(source, v).saturating_add(is_one(
            acc, v,
        )),
        OpKind::Return { values } => in_list(values.as_slice(), v),
    }
}

fn is_one(w: &ValueId, v: ValueId) -> u32
    ensures { result ≡ names v (w.now ∷ []) }
{
    if w.0 == v.0 { 1 } else { 0 }
}

fn in_option(w: &Option<ValueId>, v: ValueId) -> u32
    ensures { result ≡ names v (option_to_list w.now) }
{
    match w {
        Some(w) => is_one(w, v),
        None => 0,
    }
}

fn in_list(list: &[ValueId], v: ValueId) -> u32
    ensures { result ≡ min (names v list.now) (2 ^ 32 - 1) }
{
    let mut total = 0u32;
    for w in list {
        total = total.saturating_add(is_one(w, v));
    }
    total
}

fn in_starts(list: &[(ValueId, Ty, ValueId)], v: ValueId) -> u32
    ensures { result ≡ min (names v (map (λ c. c.2) list.now)) (2 ^ 32 - 1) }
{
    let mut total = 0u32;
    for w in list {
        total = total.saturating_add(is_one(&w.2, v));
    }
    total
}

fn in_idxs(list: &[Idx], v: ValueId) -> u32
    ensures { result ≡ min (names v (idx_values list.now)) (2 ^ 32 - 1) }
{
    let mut total = 0u32;
    for idx in list {
        if let Idx::Value(w) = idx {
            total = total.saturating_add(is_one(w, v));
        }
    }
    total
}
