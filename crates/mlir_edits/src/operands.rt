ghost use Rattle.std.specs.Prelude.{◌≡◌, [], ◌∷◌, map, max, option_to_list};
ghost use Rattle.mlir_ir.specs.Count.{operands, idx_values};
ghost use Rattle.mlir_meaning.specs.States.{names_of};
ghost use Rattle.verified_runs.specs.Fresh.{above_values};

use mlir_ir::{Idx, OpKind, Ty, ValueId};

// Each of these is one more than the greatest number, and 0 where there is none.

fn of_one(v: &ValueId) -> u64
    ensures { result ≡ above_values (v.now ∷ []) }
{
    v.0 as u64 + 1
}

fn of_two(v: &ValueId, w: &ValueId) -> u64
    ensures { result ≡ above_values (v.now ∷ w.now ∷ []) }
{
    of_one(v).max(of_one(w))
}

fn of_three(v: &ValueId, w: &ValueId, u: &ValueId) -> u64
    ensures { result ≡ above_values (v.now ∷ w.now ∷ u.now ∷ []) }
{
    of_one(v).max(of_two(w, u))
}

fn of_option(v: &Option<ValueId>) -> u64
    ensures { result ≡ above_values (option_to_list v.now) }
{
    match v {
        Some(v) => of_one(v),
        None => 0,
    }
}

fn of_list(list: &[ValueId]) -> u64
    ensures { result ≡ above_values list.now }
{
    let mut end = 0u64;
    for v in list {
        end = end.max(of_one(v));
    }
    end
}

fn of_index(i: &Idx) -> u64
    ensures { result ≡ above_values (idx_values (i.now ∷ [])) }
{
    match i {
        Idx::Literal(_) => 0,
        Idx::Value(v) => of_one(v),
    }
}

fn of_indices(list: &[Idx]) -> u64
    ensures { result ≡ above_values (idx_values list.now) }
{
    let mut end = 0u64;
    for i in list {
        end = end.max(of_index(i));
    }
    end
}

fn of_starts(list: &[(ValueId, Ty, ValueId)]) -> u64
    ensures { result ≡ above_values (map (λ c. c.2) list.now) }
{
    let mut end = 0u64;
    for c in list {
        end = end.max(of_one(&c.2));
    }
    end
}

pub(crate) fn of_definitions(list: &[(ValueId, Ty)]) -> u64
    ensures { result ≡ above_values (names_of list.now) }
{
    let mut end = 0u64;
    for d in list {
        end = end.max(of_one(&d.0));
    }
    end
}

/// Of the operands of an operation itself.
#[tactic(auto, using(crate::proofs::Ends::above_append))]
pub(crate) fn of_operands(kind: &OpKind) -> u64
    ensures { result ≡ above_values (operands kind.now) }
{
    match kind {
        OpKind::Constant { .. } => 0,
        OpKind::Apply { args, .. } => of_list(args.as_slice()),
        OpKind::Least { args, .. } => of_list(args.as_slice()),
        OpKind::Empty { sizes } => of_list(sizes.as_slice()),
        OpKind::ExtractSlice {
            source,
            offsets,
            sizes,
        } => of_one(source)
            .max(of_indices(offsets.as_slice()))
            .max(of_indices(sizes.as_slice())),
        OpKind::InsertSlice {
            source,
            dest,
            offsets,
            sizes,
        } => of_two(source, dest)
            .max(of_indices(offsets.as_slice()))
            .max(of_indices(sizes.as_slice())),
        OpKind::Pad {
            source,
            high,
            value,
        } => of_two(source, value).max(of_indices(high.as_slice())),
        OpKind::Generic {
            ins,
            outs,
            captured,
            ..
        } => of_list(ins.as_slice())
            .max(of_one(outs))
            .max(of_list(captured.as_slice())),
        OpKind::Fill { value, outs } => of_two(value, outs),
        OpKind::Matmul { a, b, outs } => of_three(a, b, outs),
        OpKind::BatchMatmul { a, b, outs } => of_three(a, b, outs),
        OpKind::Transpose { source, outs, .. } => of_two(source, outs),
        OpKind::Broadcast { source, outs, .. } => of_two(source, outs),
        OpKind::Pack {
            source,
            dest,
            value,
            ..
        } => of_two(source, dest).max(of_option(value)),
        OpKind::Unpack { source, dest, .. } => of_two(source, dest),
        OpKind::For {
            lower,
            upper,
            step,
            carried,
            ..
        } => of_three(lower, upper, step).max(of_starts(carried.as_slice())),
        OpKind::Forall {
            lower,
            upper,
            step,
            shared,
            ..
        } => of_indices(lower.as_slice())
            .max(of_indices(upper.as_slice()))
            .max(of_indices(step.as_slice()))
            .max(of_starts(shared.as_slice())),
        OpKind::Yield { values } => of_list(values.as_slice()),
        OpKind::ParallelInsert {
            source,
            dest,
            offsets,
            sizes,
        } => of_two(source, dest)
            .max(of_indices(offsets.as_slice()))
            .max(of_indices(sizes.as_slice())),
        OpKind::CreateMask { sizes } => of_list(sizes.as_slice()),
        OpKind::TransferRead {
            source,
            offsets,
            pad,
            mask,
            ..
        } => of_two(source, pad)
            .max(of_list(offsets.as_slice()))
            .max(of_option(mask)),
        OpKind::TransferWrite {
            value,
            dest,
            offsets,
            mask,
            ..
        } => of_two(value, dest)
            .max(of_list(offsets.as_slice()))
            .max(of_option(mask)),
        OpKind::Elementwise { args, .. } => of_list(args.as_slice()),
        OpKind::MultiReduction { source, acc, .. } => of_two(source, acc),
        OpKind::Return { values } => of_list(values.as_slice()),
    }
}
