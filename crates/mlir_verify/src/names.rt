ghost use Rattle.std.specs.Prelude.{◌≡◌, ℕ, List, [], ◌∷◌, ◌++◌, map, option_to_list};
ghost use Rattle.mlir_ir.specs.Count.{operands, idx_values};
ghost use Rattle.mlir_verify.specs.Names.{numbers, arguments, defined_by, in_scope};
ghost use Rattle.mlir_verify.specs.Scope.{types_in, IsSet, Adds};

use crate::scope::Scope;
use mlir_base::Memory;
use mlir_ir::{Idx, Op, OpKind, Ty, ValueId};
use std::collections::BTreeSet;

/// Adds a number; false where it is there.
pub(crate) fn add(set: &mut BTreeSet<u32>, n: u32) -> Result<bool, Memory>
    ensures { (known : List ℕ) → IsSet set.old known → Adds result set.new (n ∷ []) known }
{
    match set.insert(n) {
        Ok(added) => Ok(added),
        Err(_) => Err(Memory),
    }
}

/// Adds the numbers of these definitions; false where one is there or stands twice.
pub(crate) fn add_definitions(
    set: &mut BTreeSet<u32>,
    definitions: &[(ValueId, Ty)],
) -> Result<bool, Memory>
    ensures { (known : List ℕ) → IsSet set.old known → Adds result set.new (numbers definitions.now) known }
{
    for d in definitions {
        match add(set, d.0.0) {
            Ok(true) => {}
            Ok(false) => return Ok(false),
            Err(e) => return Err(e),
        }
    }
    Ok(true)
}

fn add_values(set: &mut BTreeSet<u32>, values: &[ValueId]) -> Result<bool, Memory>
    ensures { (known : List ℕ) → IsSet set.old known → Adds result set.new (map (λ v. v.0) values.now) known }
{
    for v in values {
        match add(set, v.0) {
            Ok(true) => {}
            Ok(false) => return Ok(false),
            Err(e) => return Err(e),
        }
    }
    Ok(true)
}

fn add_carried(set: &mut BTreeSet<u32>, carried: &[(ValueId, Ty, ValueId)]) -> Result<bool, Memory>
    ensures { (known : List ℕ) → IsSet set.old known → Adds result set.new (map (λ c. (c.0).0) carried.now) known }
{
    for c in carried {
        match add(set, c.0.0) {
            Ok(true) => {}
            Ok(false) => return Ok(false),
            Err(e) => return Err(e),
        }
    }
    Ok(true)
}

fn add_arguments(set: &mut BTreeSet<u32>, kind: &OpKind) -> Result<bool, Memory>
    ensures { (known : List ℕ) → IsSet set.old known → Adds result set.new (arguments kind.now) known }
{
    match kind {
        OpKind::For { var, carried, .. } => match add(set, var.0) {
            Ok(true) => add_carried(set, carried.as_slice()),
            Ok(false) => Ok(false),
            Err(e) => Err(e),
        },
        OpKind::Forall { vars, shared, .. } => match add_values(set, vars.as_slice()) {
            Ok(true) => add_carried(set, shared.as_slice()),
            Ok(false) => Ok(false),
            Err(e) => Err(e),
        },
        _ => Ok(true),
    }
}

/// Adds the values that an operation defines; false where one is there or stands twice.
pub(crate) fn add_defined(set: &mut BTreeSet<u32>, op: &Op) -> Result<bool, Memory>
    ensures { (known : List ℕ) → IsSet set.old known → Adds result set.new (defined_by op.now) known }
{
    match add_definitions(set, op.results.as_slice()) {
        Ok(true) => add_arguments(set, &op.kind),
        Ok(false) => Ok(false),
        Err(e) => Err(e),
    }
}

fn is_value_in_scope(scope: &Scope, v: ValueId) -> bool
    ensures { result ≡ in_scope (types_in scope.now) (v ∷ []) }
{
    scope.type_of(v).is_some()
}

fn is_option_in_scope(scope: &Scope, v: &Option<ValueId>) -> bool
    ensures { result ≡ in_scope (types_in scope.now) (option_to_list v.now) }
{
    match v {
        Some(v) => is_value_in_scope(scope, *v),
        None => true,
    }
}

fn are_in_scope(scope: &Scope, values: &[ValueId]) -> bool
    ensures { result ≡ in_scope (types_in scope.now) values.now }
{
    values.iter().all(|v| scope.type_of(*v).is_some())
}

fn are_starts_in_scope(scope: &Scope, carried: &[(ValueId, Ty, ValueId)]) -> bool
    ensures { result ≡ in_scope (types_in scope.now) (map (λ c. c.2) carried.now) }
{
    for c in carried {
        if !is_value_in_scope(scope, c.2) {
            return false;
        }
    }
    true
}

fn are_indices_in_scope(scope: &Scope, indices: &[Idx]) -> bool
    ensures { result ≡ in_scope (types_in scope.now) (idx_values indices.now) }
{
    for i in indices {
        if let Idx::Value(v) = i {
            if !is_value_in_scope(scope, *v) {
                return false;
            }
        }
    }
    true
}

fn are_two_in_scope(scope: &Scope, a: ValueId, b: ValueId) -> bool
    ensures { result ≡ in_scope (types_in scope.now) (a ∷ b ∷ []) }
{
    scope.type_of(a).is_some() && is_value_in_scope(scope, b)
}

fn are_three_in_scope(scope: &Scope, a: ValueId, b: ValueId, c: ValueId) -> bool
    ensures { result ≡ in_scope (types_in scope.now) (a ∷ b ∷ c ∷ []) }
{
    scope.type_of(a).is_some() && are_two_in_scope(scope, b, c)
}

#[tactic(auto, using(crate::proofs::Scopes::in_scope_append))]
fn are_all_indices_in_scope(scope: &Scope, offsets: &[Idx], sizes: &[Idx]) -> bool
    ensures { result ≡ in_scope (types_in scope.now) (idx_values offsets.now ++ idx_values sizes.now) }
{
    are_indices_in_scope(scope, offsets) && are_indices_in_scope(scope, sizes)
}

fn is_slice_in_scope(scope: &Scope, source: ValueId, offsets: &[Idx], sizes: &[Idx]) -> bool
    ensures { result ≡ in_scope (types_in scope.now) (source ∷ idx_values offsets.now ++ idx_values sizes.now) }
{
    scope.type_of(source).is_some() && are_all_indices_in_scope(scope, offsets, sizes)
}

fn is_insertion_in_scope(
    scope: &Scope,
    source: ValueId,
    dest: ValueId,
    offsets: &[Idx],
    sizes: &[Idx],
) -> bool
    ensures { result ≡ in_scope (types_in scope.now) (source ∷ dest ∷ idx_values offsets.now ++ idx_values sizes.now) }
{
    scope.type_of(source).is_some() && is_slice_in_scope(scope, dest, offsets, sizes)
}

#[tactic(auto, using(crate::proofs::Scopes::in_scope_append))]
fn is_pad_in_scope(scope: &Scope, source: ValueId, high: &[Idx], value: ValueId) -> bool
    ensures { result ≡ in_scope (types_in scope.now) (source ∷ idx_values high.now ++ value ∷ []) }
{
    scope.type_of(source).is_some()
        && (are_indices_in_scope(scope, high) && is_value_in_scope(scope, value))
}

#[tactic(auto, using(crate::proofs::Scopes::in_scope_append))]
fn is_generic_in_scope(scope: &Scope, ins: &[ValueId], outs: ValueId, captured: &[ValueId]) -> bool
    ensures { result ≡ in_scope (types_in scope.now) (ins.now ++ outs ∷ captured.now) }
{
    are_in_scope(scope, ins) && (scope.type_of(outs).is_some() && are_in_scope(scope, captured))
}

fn is_pack_in_scope(scope: &Scope, source: ValueId, dest: ValueId, value: &Option<ValueId>) -> bool
    ensures { result ≡ in_scope (types_in scope.now) (source ∷ dest ∷ option_to_list value.now) }
{
    scope.type_of(source).is_some()
        && (scope.type_of(dest).is_some() && is_option_in_scope(scope, value))
}

fn is_for_in_scope(
    scope: &Scope,
    lower: ValueId,
    upper: ValueId,
    step: ValueId,
    carried: &[(ValueId, Ty, ValueId)],
) -> bool
    ensures { result ≡ in_scope (types_in scope.now) (lower ∷ upper ∷ step ∷ map (λ c. c.2) carried.now) }
{
    scope.type_of(lower).is_some()
        && (scope.type_of(upper).is_some()
            && (scope.type_of(step).is_some() && are_starts_in_scope(scope, carried)))
}

#[tactic(auto, using(crate::proofs::Scopes::in_scope_append))]
fn are_bounds_in_scope(scope: &Scope, lower: &[Idx], upper: &[Idx], step: &[Idx]) -> bool
    ensures { result ≡ in_scope (types_in scope.now) (idx_values lower.now ++ idx_values upper.now ++ idx_values step.now) }
{
    are_all_indices_in_scope(scope, lower, upper) && are_indices_in_scope(scope, step)
}

#[tactic(auto, using(crate::proofs::Scopes::in_scope_append))]
fn is_forall_in_scope(
    scope: &Scope,
    lower: &[Idx],
    upper: &[Idx],
    step: &[Idx],
    shared: &[(ValueId, Ty, ValueId)],
) -> bool
    ensures { result ≡ in_scope (types_in scope.now) (idx_values lower.now ++ idx_values upper.now ++ idx_values step.now ++ map (λ c. c.2) shared.now) }
{
    are_bounds_in_scope(scope, lower, upper, step) && are_starts_in_scope(scope, shared)
}

#[tactic(auto, using(crate::proofs::Scopes::in_scope_append))]
fn is_read_in_scope(
    scope: &Scope,
    source: ValueId,
    offsets: &[ValueId],
    pad: ValueId,
    mask: &Option<ValueId>,
) -> bool
    ensures { result ≡ in_scope (types_in scope.now) (source ∷ offsets.now ++ pad ∷ option_to_list mask.now) }
{
    scope.type_of(source).is_some()
        && (are_in_scope(scope, offsets)
            && (scope.type_of(pad).is_some() && is_option_in_scope(scope, mask)))
}

#[tactic(auto, using(crate::proofs::Scopes::in_scope_append))]
fn is_write_in_scope(
    scope: &Scope,
    value: ValueId,
    dest: ValueId,
    offsets: &[ValueId],
    mask: &Option<ValueId>,
) -> bool
    ensures { result ≡ in_scope (types_in scope.now) (value ∷ dest ∷ offsets.now ++ option_to_list mask.now) }
{
    scope.type_of(value).is_some()
        && (scope.type_of(dest).is_some()
            && (are_in_scope(scope, offsets) && is_option_in_scope(scope, mask)))
}

/// Whether each operand of an operation is in scope.
pub(crate) fn operands_in_scope(scope: &Scope, kind: &OpKind) -> bool
    ensures { result ≡ in_scope (types_in scope.now) (operands kind.now) }
{
    match kind {
        OpKind::Constant { .. } => true,
        OpKind::Apply { args, .. } => are_in_scope(scope, args.as_slice()),
        OpKind::Least { args, .. } => are_in_scope(scope, args.as_slice()),
        OpKind::Empty { sizes } => are_in_scope(scope, sizes.as_slice()),
        OpKind::ExtractSlice {
            source,
            offsets,
            sizes,
        } => is_slice_in_scope(scope, *source, offsets.as_slice(), sizes.as_slice()),
        OpKind::InsertSlice {
            source,
            dest,
            offsets,
            sizes,
        } => is_insertion_in_scope(scope, *source, *dest, offsets.as_slice(), sizes.as_slice()),
        OpKind::Pad {
            source,
            high,
            value,
        } => is_pad_in_scope(scope, *source, high.as_slice(), *value),
        OpKind::Generic {
            ins,
            outs,
            captured,
            ..
        } => is_generic_in_scope(scope, ins.as_slice(), *outs, captured.as_slice()),
        OpKind::Fill { value, outs } => are_two_in_scope(scope, *value, *outs),
        OpKind::Matmul { a, b, outs } => are_three_in_scope(scope, *a, *b, *outs),
        OpKind::BatchMatmul { a, b, outs } => are_three_in_scope(scope, *a, *b, *outs),
        OpKind::Transpose { source, outs, .. } => are_two_in_scope(scope, *source, *outs),
        OpKind::Broadcast { source, outs, .. } => are_two_in_scope(scope, *source, *outs),
        OpKind::Pack {
            source,
            dest,
            value,
            ..
        } => is_pack_in_scope(scope, *source, *dest, value),
        OpKind::Unpack { source, dest, .. } => are_two_in_scope(scope, *source, *dest),
        OpKind::For {
            lower,
            upper,
            step,
            carried,
            ..
        } => is_for_in_scope(scope, *lower, *upper, *step, carried.as_slice()),
        OpKind::Forall {
            lower,
            upper,
            step,
            shared,
            ..
        } => {
            is_forall_in_scope(
                scope,
                lower.as_slice(),
                upper.as_slice(),
                step.as_slice(),
                shared.as_slice(),
            )
        }
        OpKind::Yield { values } => are_in_scope(scope, values.as_slice()),
        OpKind::ParallelInsert {
            source,
            dest,
            offsets,
            sizes,
        } => is_insertion_in_scope(scope, *source, *dest, offsets.as_slice(), sizes.as_slice()),
        OpKind::CreateMask { sizes } => are_in_scope(scope, sizes.as_slice()),
        OpKind::TransferRead {
            source,
            offsets,
            pad,
            mask,
            ..
        } => is_read_in_scope(scope, *source, offsets.as_slice(), *pad, mask),
        OpKind::TransferWrite {
            value,
            dest,
            offsets,
            mask,
            ..
        } => is_write_in_scope(scope, *value, *dest, offsets.as_slice(), mask),
        OpKind::Elementwise { args, .. } => are_in_scope(scope, args.as_slice()),
        OpKind::MultiReduction { source, acc, .. } => are_two_in_scope(scope, *source, *acc),
        OpKind::Return { values } => are_in_scope(scope, values.as_slice()),
    }
}
