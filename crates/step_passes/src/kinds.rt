ghost use Rattle.std.specs.Prelude.{◌≡◌, ℕ};
ghost use Rattle.mlir_meaning.specs.Renaming.{renamed, renamed_op, reused_ops};
ghost use Rattle.step_passes.specs.Naming.{name_in};

use crate::moves::{NewNames, move_indices, move_optional, move_starts, move_value, move_values};
use mlir_base::List;
use mlir_ir::{Op, OpKind, ValueId};
use std::mem;

/// Renames the uses of operations, also those inside them.
#[cycle(moving)]
fn move_ops(moves: &NewNames, ops: &mut [Op])
    ensures { ops.new ≡ reused_ops (name_in moves.now) ops.old }
{
    for k in 0..ops.len() {
        move_op(moves, &mut ops[k]);
    }
}

#[cycle(moving)]
pub(crate) fn move_op(moves: &NewNames, op: &mut Op)
    ensures { op.new ≡ renamed_op (λ n. n) (name_in moves.now) (λ n. n) op.old }
{
    let nothing = OpKind::Fill {
        value: ValueId(0),
        outs: ValueId(0),
    };
    let kind = mem::replace(&mut op.kind, nothing);
    op.kind = move_kind(moves, kind);
}

#[cycle(moving)]
fn move_body(moves: &NewNames, body: List<Op>) -> List<Op>
    ensures { result ≡ reused_ops (name_in moves.now) body }
{
    let mut ops = body.into_vec();
    move_ops(moves, ops.as_mut_slice());
    List::from_vec(ops)
}

#[cycle(moving)]
#[tactic(auto, unfolding(mlir_meaning::specs::Renaming::renamed))]
pub(crate) fn move_kind(moves: &NewNames, kind: OpKind) -> OpKind
    ensures { result ≡ renamed (λ n. n) (name_in moves.now) (λ n. n) kind }
{
    match kind {
        OpKind::Constant { value } => OpKind::Constant { value },
        OpKind::Apply { map, args } => OpKind::Apply {
            map,
            args: move_values(moves, args),
        },
        OpKind::Least { map, args } => OpKind::Least {
            map,
            args: move_values(moves, args),
        },
        OpKind::Empty { sizes } => OpKind::Empty {
            sizes: move_values(moves, sizes),
        },
        OpKind::ExtractSlice {
            source,
            offsets,
            sizes,
        } => OpKind::ExtractSlice {
            source: move_value(moves, source),
            offsets: move_indices(moves, offsets),
            sizes: move_indices(moves, sizes),
        },
        OpKind::InsertSlice {
            source,
            dest,
            offsets,
            sizes,
        } => OpKind::InsertSlice {
            source: move_value(moves, source),
            dest: move_value(moves, dest),
            offsets: move_indices(moves, offsets),
            sizes: move_indices(moves, sizes),
        },
        OpKind::Pad {
            source,
            high,
            value,
        } => OpKind::Pad {
            source: move_value(moves, source),
            high: move_indices(moves, high),
            value: move_value(moves, value),
        },
        OpKind::Generic {
            maps,
            iterators,
            ins,
            outs,
            captured,
            payload,
        } => OpKind::Generic {
            maps,
            iterators,
            ins: move_values(moves, ins),
            outs: move_value(moves, outs),
            captured: move_values(moves, captured),
            payload,
        },
        OpKind::Fill { value, outs } => OpKind::Fill {
            value: move_value(moves, value),
            outs: move_value(moves, outs),
        },
        OpKind::Matmul { a, b, outs } => OpKind::Matmul {
            a: move_value(moves, a),
            b: move_value(moves, b),
            outs: move_value(moves, outs),
        },
        OpKind::BatchMatmul { a, b, outs } => OpKind::BatchMatmul {
            a: move_value(moves, a),
            b: move_value(moves, b),
            outs: move_value(moves, outs),
        },
        OpKind::Transpose {
            source,
            outs,
            order,
        } => OpKind::Transpose {
            source: move_value(moves, source),
            outs: move_value(moves, outs),
            order,
        },
        OpKind::Broadcast { source, outs, dims } => OpKind::Broadcast {
            source: move_value(moves, source),
            outs: move_value(moves, outs),
            dims,
        },
        OpKind::Pack {
            source,
            dest,
            value,
            dims,
            tiles,
        } => OpKind::Pack {
            source: move_value(moves, source),
            dest: move_value(moves, dest),
            value: move_optional(moves, value),
            dims,
            tiles,
        },
        OpKind::Unpack {
            source,
            dest,
            dims,
            tiles,
        } => OpKind::Unpack {
            source: move_value(moves, source),
            dest: move_value(moves, dest),
            dims,
            tiles,
        },
        OpKind::For {
            var,
            lower,
            upper,
            step,
            carried,
            body,
        } => OpKind::For {
            var,
            lower: move_value(moves, lower),
            upper: move_value(moves, upper),
            step: move_value(moves, step),
            carried: move_starts(moves, carried),
            body: move_body(moves, body),
        },
        OpKind::Forall {
            vars,
            lower,
            upper,
            step,
            shared,
            body,
        } => OpKind::Forall {
            vars,
            lower: move_indices(moves, lower),
            upper: move_indices(moves, upper),
            step: move_indices(moves, step),
            shared: move_starts(moves, shared),
            body: move_body(moves, body),
        },
        OpKind::Yield { values } => OpKind::Yield {
            values: move_values(moves, values),
        },
        OpKind::ParallelInsert {
            source,
            dest,
            offsets,
            sizes,
        } => OpKind::ParallelInsert {
            source: move_value(moves, source),
            dest,
            offsets: move_indices(moves, offsets),
            sizes: move_indices(moves, sizes),
        },
        OpKind::CreateMask { sizes } => OpKind::CreateMask {
            sizes: move_values(moves, sizes),
        },
        OpKind::TransferRead {
            source,
            offsets,
            pad,
            mask,
            map,
        } => OpKind::TransferRead {
            source: move_value(moves, source),
            offsets: move_values(moves, offsets),
            pad: move_value(moves, pad),
            mask: move_optional(moves, mask),
            map,
        },
        OpKind::TransferWrite {
            value,
            dest,
            offsets,
            mask,
            map,
        } => OpKind::TransferWrite {
            value: move_value(moves, value),
            dest: move_value(moves, dest),
            offsets: move_values(moves, offsets),
            mask: move_optional(moves, mask),
            map,
        },
        OpKind::Elementwise { op, args } => OpKind::Elementwise {
            op,
            args: move_values(moves, args),
        },
        OpKind::MultiReduction {
            kind,
            source,
            acc,
            dims,
        } => OpKind::MultiReduction {
            kind,
            source: move_value(moves, source),
            acc: move_value(moves, acc),
            dims,
        },
        OpKind::Return { values } => OpKind::Return {
            values: move_values(moves, values),
        },
    }
}
