ghost use Rattle.std.specs.Prelude.{◌≡◌, IfOk};
ghost use Rattle.mlir_ir.specs.declared.tree.OpKind.{For, Forall};

use crate::kinds::{
    copy_apply, copy_constant, copy_elementwise, copy_empty, copy_least, copy_mask, copy_reduction,
    copy_return, copy_yield,
};
use crate::lists::{copy_carried, copy_definitions, copy_list, copy_types};
use crate::moves::{
    copy_extract, copy_insert, copy_pad, copy_parallel_insert, copy_read, copy_write,
};
use crate::structured::{copy_broadcast, copy_generic, copy_pack, copy_transpose, copy_unpack};
use mlir_base::{List, Memory, Name};
use mlir_ir::{Func, Idx, Module, Op, OpKind, Ty, ValueId};
use std::alloc::Global;

fn make_for(
    alloc: Global,
    var: ValueId,
    lower: ValueId,
    upper: ValueId,
    step: ValueId,
    carried: &List<(ValueId, Ty, ValueId)>,
    body: List<Op>,
) -> Result<OpKind, Memory>
    ensures { IfOk result (λ k. k ≡ For var lower upper step carried.now body) }
{
    let carried = copy_carried(alloc, carried.as_slice())?;
    Ok(OpKind::For {
        var,
        lower,
        upper,
        step,
        carried,
        body,
    })
}

fn make_forall(
    alloc: Global,
    vars: &List<ValueId>,
    lower: &List<Idx>,
    upper: &List<Idx>,
    step: &List<Idx>,
    shared: &List<(ValueId, Ty, ValueId)>,
    body: List<Op>,
) -> Result<OpKind, Memory>
    ensures { IfOk result (λ k. k ≡ Forall vars.now lower.now upper.now step.now shared.now body) }
{
    let vars = copy_list(alloc, vars.as_slice())?;
    let lower = copy_list(alloc, lower.as_slice())?;
    let upper = copy_list(alloc, upper.as_slice())?;
    let step = copy_list(alloc, step.as_slice())?;
    let shared = copy_carried(alloc, shared.as_slice())?;
    Ok(OpKind::Forall {
        vars,
        lower,
        upper,
        step,
        shared,
        body,
    })
}

#[cycle(copies)]
fn copy_body(alloc: Global, ops: &[Op]) -> Result<List<Op>, Memory>
    ensures { IfOk result (λ l. l ≡ ops.now) }
{
    let mut copies = List::new(alloc);
    for op in ops {
        let copy = copy_op(alloc, op)?;
        copies.push(copy)?;
    }
    Ok(copies)
}

#[cycle(copies)]
fn copy_op(alloc: Global, op: &Op) -> Result<Op, Memory>
    ensures { IfOk result (λ o. o ≡ op.now) }
{
    let results = copy_definitions(alloc, op.results.as_slice())?;
    let kind = copy_kind(alloc, &op.kind)?;
    Ok(Op {
        id: op.id,
        results,
        kind,
    })
}

#[cycle(copies)]
fn copy_kind(alloc: Global, kind: &OpKind) -> Result<OpKind, Memory>
    ensures { IfOk result (λ k. k ≡ kind.now) }
{
    match kind {
        OpKind::Constant { value } => copy_constant(alloc, value),
        OpKind::Apply { map, args } => copy_apply(alloc, map, args),
        OpKind::Least { map, args } => copy_least(alloc, map, args),
        OpKind::Empty { sizes } => copy_empty(alloc, sizes),
        OpKind::ExtractSlice {
            source,
            offsets,
            sizes,
        } => copy_extract(alloc, *source, offsets, sizes),
        OpKind::InsertSlice {
            source,
            dest,
            offsets,
            sizes,
        } => copy_insert(alloc, *source, *dest, offsets, sizes),
        OpKind::Pad {
            source,
            high,
            value,
        } => copy_pad(alloc, *source, high, *value),
        OpKind::Generic {
            maps,
            iterators,
            ins,
            outs,
            captured,
            payload,
        } => copy_generic(alloc, maps, iterators, ins, *outs, captured, payload),
        OpKind::Fill { value, outs } => Ok(OpKind::Fill {
            value: *value,
            outs: *outs,
        }),
        OpKind::Matmul { a, b, outs } => Ok(OpKind::Matmul {
            a: *a,
            b: *b,
            outs: *outs,
        }),
        OpKind::BatchMatmul { a, b, outs } => Ok(OpKind::BatchMatmul {
            a: *a,
            b: *b,
            outs: *outs,
        }),
        OpKind::Transpose {
            source,
            outs,
            order,
        } => copy_transpose(alloc, *source, *outs, order),
        OpKind::Broadcast { source, outs, dims } => copy_broadcast(alloc, *source, *outs, dims),
        OpKind::Pack {
            source,
            dest,
            value,
            dims,
            tiles,
        } => copy_pack(alloc, *source, *dest, *value, dims, tiles),
        OpKind::Unpack {
            source,
            dest,
            dims,
            tiles,
        } => copy_unpack(alloc, *source, *dest, dims, tiles),
        OpKind::For {
            var,
            lower,
            upper,
            step,
            carried,
            body,
        } => {
            let body = copy_body(alloc, body.as_slice())?;
            make_for(alloc, *var, *lower, *upper, *step, carried, body)
        }
        OpKind::Forall {
            vars,
            lower,
            upper,
            step,
            shared,
            body,
        } => {
            let body = copy_body(alloc, body.as_slice())?;
            make_forall(alloc, vars, lower, upper, step, shared, body)
        }
        OpKind::Yield { values } => copy_yield(alloc, values),
        OpKind::ParallelInsert {
            source,
            dest,
            offsets,
            sizes,
        } => copy_parallel_insert(alloc, *source, *dest, offsets, sizes),
        OpKind::CreateMask { sizes } => copy_mask(alloc, sizes),
        OpKind::TransferRead {
            source,
            offsets,
            pad,
            mask,
            map,
        } => copy_read(alloc, *source, offsets, *pad, *mask, map),
        OpKind::TransferWrite {
            value,
            dest,
            offsets,
            mask,
            map,
        } => copy_write(alloc, *value, *dest, offsets, *mask, map),
        OpKind::Elementwise { op, args } => copy_elementwise(alloc, op, args),
        OpKind::MultiReduction {
            kind,
            source,
            acc,
            dims,
        } => copy_reduction(alloc, *kind, *source, *acc, dims),
        OpKind::Return { values } => copy_return(alloc, values),
    }
}

fn copy_func(alloc: Global, f: &Func) -> Result<Func, Memory>
    ensures { IfOk result (λ g. g ≡ f.now) }
{
    let name = Name::new(alloc, f.name.as_str())?;
    let params = copy_definitions(alloc, f.params.as_slice())?;
    let results = copy_types(alloc, f.results.as_slice())?;
    let body = copy_body(alloc, f.body.as_slice())?;
    Ok(Func {
        name,
        params,
        results,
        body,
    })
}

fn copy_funcs(alloc: Global, funcs: &[Func]) -> Result<List<Func>, Memory>
    ensures { IfOk result (λ l. l ≡ funcs.now) }
{
    let mut copies = List::new(alloc);
    for f in funcs {
        let copy = copy_func(alloc, f)?;
        copies.push(copy)?;
    }
    Ok(copies)
}

/// An equal module, with the same numbers.
pub fn copy_module(alloc: Global, m: &Module) -> Result<Module, Memory>
    ensures { IfOk result (λ n. n ≡ m.now) }
{
    let funcs = copy_funcs(alloc, m.funcs.as_slice())?;
    Ok(Module { funcs })
}
