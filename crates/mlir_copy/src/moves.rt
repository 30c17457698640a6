ghost use Rattle.std.specs.Prelude.{◌≡◌, IfOk};
ghost use Rattle.mlir_ir.specs.declared.tree.OpKind.{ExtractSlice, InsertSlice, ParallelInsert, Pad, TransferRead, TransferWrite};

use crate::lists::copy_list;
use crate::parts::copy_map;
use affine_maps::AffineMap;
use mlir_base::{List, Memory};
use mlir_ir::{Idx, OpKind, ValueId};
use std::alloc::Global;

pub(crate) fn copy_extract(
    alloc: Global,
    source: ValueId,
    offsets: &List<Idx>,
    sizes: &List<Idx>,
) -> Result<OpKind, Memory>
    ensures { IfOk result (λ k. k ≡ ExtractSlice source offsets.now sizes.now) }
{
    let offsets = copy_list(alloc, offsets.as_slice())?;
    let sizes = copy_list(alloc, sizes.as_slice())?;
    Ok(OpKind::ExtractSlice {
        source,
        offsets,
        sizes,
    })
}

pub(crate) fn copy_insert(
    alloc: Global,
    source: ValueId,
    dest: ValueId,
    offsets: &List<Idx>,
    sizes: &List<Idx>,
) -> Result<OpKind, Memory>
    ensures { IfOk result (λ k. k ≡ InsertSlice source dest offsets.now sizes.now) }
{
    let offsets = copy_list(alloc, offsets.as_slice())?;
    let sizes = copy_list(alloc, sizes.as_slice())?;
    Ok(OpKind::InsertSlice {
        source,
        dest,
        offsets,
        sizes,
    })
}

pub(crate) fn copy_parallel_insert(
    alloc: Global,
    source: ValueId,
    dest: ValueId,
    offsets: &List<Idx>,
    sizes: &List<Idx>,
) -> Result<OpKind, Memory>
    ensures { IfOk result (λ k. k ≡ ParallelInsert source dest offsets.now sizes.now) }
{
    let offsets = copy_list(alloc, offsets.as_slice())?;
    let sizes = copy_list(alloc, sizes.as_slice())?;
    Ok(OpKind::ParallelInsert {
        source,
        dest,
        offsets,
        sizes,
    })
}

pub(crate) fn copy_pad(
    alloc: Global,
    source: ValueId,
    high: &List<Idx>,
    value: ValueId,
) -> Result<OpKind, Memory>
    ensures { IfOk result (λ k. k ≡ Pad source high.now value) }
{
    let high = copy_list(alloc, high.as_slice())?;
    Ok(OpKind::Pad {
        source,
        high,
        value,
    })
}

pub(crate) fn copy_read(
    alloc: Global,
    source: ValueId,
    offsets: &List<ValueId>,
    pad: ValueId,
    mask: Option<ValueId>,
    map: &AffineMap,
) -> Result<OpKind, Memory>
    ensures { IfOk result (λ k. k ≡ TransferRead source offsets.now pad mask map.now) }
{
    let offsets = copy_list(alloc, offsets.as_slice())?;
    let map = copy_map(alloc, map)?;
    Ok(OpKind::TransferRead {
        source,
        offsets,
        pad,
        mask,
        map,
    })
}

pub(crate) fn copy_write(
    alloc: Global,
    value: ValueId,
    dest: ValueId,
    offsets: &List<ValueId>,
    mask: Option<ValueId>,
    map: &AffineMap,
) -> Result<OpKind, Memory>
    ensures { IfOk result (λ k. k ≡ TransferWrite value dest offsets.now mask map.now) }
{
    let offsets = copy_list(alloc, offsets.as_slice())?;
    let map = copy_map(alloc, map)?;
    Ok(OpKind::TransferWrite {
        value,
        dest,
        offsets,
        mask,
        map,
    })
}
