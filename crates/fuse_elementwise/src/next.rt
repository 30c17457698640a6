//! What is next in a function.

ghost use Rattle.std.specs.Prelude.{◌≡◌, true, false, slice_get, Some, option_map, IfOk};
ghost use Rattle.std.specs.List.{list_all};
ghost use Rattle.std.specs.Option.{option_and_then};
ghost use Rattle.affine_maps.specs.Map.{map_fits};
ghost use Rattle.payload_laws.specs.Known.{may_trap};
ghost use Rattle.verified_runs.specs.Passes.{FuncPasses};
ghost use Rattle.pair_laws.specs.FuseAll.{as_generic};
ghost use Rattle.fuse_forms.specs.Forms.{structured};
ghost use Rattle.fuse_elementwise.specs.Spots.{first_spot, IsCounted};
ghost use Rattle.fuse_elementwise.specs.Turns.{Forms, IsPair, NextIs};
ghost use Rattle.use_counts.specs.Counts.{count_in};

use crate::finding::map_at;
use crate::found::Found;
use crate::generics::as_generic;
use crate::resuming::change_at;
use crate::turn::Next;
use affine_maps::AffineMap;
use fuse_forms::{Fused, Generic, fused};
use mlir_base::Memory;
use mlir_ir::{Func, OpId, ValueId};
use payload_laws::can_trap;
use std::alloc::Global;
use use_counts::UseCounts;

/// The generic at a place of a body.
fn generic_at(f: &Func, place: usize) -> Option<Generic<'_>>
    ensures { option_map structured result ≡ option_and_then (λ o. as_generic o.kind) (slice_get f.now.body place) }
{
    match f.body.as_slice().get(place) {
        Some(op) => as_generic(&op.kind),
        None => None,
    }
}

fn id_at(f: &Func, place: usize) -> Option<OpId>
    ensures { result ≡ option_map (λ o. o.id) (slice_get f.now.body place) }
{
    match f.body.as_slice().get(place) {
        Some(op) => Some(op.id),
        None => None,
    }
}

fn value_at(values: &[ValueId], k: usize) -> Option<ValueId>
    ensures { result ≡ slice_get values.now k }
{
    values.get(k).copied()
}

/// That maps are maps, as their types keep.
fn keep_maps(maps: &[AffineMap])
    ensures { list_all map_fits maps.now ≡ true }
{
    for m in maps {
        m.results();
    }
}

/// The fused generic of the first pair; `None` where a map of it needs a number beyond plus and minus 2^31.
fn formed(
    alloc: Global,
    f: &Func,
    found: &Found,
    p: &Generic,
    c: &Generic,
) -> Result<Option<Fused>, Memory>
    requires passes { FuncPasses f.now }
    requires pair { IsPair f.now found.now (structured p.now) (structured c.now) }
    ensures { IfOk result (Forms f.now) }
{
    let Some(m) = map_at(c.input_maps(), found.operand as usize) else {
        unreachable!()
    };
    match fused(alloc, p, c, found.operand, m, found.dims.as_slice()) {
        Ok(Some(g)) => {
            keep_maps(g.maps.as_slice());
            Ok(Some(g))
        }
        Ok(None) => Ok(None),
        Err(e) => Err(e),
    }
}

/// The first pair's fusion, where its producer can't trap.
fn fusion(
    alloc: Global,
    counts: &UseCounts,
    f: &Func,
    found: Found,
    p: &Generic,
    c: &Generic,
) -> Result<Next, Memory>
    requires counted { IsCounted (count_in counts.now) f.now.body }
    requires passes { FuncPasses f.now }
    requires pair { IsPair f.now found (structured p.now) (structured c.now) }
    requires no_trap { may_trap (structured p.now).payload ≡ false }
    ensures { IfOk result (NextIs f.now) }
{
    match formed(alloc, f, &found, p, c) {
        Ok(Some(g)) => {
            let Some(gone) = value_at(c.ins, found.operand as usize) else {
                unreachable!()
            };
            let change = change_at(counts, f, &found, p, gone);
            Ok(Next::Becomes(found, g.into_kind(), change))
        }
        Ok(None) => Ok(Next::Large),
        Err(e) => Err(e),
    }
}

fn traps(f: &Func, found: &Found, p: &Generic) -> Next
    requires spot { Some found.now ≡ first_spot f.now }
    requires producer { option_and_then (λ o. as_generic o.kind) (slice_get f.now.body found.now.producer) ≡ Some (structured p.now) }
    requires trap { may_trap (structured p.now).payload ≡ true }
    ensures { NextIs f.now result }
{
    match id_at(f, found.producer) {
        Some(id) => Next::Traps(id),
        None => unreachable!(),
    }
}

/// What is next, where the first pair stands here.
pub(crate) fn next_at(
    alloc: Global,
    counts: &UseCounts,
    f: &Func,
    found: Found,
) -> Result<Next, Memory>
    requires counted { IsCounted (count_in counts.now) f.now.body }
    requires passes { FuncPasses f.now }
    requires spot { Some found ≡ first_spot f.now }
    ensures { IfOk result (NextIs f.now) }
{
    let Some(p) = generic_at(f, found.producer) else {
        unreachable!()
    };
    let Some(c) = generic_at(f, found.consumer) else {
        unreachable!()
    };
    if can_trap(p.payload) {
        Ok(traps(f, &found, &p))
    } else {
        fusion(alloc, counts, f, found, &p, &c)
    }
}
