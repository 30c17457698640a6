//! The first pair of a function.

ghost use Rattle.std.specs.Prelude.{◌≡◌, ◌==◌, ◌&&◌, is_some, length, take, slice_get, Some, option_map, option_copied, IfOk};
ghost use Rattle.std.specs.Option.{option_and_then};
ghost use Rattle.mlir_edits.specs.Places.{scope_before};
ghost use Rattle.mlir_ir.specs.Count.{uses_op};
ghost use Rattle.mlir_verify.specs.Place.{type_among};
ghost use Rattle.verified_runs.specs.Passes.{FuncPasses};
ghost use Rattle.pair_laws.specs.FuseAll.{as_generic, defined_as, fits};
ghost use Rattle.pair_laws.specs.Pairs.{fused_op};
ghost use Rattle.fuse_forms.specs.Forms.{structured};
ghost use Rattle.fuse_elementwise.specs.Fitting.{AreFused};
ghost use Rattle.fuse_elementwise.specs.Spots.{defined_in, first_spot, spot_among, spot_at, spot_of, spotted, spotted_if, IsCounted, IsSearched, Meet};
ghost use Rattle.use_counts.specs.Counts.{count_in};

use crate::fitting::fits;
use crate::found::Found;
use crate::generics::as_generic;
use crate::producing::produces;
use affine_maps::AffineMap;
use fuse_forms::Generic;
use mlir_base::{List, Memory};
use mlir_ir::{Func, Op, Ty, ValueId};
use std::alloc::Global;
use use_counts::UseCounts;

/// An operation and its place.
#[derive(Clone, Copy)]
pub(crate) struct Defined<'a> {
    pub place: usize,
    pub op: &'a Op,
}

fn defines(results: &[(ValueId, Ty)], v: ValueId) -> bool
    ensures { result ≡ is_some (defined_as v results.now) }
{
    match results {
        [r] => r.0.0 == v.0,
        _ => false,
    }
}

/// The first operation that defines this value alone.
pub(crate) fn definer<'a>(ops: &'a [Op], v: ValueId) -> Option<Defined<'a>>
    ensures { option_map (λ d. (d.place, d.op.now)) result ≡ defined_in v ops.now }
{
    for (place, op) in ops.iter().enumerate() {
        if defines(op.results.as_slice(), v) {
            return Some(Defined { place, op });
        }
    }
    None
}

fn is_used_once(counts: &UseCounts, f: &Func, v: ValueId) -> bool
    requires { IsCounted (count_in counts.now) f.now.body }
    ensures { result ≡ (uses_op v f.now.body == 1) }
{
    counts.of(v) == 1
}

pub(crate) fn map_at(maps: &[AffineMap], k: usize) -> Option<&AffineMap>
    ensures { option_copied result ≡ slice_get maps.now k }
{
    maps.get(k)
}

/// The pair of a producer and a consumer, whose operand `k` with the map `m` is the value that the producer defines.
fn pair_with(
    alloc: Global,
    counts: &UseCounts,
    f: &Func,
    consumer: usize,
    c: &Generic,
    k: u32,
    v: ValueId,
    producer: usize,
    p: &Generic,
    m: &AffineMap,
    dims: List<u32>,
) -> Result<Option<Found>, Memory>
    requires counted { IsCounted (count_in counts.now) f.now.body }
    requires fused { AreFused (type_among (scope_before f.now consumer)) (structured p.now) (structured c.now) k m.now dims }
    ensures { IfOk result (λ r. r ≡ spotted_if ((uses_op v f.now.body == 1) && fits (type_among (scope_before f.now consumer)) (structured c.now) (fused_op (structured p.now) (structured c.now) k m.now dims)) (record { producer = producer; consumer = consumer; operand = k; dims = dims })) }
{
    if !is_used_once(counts, f, v) {
        return Ok(None);
    }
    if fits(alloc, f, consumer, p, c, k, m, dims.as_slice())? {
        Ok(Some(Found {
            producer,
            consumer,
            operand: k,
            dims,
        }))
    } else {
        Ok(None)
    }
}

/// The pair of the generic at a place and a consumer, whose operand `k` is the value that it defines.
fn pair_of_places(
    alloc: Global,
    counts: &UseCounts,
    f: &Func,
    consumer: usize,
    c: &Generic,
    k: u32,
    v: ValueId,
    producer: usize,
    p: &Generic,
) -> Result<Option<Found>, Memory>
    requires counted { IsCounted (count_in counts.now) f.now.body }
    requires meet { Meet (type_among (scope_before f.now consumer)) (structured p.now) (structured c.now) k }
    ensures { IfOk result (λ r. r ≡ spotted (type_among (scope_before f.now consumer)) f.now.body (structured c.now) k v producer consumer (structured p.now)) }
{
    let Some(dims) = produces(alloc, p)? else {
        return Ok(None);
    };
    match map_at(c.input_maps(), k as usize) {
        Some(m) => pair_with(alloc, counts, f, consumer, c, k, v, producer, p, m, dims),
        None => Ok(None),
    }
}

/// The pair of a consumer by its operand `k`.
fn pair_at(
    alloc: Global,
    counts: &UseCounts,
    f: &Func,
    consumer: usize,
    c: &Generic,
    k: u32,
    v: ValueId,
) -> Result<Option<Found>, Memory>
    requires counted { IsCounted (count_in counts.now) f.now.body }
    requires passes { FuncPasses f.now }
    requires there { option_and_then (λ o. as_generic o.kind) (slice_get f.now.body consumer) ≡ Some (structured c.now) }
    requires operand { slice_get c.now.ins.now k ≡ Some v }
    ensures { IfOk result (λ r. r ≡ spot_at (type_among (scope_before f.now consumer)) f.now.body (take consumer f.now.body) (structured c.now) k v) }
{
    let body = f.body.as_slice();
    let Some(defined) = definer(&body[..consumer], v) else {
        return Ok(None);
    };
    match as_generic(&defined.op.kind) {
        Some(p) => pair_of_places(alloc, counts, f, consumer, c, k, v, defined.place, &p),
        None => Ok(None),
    }
}

/// The first pair of a consumer.
fn pair_among(
    alloc: Global,
    counts: &UseCounts,
    f: &Func,
    consumer: usize,
    c: &Generic,
) -> Result<Option<Found>, Memory>
    requires counted { IsCounted (count_in counts.now) f.now.body }
    requires passes { FuncPasses f.now }
    requires there { option_and_then (λ o. as_generic o.kind) (slice_get f.now.body consumer) ≡ Some (structured c.now) }
    ensures { IfOk result (λ r. r ≡ spot_among (type_among (scope_before f.now consumer)) f.now.body (take consumer f.now.body) (structured c.now) 0 c.now.ins.now) }
{
    for (k, v) in c.ins.iter().enumerate() {
        // Memory ends long before the numbers of 32 bits do.
        if k > u32::MAX as usize {
            return Err(Memory);
        }
        match pair_at(alloc, counts, f, consumer, c, k as u32, *v) {
            Ok(Some(found)) => return Ok(Some(found)),
            Ok(None) => {}
            Err(e) => return Err(e),
        }
    }
    Ok(None)
}

/// The first pair of the operation at a place.
fn pair_of(
    alloc: Global,
    counts: &UseCounts,
    f: &Func,
    consumer: usize,
    op: &Op,
) -> Result<Option<Found>, Memory>
    requires counted { IsCounted (count_in counts.now) f.now.body }
    requires passes { FuncPasses f.now }
    requires there { slice_get f.now.body consumer ≡ Some op.now }
    ensures { IfOk result (λ r. r ≡ spot_of (type_among (scope_before f.now consumer)) f.now.body (take consumer f.now.body) (as_generic op.now.kind)) }
{
    match as_generic(&op.kind) {
        Some(c) => pair_among(alloc, counts, f, consumer, &c),
        None => Ok(None),
    }
}

/// The first pair of a function that passes the verifier, in tree order and then in operand order, where no operation
/// before a place is the consumer of one.
pub(crate) fn first_pair(
    alloc: Global,
    counts: &UseCounts,
    f: &Func,
    from: usize,
) -> Result<Option<Found>, Memory>
    requires counted { IsCounted (count_in counts.now) f.now.body }
    requires passes { FuncPasses f.now }
    requires searched { IsSearched f.now from }
    ensures { IfOk result (λ r. r ≡ first_spot f.now) }
{
    let body = f.body.as_slice();
    for consumer in from..body.len() {
        match pair_of(alloc, counts, f, consumer, &body[consumer]) {
            Ok(Some(found)) => return Ok(Some(found)),
            Ok(None) => {}
            Err(e) => return Err(e),
        }
    }
    Ok(None)
}
