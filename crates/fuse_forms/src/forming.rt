//! The fused generic.

ghost use Rattle.std.specs.Prelude.{◌≡◌, length, IfOk};
ghost use Rattle.mlir_meaning.specs.Grids.{Each};
ghost use Rattle.named_forms.specs.Fit.{IsFit};
ghost use Rattle.pair_laws.specs.Pairs.{fused_op};
ghost use Rattle.tile_bridge.specs.Instances.{input_maps};
ghost use Rattle.fuse_forms.specs.Forms.{fused_by, fused_maps, formed_of, structured, FormedFits, GenericFits};

use crate::capturing::{once, values_at};
use crate::generic::{Fused, Generic};
use crate::mapping::{fused_maps, pulled};
use crate::payloads::fused_payload;
use affine_maps::AffineMap;
use mlir_base::{List, Memory};
use mlir_copy::copy_list;
use mlir_ir::ValueId;
use payload_forms::spliced;
use payload_ops::Payload;
use std::alloc::Global;

/// The captured values and the payload of the fused generic.
#[derive(Drop)]
pub(crate) struct Formed {
    captured: List<ValueId>,
    payload: Payload,
}

fn form_inside(
    alloc: Global,
    p: &Generic,
    c: &Generic,
    k: u32,
    inner: &AffineMap,
) -> Result<Option<Formed>, Memory>
    ensures { IfOk result (λ r. IsFit FormedFits r (formed_of (structured p.now) (structured c.now) k inner.now.results)) }
{
    let all = once(alloc, p.captured, c.captured)?;
    match fused_payload(alloc, p, c, k, inner.results().as_slice(), &all) {
        Ok(Some(placed)) => {
            let captured = values_at(alloc, all.as_slice(), placed.used.as_slice())?;
            Ok(Some(Formed {
                captured,
                payload: placed.payload,
            }))
        }
        Ok(None) => Ok(None),
        Err(e) => Err(e),
    }
}

/// The fused generic with these maps.
fn with_maps(
    alloc: Global,
    p: &Generic,
    c: &Generic,
    k: u32,
    inner: &AffineMap,
    maps: List<AffineMap>,
) -> Result<Option<Fused>, Memory>
    requires { maps ≡ fused_maps (structured p.now) (structured c.now) k inner.now }
    ensures { IfOk result (λ r. IsFit GenericFits r (fused_by (structured p.now) (structured c.now) k inner.now)) }
{
    match form_inside(alloc, p, c, k, inner) {
        Ok(Some(inside)) => {
            let ins = spliced(alloc, k, p.ins, c.ins)?;
            let iterators = copy_list(alloc, c.iterators)?;
            Ok(Some(Fused {
                maps,
                iterators,
                ins,
                outs: c.outs,
                captured: inside.captured,
                payload: inside.payload,
            }))
        }
        Ok(None) => Ok(None),
        Err(e) => Err(e),
    }
}

/// The fused generic, where `inner` gives the producer's dimensions.
fn fused_by(
    alloc: Global,
    p: &Generic,
    c: &Generic,
    k: u32,
    inner: &AffineMap,
) -> Result<Option<Fused>, Memory>
    requires { Each (λ i. length inner.now.results ≡ i.dims) (input_maps (structured p.now)) }
    ensures { IfOk result (λ r. IsFit GenericFits r (fused_by (structured p.now) (structured c.now) k inner.now)) }
{
    match fused_maps(alloc, k, p.input_maps(), inner, c.maps) {
        Ok(Some(maps)) => with_maps(alloc, p, c, k, inner, maps),
        Ok(None) => Ok(None),
        Err(e) => Err(e),
    }
}

/// The generic of a producer and a consumer, whose operand `k` with the map `m` is the producer's result. `ds` are
/// the dimensions that the producer's output map takes. `None` where the parts don't fit together. Linear in what the two hold.
pub fn fused(
    alloc: Global,
    p: &Generic,
    c: &Generic,
    k: u32,
    m: &AffineMap,
    ds: &[u32],
) -> Result<Option<Fused>, Memory>
    requires { Each (λ i. length ds.now ≡ i.dims) (input_maps (structured p.now)) }
    ensures { IfOk result (λ r. IsFit GenericFits r (fused_op (structured p.now) (structured c.now) k m.now ds.now)) }
{
    let inner = pulled(alloc, ds, m)?;
    fused_by(alloc, p, c, k, &inner)
}
