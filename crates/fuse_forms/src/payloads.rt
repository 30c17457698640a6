//! The payload of the fused generic.

ghost use Rattle.std.specs.Prelude.{◌≡◌, IfOk};
ghost use Rattle.named_forms.specs.Fit.{IsFit};
ghost use Rattle.payload_forms.specs.Names.{joint};
ghost use Rattle.payload_forms.specs.Uses.{PlacedFits};
ghost use Rattle.pair_laws.specs.Pairs.{captured_of, numbers_of};
ghost use Rattle.fuse_forms.specs.Forms.{joint_by, placed_payload, structured};

use crate::capturing::places_in;
use crate::generic::Generic;
use affine_maps::Expr;
use mlir_base::Memory;
use payload_forms::{FirstUses, Joining, PlacedPayload, join, placed};
use payload_ops::Payload;
use std::alloc::Global;

/// The two payloads as one, with each captured value right before its first use.
fn placed_payload(
    alloc: Global,
    by: &Joining,
    p: &Payload,
    c: &Payload,
) -> Result<Option<PlacedPayload>, Memory>
    ensures { IfOk result (λ r. IsFit PlacedFits r (placed_payload (joint by.now) p.now c.now)) }
{
    let front = join(alloc, by, p, c)?;
    placed(alloc, front)
}

/// The payload of the fused generic, and which of the captured values of both it uses.
pub(crate) fn fused_payload(
    alloc: Global,
    p: &Generic,
    c: &Generic,
    k: u32,
    exprs: &[Expr],
    captured: &FirstUses,
) -> Result<Option<PlacedPayload>, Memory>
    requires { captured.now ≡ numbers_of (captured_of (structured p.now) (structured c.now)) }
    ensures { IfOk result (λ r. IsFit PlacedFits r (placed_payload (joint_by (structured p.now) (structured c.now) k exprs.now) p.now.payload.now c.now.payload.now)) }
{
    let of_producer = places_in(alloc, captured, p.captured)?;
    let of_consumer = places_in(alloc, captured, c.captured)?;
    let count = captured.len();
    if count > u32::MAX as usize {
        return Err(Memory);
    }
    let by = Joining {
        input: k,
        exprs,
        captured: count as u32,
        of_producer: of_producer.as_slice(),
        of_consumer: of_consumer.as_slice(),
    };
    placed_payload(alloc, &by, p.payload, c.payload)
}
