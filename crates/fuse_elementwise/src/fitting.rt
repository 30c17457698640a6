//! Whether a fused generic fits.

ghost use Rattle.std.specs.Prelude.{◌≡◌, ◌==◌, ◌≤◌, ◌&&◌, ◌++◌, true, drop, nat_le, length, IfOk, OnOk};
ghost use Rattle.std.specs.List.{list_all};
ghost use Rattle.mlir_edits.specs.Places.{scope_before};
ghost use Rattle.mlir_verify.specs.Place.{is_empty, type_among};
ghost use Rattle.pair_laws.specs.FuseAll.{fits};
ghost use Rattle.pair_laws.specs.Pairs.{fused_op};
ghost use Rattle.tile_bridge.specs.Instances.{input_maps};
ghost use Rattle.fuse_forms.specs.Forms.{structured};
ghost use Rattle.fuse_elementwise.specs.Fitting.{AreCounted, AreFused, fused_axes, has_few_steps, has_own_axes, own_axes};

use crate::axes::{axes_agree, cover_dimensions, push_composed_inputs, push_inputs, push_output};
use affine_maps::{AffineMap, Expr};
use fuse_forms::{Generic, pulled};
use mlir_base::Memory;
use mlir_ir::{Extent, Func};
use payload_forms::{Joining, join};
use std::alloc::Global;

/// The greatest number of operands of a generic, with its output.
const MOST_OPERANDS: usize = 64;

/// The greatest number of steps of a payload.
const MOST_STEPS: usize = 1_024;

/// Adds the axes of a generic at a position of a body.
fn push_own(
    axes: &mut Vec<(usize, Extent)>,
    f: &Func,
    position: usize,
    g: &Generic,
) -> Result<(), Memory>
    ensures { OnOk result (axes.new.items ≡ axes.old.items ++ own_axes (type_among (scope_before f.now position)) (structured g.now)) }
{
    push_inputs(axes, f, position, g.maps, g.ins)?;
    push_output(axes, f, position, g.maps.last(), g.outs)
}

/// The items from a place on.
fn behind<T>(items: &[T], place: usize) -> &[T]
    requires { place ≤ length items.now }
    ensures { result.now ≡ drop place items.now }
{
    let (_, rest) = items.split_at(place);
    rest
}

/// Adds the axes of the producer's inputs in the place of the consumer's input `k`, and of its other operands.
fn push_fused(
    alloc: Global,
    axes: &mut Vec<(usize, Extent)>,
    f: &Func,
    position: usize,
    p: &Generic,
    c: &Generic,
    k: usize,
    inner: &AffineMap,
) -> Result<(), Memory>
    requires counted { AreCounted (structured p.now) (structured c.now) k }
    requires dims { list_all (λ m. length inner.now.results == m.dims) (input_maps (structured p.now)) ≡ true }
    ensures { OnOk result (axes.new.items ≡ axes.old.items ++ fused_axes (type_among (scope_before f.now position)) (structured p.now) (structured c.now) k inner.now) }
{
    push_inputs(axes, f, position, &c.maps[..k], &c.ins[..k])?;
    push_composed_inputs(alloc, axes, f, position, p.input_maps(), inner, p.ins)?;
    push_inputs(
        axes,
        f,
        position,
        behind(c.maps, k + 1),
        behind(c.ins, k + 1),
    )?;
    push_output(axes, f, position, c.maps.last(), c.outs)?;
    Ok(())
}

/// Whether each dimension of the fused generic selects some axis alone, and each such axis has the extent that this
/// dimension has in the consumer.
pub(crate) fn axes_fit(
    alloc: Global,
    f: &Func,
    position: usize,
    p: &Generic,
    c: &Generic,
    k: usize,
    inner: &AffineMap,
) -> Result<bool, Memory>
    requires counted { AreCounted (structured p.now) (structured c.now) k }
    requires dims { list_all (λ m. length inner.now.results == m.dims) (input_maps (structured p.now)) ≡ true }
    ensures { IfOk result (λ b. b ≡ has_own_axes (type_among (scope_before f.now position)) (structured p.now) (structured c.now) k inner.now) }
{
    let mut all = Vec::new(alloc);
    push_own(&mut all, f, position, c)?;
    let count = all.len();
    push_fused(alloc, &mut all, f, position, p, c, k, inner)?;
    let axes = all.as_slice();
    Ok(cover_dimensions(c.iterators, &axes[count..]) && axes_agree(axes))
}

/// Whether the fused generic has at most 1,024 payload steps.
fn has_few_steps(
    alloc: Global,
    p: &Generic,
    c: &Generic,
    k: u32,
    exprs: &[Expr],
) -> Result<bool, Memory>
    requires p_none { is_empty p.now.captured.now ≡ true }
    requires c_none { is_empty c.now.captured.now ≡ true }
    ensures { IfOk result (λ b. b ≡ has_few_steps (structured p.now) (structured c.now) k exprs.now) }
{
    let by = Joining {
        input: k,
        exprs,
        captured: 0,
        of_producer: &[],
        of_consumer: &[],
    };
    let front = join(alloc, &by, p.payload, c.payload)?;
    Ok(front.rest.len() <= MOST_STEPS)
}

fn all_fit(axes: bool, operands: usize, steps: bool) -> bool
    ensures { result ≡ axes && (nat_le operands 64 && steps) }
{
    axes && (operands <= MOST_OPERANDS && steps)
}

/// Whether the fused generic keeps the rules on maps, and the limits on operands and payload steps. The producer's
/// result is the consumer's operand `k` with the map `m`, and `ds` are the dimensions that its output map takes.
pub(crate) fn fits(
    alloc: Global,
    f: &Func,
    position: usize,
    p: &Generic,
    c: &Generic,
    k: u32,
    m: &AffineMap,
    ds: &[u32],
) -> Result<bool, Memory>
    requires { AreFused (type_among (scope_before f.now position)) (structured p.now) (structured c.now) k m.now ds.now }
    ensures { IfOk result (λ b. b ≡ fits (type_among (scope_before f.now position)) (structured c.now) (fused_op (structured p.now) (structured c.now) k m.now ds.now)) }
{
    let inner = pulled(alloc, ds, m)?;
    let fit = axes_fit(alloc, f, position, p, c, k as usize, &inner)?;
    let few = has_few_steps(alloc, p, c, k, inner.results().as_slice())?;
    Ok(all_fit(fit, p.ins.len() + c.ins.len(), few))
}
