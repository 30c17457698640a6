//! Which generics are producers.

ghost use Rattle.std.specs.Prelude.{◌≡◌, ◌++◌, map, IfOk, option_copied};
ghost use Rattle.std.specs.List.{list_all, filter_map};
ghost use Rattle.affine_maps.specs.Permutation.{dimensions_of, dimension_of};
ghost use Rattle.mlir_verify.specs.Maps.{output_dimensions, output_map};
ghost use Rattle.payload_forms.specs.Moved.{args_of};
ghost use Rattle.tile_bridge.specs.Instances.{is_parallel};
ghost use Rattle.pair_laws.specs.FuseAll.{avoids_out, is_not_out, produces};
ghost use Rattle.fuse_forms.specs.Forms.{structured};

use crate::orders::is_order;
use affine_maps::{AffineMap, Expr};
use fuse_forms::Generic;
use mlir_base::{List, Memory};
use mlir_ir::Iter;
use payload_ops::{Arg, Payload, PayloadStep, StepOp};
use std::alloc::Global;

fn is_parallel(iterator: &Iter) -> bool
    ensures { result ≡ is_parallel iterator.now }
{
    matches!(iterator, Iter::Parallel)
}

fn are_parallel(iterators: &[Iter]) -> bool
    ensures { result ≡ list_all is_parallel iterators.now }
{
    iterators.iter().all(|i| is_parallel(i))
}

fn is_not_out(arg: Arg) -> bool
    ensures { result ≡ is_not_out arg }
{
    match arg {
        Arg::Input(_) => true,
        Arg::Out => false,
        Arg::Step(_) => true,
    }
}

fn terms_avoid_out(terms: &[(Arg, i64)]) -> bool
    ensures { result ≡ list_all is_not_out (map (λ t. t.0) terms.now) }
{
    for term in terms {
        if !is_not_out(term.0) {
            return false;
        }
    }
    true
}

/// Whether an operation doesn't name the output's element.
fn avoids_out(op: &StepOp) -> bool
    ensures { result ≡ list_all is_not_out (args_of op.now) }
{
    match op {
        StepOp::Const(_) | StepOp::Index(_) | StepOp::Captured(_) => true,
        StepOp::Linear { terms, .. } => terms_avoid_out(terms.as_slice()),
        StepOp::Binary(_, a, b) => is_not_out(*a) && (is_not_out(*b) && true),
        StepOp::Compare(_, a, b) => is_not_out(*a) && (is_not_out(*b) && true),
        StepOp::Select(c, a, b) => {
            is_not_out(*c) && (is_not_out(*a) && (is_not_out(*b) && true))
        }
        StepOp::SignExtend(a) => is_not_out(*a) && true,
        StepOp::ZeroExtend(a) => is_not_out(*a) && true,
        StepOp::Truncate(a) => is_not_out(*a) && true,
        StepOp::IndexCast(a) => is_not_out(*a) && true,
    }
}

fn steps_avoid_out(steps: &[PayloadStep]) -> bool
    ensures { result ≡ list_all (λ s. list_all is_not_out (args_of s.op)) steps.now }
{
    for step in steps {
        if !avoids_out(&step.op) {
            return false;
        }
    }
    true
}

/// Whether neither a step nor the yield names the output's element.
fn payload_avoids_out(p: &Payload) -> bool
    ensures { result ≡ avoids_out p.now }
{
    steps_avoid_out(p.steps().as_slice()) && is_not_out(p.yielded())
}

/// The dimensions that these expressions are alone.
fn dimensions(alloc: Global, results: &[Expr]) -> Result<List<u32>, Memory>
    ensures { IfOk result (λ l. l ≡ dimensions_of results.now) }
{
    let mut all = List::new(alloc);
    for e in results {
        match e.dimension() {
            Some(d) => all.push(d)?,
            None => {}
        }
    }
    Ok(all)
}

/// The dimensions that the output's map takes.
fn output_dimensions(alloc: Global, maps: &[AffineMap]) -> Result<List<u32>, Memory>
    ensures { IfOk result (λ l. l ≡ output_dimensions (output_map maps.now)) }
{
    match maps.last() {
        Some(m) => dimensions(alloc, m.results().as_slice()),
        None => Ok(List::new(alloc)),
    }
}

/// The dimensions that the output's map of a producer takes; `None` where the generic is none: where it has a
/// reduction, or uses its output.
pub(crate) fn produces(alloc: Global, g: &Generic) -> Result<Option<List<u32>>, Memory>
    ensures { IfOk result (λ r. r ≡ produces (structured g.now)) }
{
    let ds = output_dimensions(alloc, g.maps)?;
    if are_parallel(g.iterators)
        && (payload_avoids_out(g.payload) && is_order(ds.as_slice(), g.iterators.len()))
    {
        Ok(Some(ds))
    } else {
        Ok(None)
    }
}
