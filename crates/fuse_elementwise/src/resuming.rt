//! Where the search goes on after a pair is fused.

ghost use Rattle.std.specs.Prelude.{◌≡◌, ◌<◌, ◌≤◌, ◌==◌, is_some, length, take};
ghost use Rattle.std.specs.Option.{option_and_then};
ghost use Rattle.mlir_ir.specs.Count.{uses_op};
ghost use Rattle.pair_laws.specs.FuseAll.{as_generic};
ghost use Rattle.fuse_forms.specs.Forms.{structured};
ghost use Rattle.fuse_elementwise.specs.Spots.{defined_in, resumed, IsCounted};
ghost use Rattle.use_counts.specs.Counts.{count_in};

use crate::finding::definer;
use crate::found::Found;
use crate::generics::as_generic;
use crate::turn::Change;
use fuse_forms::Generic;
use mlir_ir::{Func, ValueId};
use use_counts::UseCounts;

fn is_used_twice(counts: &UseCounts, f: &Func, v: ValueId) -> bool
    requires { IsCounted (count_in counts.now) f.now.body }
    ensures { result ≡ (uses_op v f.now.body == 2) }
{
    counts.of(v) == 2
}

/// Whether a generic before a place defines this value alone.
fn is_of_generic(f: &Func, place: usize, v: ValueId) -> bool
    requires { place ≤ length f.now.body }
    ensures { result ≡ is_some (option_and_then (λ d. as_generic d.1.kind) (defined_in v (take place f.now.body))) }
{
    let body = f.body.as_slice();
    match definer(&body[..place], v) {
        Some(defined) => as_generic(&defined.op.kind).is_some(),
        None => false,
    }
}

/// The place before which no operation is the consumer of a pair, after this pair with the producer `p` is fused.
fn resumed(counts: &UseCounts, f: &Func, found: &Found, p: &Generic) -> usize
    requires counted { IsCounted (count_in counts.now) f.now.body }
    requires behind { 0 < found.now.consumer }
    requires within { found.now.consumer ≤ length f.now.body }
    ensures { result ≡ resumed f.now found.now (structured p.now) }
{
    if is_used_twice(counts, f, p.outs) && is_of_generic(f, found.consumer, p.outs) {
        0
    } else {
        found.consumer - 1
    }
}

/// What changes with a pair: the place before which no operation is the consumer of another, and the two values that
/// lose a use.
pub(crate) fn change_at(
    counts: &UseCounts,
    f: &Func,
    found: &Found,
    p: &Generic,
    gone: ValueId,
) -> Change
    requires counted { IsCounted (count_in counts.now) f.now.body }
    requires behind { 0 < found.now.consumer }
    requires within { found.now.consumer ≤ length f.now.body }
    ensures { result ≡ record { from = resumed f.now found.now (structured p.now); outs = p.now.outs; gone = gone } }
{
    Change {
        from: resumed(counts, f, found, p),
        outs: p.outs,
        gone,
    }
}
