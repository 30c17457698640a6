//! The fused generic in its function.

ghost use Rattle.std.specs.Prelude.{◌≡◌, ◌<◌, length, IfOk};
ghost use Rattle.fuse_elementwise.specs.Turns.{fused_body, with_kind};

use mlir_base::{List, Memory};
use mlir_ir::{Func, Op, OpKind};

fn of_kind(old: Op, kind: OpKind) -> Op
    ensures { result ≡ record { id = old.id; results = old.results; kind = kind } }
{
    let Op { id, results, .. } = old;
    Op { id, results, kind }
}

/// The operation at a place has another kind.
fn put_kind(body: List<Op>, place: usize, kind: OpKind) -> Result<List<Op>, Memory>
    requires { place < length body }
    ensures { IfOk result (λ b. b ≡ with_kind place kind body) }
{
    let mut ops = body.into_vec();
    let old = ops.remove(place);
    match ops.insert(place, of_kind(old, kind)) {
        Ok(()) => Ok(List::from_vec(ops)),
        Err(_) => Err(Memory),
    }
}

/// The consumer has another kind, and the producer is gone.
fn fused_body(
    body: List<Op>,
    producer: usize,
    consumer: usize,
    kind: OpKind,
) -> Result<List<Op>, Memory>
    requires producer { producer < consumer }
    requires consumer { consumer < length body }
    ensures { IfOk result (λ b. b ≡ fused_body producer consumer kind body) }
{
    let body = put_kind(body, consumer, kind)?;
    let mut ops = body.into_vec();
    ops.remove(producer);
    Ok(List::from_vec(ops))
}

/// The function with the fused generic in the consumer's place, without the producer.
pub(crate) fn put(f: Func, producer: usize, consumer: usize, kind: OpKind) -> Result<Func, Memory>
    requires producer { producer < consumer }
    requires consumer { consumer < length f.body }
    ensures { IfOk result (λ g. g ≡ record { name = f.name; params = f.params; results = f.results; body = fused_body producer consumer kind f.body }) }
{
    let Func {
        name,
        params,
        results,
        body,
    } = f;
    let body = fused_body(body, producer, consumer, kind)?;
    Ok(Func {
        name,
        params,
        results,
        body,
    })
}
