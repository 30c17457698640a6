ghost use Rattle.std.specs.Prelude.{IfOk, List as Sequence, ℕ};
ghost use Rattle.mlir_ir.specs.declared.tree.OpKind.{OpKind as Kind};
ghost use Rattle.mlir_verify.specs.Place.{Types};
ghost use Rattle.verified_runs.specs.Forms.{structured_of, is_generic};
ghost use Rattle.structured_steps.specs.Interchange.{as_generic};
ghost use Rattle.rewrite_base.specs.Shapes.{Shapes};
ghost use Rattle.rewrite_base.specs.Turns.{Turns};
ghost use Rattle.step_passes.specs.Planned.{told_at};
ghost use Rattle.step_passes.specs.Steps.{generalizing, interchanging};
ghost use Rattle.step_passes.specs.Telling.{types_known, exchanging, Tells};

use crate::known::KnownTypes;
use mlir_base::Memory;
use mlir_ir::OpKind;
use rewrite_base::{
    Shape, StepRule, Turn, batch_matmul_shape, broadcast_shape, fill_shape, matmul_shape,
    transpose_shape, turned_by,
};
use std::alloc::Global;

/// A step that exchanges operations; `Interchange` has the order of dimensions.
#[derive(Clone, Copy)]
pub(crate) enum Step<'a> {
    Generalize,
    Interchange(&'a [u32]),
}

/// What a step makes of an operation: a rule is broken, it stays, the parts of what it becomes don't fit together, or it
/// becomes this one.
#[derive(Drop)]
pub(crate) enum Told {
    Breaks(StepRule),
    Stays,
    Unfit,
    Becomes(OpKind),
}

fn of_shape(shape: Shape) -> Told
    ensures { (t : Types) (kind : Kind) → Shapes (is_generic kind) (structured_of t kind) shape
        → Tells (told_at generalizing t kind) result }
{
    match shape {
        Shape::Stays => Told::Stays,
        Shape::Wrong => Told::Breaks(StepRule::WrongKind),
        Shape::Unfit => Told::Unfit,
        Shape::Becomes(kind) => Told::Becomes(kind),
    }
}

fn of_turn(turn: Turn) -> Told
    ensures { (order : Sequence ℕ) (t : Types) (kind : Kind) → Turns order (as_generic kind) turn
        → Tells (told_at (interchanging order) t kind) result }
{
    match turn {
        Turn::Breaks(rule) => Told::Breaks(rule),
        Turn::Unfit => Told::Unfit,
        Turn::Becomes(kind) => Told::Becomes(kind),
    }
}

/// What an operation is as a generic, by the types in scope.
#[tactic(auto, unfolding(verified_runs::specs::Forms::structured_of))]
fn shape_in(alloc: Global, known: &KnownTypes, kind: &OpKind) -> Result<Shape, Memory>
    ensures { IfOk result (Shapes (is_generic kind.now) (structured_of (types_known known.now) kind.now)) }
{
    match kind {
        OpKind::Generic { .. } => Ok(Shape::Stays),
        OpKind::Fill { value, outs } => fill_shape(alloc, known.type_of(*outs), *value, *outs),
        OpKind::Matmul { a, b, outs } => {
            let narrow = known.type_of(*a);
            let wide = known.type_of(*outs);
            matmul_shape(alloc, narrow, wide, *a, *b, *outs)
        }
        OpKind::BatchMatmul { a, b, outs } => {
            let narrow = known.type_of(*a);
            let wide = known.type_of(*outs);
            batch_matmul_shape(alloc, narrow, wide, *a, *b, *outs)
        }
        OpKind::Transpose {
            source,
            outs,
            order,
        } => transpose_shape(alloc, known.type_of(*outs), *source, *outs, order),
        OpKind::Broadcast { source, outs, dims } => {
            broadcast_shape(alloc, known.type_of(*outs), *source, *outs, dims)
        }
        _ => Ok(Shape::Wrong),
    }
}

/// What a step makes of an operation, by the types in scope.
pub(crate) fn told_of(
    alloc: Global,
    step: &Step,
    known: &KnownTypes,
    kind: &OpKind,
) -> Result<Told, Memory>
    ensures { IfOk result (Tells (told_at (exchanging step.now) (types_known known.now) kind.now)) }
{
    match step {
        Step::Generalize => match shape_in(alloc, known, kind) {
            Ok(shape) => Ok(of_shape(shape)),
            Err(e) => Err(e),
        },
        Step::Interchange(order) => match turned_by(alloc, order, kind) {
            Ok(turn) => Ok(of_turn(turn)),
            Err(e) => Err(e),
        },
    }
}
