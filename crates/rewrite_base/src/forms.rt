ghost use Rattle.std.specs.Prelude.{◌≡◌, ◌∷◌, [], Some, false, IfOk, option_copied};
ghost use Rattle.mlir_meaning.specs.Structured.{Form as FormShape, fill_form, matmul_form, batch_matmul_form, transpose_form, broadcast_form};
ghost use Rattle.mlir_verify.specs.Place.{type_among};
ghost use Rattle.mlir_verify.specs.Tensors.{rank_of};
ghost use Rattle.mlir_edits.specs.Places.{scope_before};
ghost use Rattle.named_forms.specs.Fit.{IsFit, FormFits};
ghost use Rattle.verified_runs.specs.Forms.{of_form, structured_of, width_in, is_generic};
ghost use Rattle.rewrite_base.specs.Shapes.{Shapes};

use crate::shape::Shape;
use mlir_base::{List, Memory, Width};
use mlir_edits::type_before;
use mlir_ir::{Func, OpKind, Ty, ValueId};
use named_forms::{
    Form, batch_matmul_form, broadcast_form, fill_form, matmul_form, transpose_form,
};
use std::alloc::Global;

fn one_bit() -> Width
    ensures { result ≡ 1 }
{
    match Width::new(1) {
        Some(width) => width,
        None => unreachable!(),
    }
}

/// The width of a tensor's elements.
fn width_in(ty: Option<&Ty>) -> Width
    ensures { result ≡ width_in (option_copied ty.entry) }
{
    match ty {
        Some(Ty::Tensor { elem, .. }) => *elem,
        _ => one_bit(),
    }
}

fn rank_of(ty: Option<&Ty>) -> u64
    ensures { result ≡ rank_of (option_copied ty.entry) }
{
    match ty {
        Some(Ty::Tensor { extents, .. }) => extents.len() as u64,
        _ => 0,
    }
}

fn one(alloc: Global, v: ValueId) -> Result<List<ValueId>, Memory>
    ensures { IfOk result (λ l. l ≡ v ∷ []) }
{
    let mut all = List::new(alloc);
    all.push(v)?;
    Ok(all)
}

fn two(alloc: Global, v: ValueId, w: ValueId) -> Result<List<ValueId>, Memory>
    ensures { IfOk result (λ l. l ≡ v ∷ w ∷ []) }
{
    let mut all = List::new(alloc);
    all.push(v)?;
    all.push(w)?;
    Ok(all)
}

/// The generic of a form with these operands.
fn shape_of(alloc: Global, form: Option<Form>, ins: List<ValueId>, outs: ValueId) -> Shape
    ensures { (f : FormShape) → IsFit FormFits form f → Shapes false (Some (of_form f ins outs)) result }
{
    match form {
        Some(
            Form {
                maps,
                iterators,
                payload,
            },
        ) => Shape::Becomes(OpKind::Generic {
            maps,
            iterators,
            ins,
            outs,
            captured: List::new(alloc),
            payload,
        }),
        None => Shape::Unfit,
    }
}

/// A fill as a generic, by the type of its output.
pub fn fill_shape(
    alloc: Global,
    ty: Option<&Ty>,
    value: ValueId,
    outs: ValueId,
) -> Result<Shape, Memory>
    ensures { IfOk result (Shapes false (Some (of_form (fill_form (width_in (option_copied ty.entry)) (rank_of (option_copied ty.entry))) (value ∷ []) outs))) }
{
    let ins = one(alloc, value)?;
    let form = fill_form(alloc, width_in(ty), rank_of(ty))?;
    Ok(shape_of(alloc, form, ins, outs))
}

/// A matmul as a generic, by the types of its first input and of its output.
pub fn matmul_shape(
    alloc: Global,
    narrow: Option<&Ty>,
    wide: Option<&Ty>,
    a: ValueId,
    b: ValueId,
    outs: ValueId,
) -> Result<Shape, Memory>
    ensures { IfOk result (Shapes false (Some (of_form (matmul_form (width_in (option_copied narrow.entry)) (width_in (option_copied wide.entry))) (a ∷ b ∷ []) outs))) }
{
    let ins = two(alloc, a, b)?;
    let form = matmul_form(alloc, width_in(narrow), width_in(wide))?;
    Ok(shape_of(alloc, form, ins, outs))
}

/// A batch_matmul as a generic, by the types of its first input and of its output.
pub fn batch_matmul_shape(
    alloc: Global,
    narrow: Option<&Ty>,
    wide: Option<&Ty>,
    a: ValueId,
    b: ValueId,
    outs: ValueId,
) -> Result<Shape, Memory>
    ensures { IfOk result (Shapes false (Some (of_form (batch_matmul_form (width_in (option_copied narrow.entry)) (width_in (option_copied wide.entry))) (a ∷ b ∷ []) outs))) }
{
    let ins = two(alloc, a, b)?;
    let form = batch_matmul_form(alloc, width_in(narrow), width_in(wide))?;
    Ok(shape_of(alloc, form, ins, outs))
}

/// A transpose as a generic, by the type of its output.
pub fn transpose_shape(
    alloc: Global,
    ty: Option<&Ty>,
    source: ValueId,
    outs: ValueId,
    order: &List<u32>,
) -> Result<Shape, Memory>
    ensures { IfOk result (Shapes false (Some (of_form (transpose_form (width_in (option_copied ty.entry)) order.now) (source ∷ []) outs))) }
{
    let ins = one(alloc, source)?;
    let form = transpose_form(alloc, width_in(ty), order.as_slice())?;
    Ok(shape_of(alloc, form, ins, outs))
}

/// A broadcast as a generic, by the type of its output.
pub fn broadcast_shape(
    alloc: Global,
    ty: Option<&Ty>,
    source: ValueId,
    outs: ValueId,
    dims: &List<u32>,
) -> Result<Shape, Memory>
    ensures { IfOk result (Shapes false (Some (of_form (broadcast_form (width_in (option_copied ty.entry)) (rank_of (option_copied ty.entry)) dims.now) (source ∷ []) outs))) }
{
    let ins = one(alloc, source)?;
    let form = broadcast_form(alloc, width_in(ty), rank_of(ty), dims.as_slice())?;
    Ok(shape_of(alloc, form, ins, outs))
}

/// What an operation at a position of a body is as a generic.
#[tactic(auto, unfolding(verified_runs::specs::Forms::structured_of))]
pub(crate) fn shape_at(
    alloc: Global,
    f: &Func,
    position: usize,
    kind: &OpKind,
) -> Result<Shape, Memory>
    ensures { IfOk result (Shapes (is_generic kind.now) (structured_of (type_among (scope_before f.now position)) kind.now)) }
{
    match kind {
        OpKind::Generic { .. } => Ok(Shape::Stays),
        OpKind::Fill { value, outs } => {
            fill_shape(alloc, type_before(f, position, *outs), *value, *outs)
        }
        OpKind::Matmul { a, b, outs } => {
            let narrow = type_before(f, position, *a);
            let wide = type_before(f, position, *outs);
            matmul_shape(alloc, narrow, wide, *a, *b, *outs)
        }
        OpKind::BatchMatmul { a, b, outs } => {
            let narrow = type_before(f, position, *a);
            let wide = type_before(f, position, *outs);
            batch_matmul_shape(alloc, narrow, wide, *a, *b, *outs)
        }
        OpKind::Transpose {
            source,
            outs,
            order,
        } => {
            let ty = type_before(f, position, *outs);
            transpose_shape(alloc, ty, *source, *outs, order)
        }
        OpKind::Broadcast { source, outs, dims } => {
            let ty = type_before(f, position, *outs);
            broadcast_shape(alloc, ty, *source, *outs, dims)
        }
        _ => Ok(Shape::Wrong),
    }
}
