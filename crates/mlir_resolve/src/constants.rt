//! Constants.

ghost use Rattle.std.specs.Prelude.{◌≡◌, IfOk, [], ◌∷◌};
ghost use Rattle.mlir_ir.specs.declared.tree.Ty.TheVariants.{Scalar};
ghost use Rattle.mlir_lex.specs.Chain.{Agree};
ghost use Rattle.mlir_resolve.specs.Constants.{constant, of_integer, scalar_of, elements_width, cells_in, dense_of, constant_of, result_meaning};

use crate::dense::{Mark, check_nested, read_cells, read_elements, shape_marks};
use mlir_base::{ElemTy, List, Memory, Width};
use mlir_ir::{OpKind, Ty};
use mlir_lex::{Fault, Refused};
use mlir_scope::{Meaning, copy_type, read_literal, type_at};
use mlir_syntax::{DenseLiteral, Literal, ScalarLiteral};
use std::alloc::Global;
use text_format::{Token, ranked_of, width_of};

/// A constant of an integer type.
fn of_integer(literal: &ScalarLiteral) -> Result<(), Refused>
    ensures { Agree result (of_integer literal.now) }
{
    match literal {
        ScalarLiteral::Boolean(_) => Ok(()),
        ScalarLiteral::Number(number) => {
            if width_of(number.ty.text()).is_some() {
                Ok(())
            } else {
                Err(Refused::At(Fault::Syntax(number.ty.start())))
            }
        }
    }
}

fn scalar(alloc: Global, elem: ElemTy, value: u64) -> Result<(Ty, OpKind), Memory>
    ensures { IfOk result (λ k. k ≡ constant (Scalar elem) (value ∷ [])) }
{
    let mut cells = List::new(alloc);
    cells.push(value)?;
    Ok((Ty::Scalar(elem), OpKind::Constant { value: cells }))
}

fn read_scalar(alloc: Global, literal: &ScalarLiteral) -> Result<(Ty, OpKind), Refused>
    ensures { Agree result (scalar_of literal.now) }
{
    of_integer(literal)?;
    let (elem, value) = read_literal(literal)?;
    let kind = scalar(alloc, elem, value)?;
    Ok(kind)
}

/// The width of the elements of a tensor's type.
fn elements_width(alloc: Global, token: &Token) -> Result<Width, Refused>
    ensures { Agree result (elements_width token.now) }
{
    match ranked_of(alloc, token.text())? {
        Some(shape) => Ok(shape.width),
        None => Err(Refused::At(Fault::Syntax(token.start()))),
    }
}

/// The elements of a tensor of this type.
fn cells_in(
    alloc: Global,
    at: u32,
    ty: &Ty,
    elements: List<u64>,
    marks: &[Mark],
) -> Result<List<u64>, Refused>
    ensures { Agree result (cells_in at ty.now elements marks.now) }
{
    match ty {
        Ty::Tensor { extents, .. } => read_cells(alloc, at, extents.as_slice(), elements, marks),
        _ => Err(Refused::At(Fault::Unsupported(at))),
    }
}

fn read_dense(alloc: Global, dense: &DenseLiteral) -> Result<(Ty, OpKind), Refused>
    ensures { Agree result (dense_of dense.now) }
{
    let pieces = dense.tokens.as_slice();
    check_nested(&dense.greater, pieces)?;
    let width = elements_width(alloc, &dense.ty)?;
    let elements = read_elements(alloc, width, dense.ty.start(), pieces)?;
    let ty = type_at(alloc, &dense.ty)?;
    let marks = shape_marks(alloc, pieces)?;
    let value = cells_in(alloc, dense.ty.start(), &ty, elements, marks.as_slice())?;
    Ok((ty, OpKind::Constant { value }))
}

/// A constant, with its type.
pub fn read_constant(alloc: Global, literal: &Literal) -> Result<(Ty, OpKind), Refused>
    ensures { Agree result (constant_of literal.now) }
{
    match literal {
        Literal::Dense(dense) => read_dense(alloc, dense),
        Literal::Scalar(scalar) => read_scalar(alloc, scalar),
    }
}

/// What the name of an operation's result stands for.
pub fn result_meaning(alloc: Global, number: u32, ty: &Ty, kind: &OpKind) -> Result<Meaning, Memory>
    ensures { IfOk result (λ m. m ≡ result_meaning number ty.now kind.now) }
{
    if let (Ty::Scalar(elem), OpKind::Constant { value }) = (ty, kind) {
        if let [cell] = value.as_slice() {
            return Ok(Meaning::Constant(number, *elem, *cell));
        }
    }
    let known = copy_type(alloc, ty)?;
    Ok(Meaning::Held(number, known))
}
