//! Values by their names, and parameters.

ghost use Rattle.std.specs.Prelude.{◌≡◌, ◌<◌, OnOk};
ghost use Rattle.mlir_lex.specs.Chain.{Agree, Leaves};
ghost use Rattle.mlir_scope.specs.Scope.{fresh, same_operand, typed_as, value_id, type_of, operand_of, param_of, params_of, IsSound, IsOpening};

use crate::names::{Meaning, Names, Scope};
use crate::typing::{copy_type, elem_of, same_elem, same_type, type_at};
use mlir_base::{ElemTy, List, Which};
use mlir_ir::{Ty, ValueId};
use mlir_lex::{Fault, Refused};
use mlir_syntax::Param;
use std::alloc::Global;
use text_format::Token;

/// No name of this text is in scope.
///
/// # Errors
/// `Twice` at a token whose name is.
pub fn fresh(names: &Names, token: &Token) -> Result<(), Refused>
    ensures { Agree result (fresh names.now token.now) }
{
    match names.find(token.text()) {
        Some(_) => Err(Refused::At(Fault::Twice(token.start()))),
        None => Ok(()),
    }
}

/// Operand `number` of a generic operation: its value, and the type of its elements.
///
/// # Errors
/// `UnknownName` at a name that stands for no value of the function, and `Limit` at an operand behind 64 others.
pub fn operand(names: &Names, number: usize, token: &Token) -> Result<(ValueId, ElemTy), Refused>
    ensures exact { Agree result (operand_of names.now number token.now) }
    ensures few { OnOk result (number < 64) }
{
    match names.find(token.text()) {
        Some(Meaning::Held(value, ty)) => {
            if number < 64 {
                Ok((ValueId(*value), elem_of(ty)))
            } else {
                Err(Refused::At(Fault::Limit(Which::Operands, token.start())))
            }
        }
        Some(Meaning::Constant(value, elem, _)) => {
            if number < 64 {
                Ok((ValueId(*value), *elem))
            } else {
                Err(Refused::At(Fault::Limit(Which::Operands, token.start())))
            }
        }
        Some(Meaning::Local(..)) => Err(Refused::At(Fault::UnknownName(token.start()))),
        None => Err(Refused::At(Fault::UnknownName(token.start()))),
    }
}

/// The number of a value of the function.
pub fn value_id(names: &Names, token: &Token) -> Result<ValueId, Refused>
    ensures { Agree result (value_id names.now token.now) }
{
    match names.find(token.text()) {
        Some(Meaning::Held(value, _)) => Ok(ValueId(*value)),
        Some(Meaning::Constant(value, _, _)) => Ok(ValueId(*value)),
        Some(Meaning::Local(..)) => Err(Refused::At(Fault::UnknownName(token.start()))),
        None => Err(Refused::At(Fault::UnknownName(token.start()))),
    }
}

/// The type of a value of the function.
///
/// # Errors
/// `UnknownName` at a name that stands for none. `Memory` may come at any name.
pub fn type_of(alloc: Global, names: &Names, token: &Token) -> Result<Ty, Refused>
    ensures { Agree result (type_of names.now token.now) }
{
    match names.find(token.text()) {
        Some(Meaning::Held(_, known)) => {
            let ty = copy_type(alloc, known)?;
            Ok(ty)
        }
        Some(Meaning::Constant(_, elem, _)) => Ok(Ty::Scalar(*elem)),
        Some(Meaning::Local(..)) => Err(Refused::At(Fault::UnknownName(token.start()))),
        None => Err(Refused::At(Fault::UnknownName(token.start()))),
    }
}

/// The type that is written is this one, of a scalar or of a tensor.
fn same_operand(alloc: Global, ty: &Ty, token: &Token) -> Result<(), Refused>
    ensures { Agree result (same_operand ty.now token.now) }
{
    match ty {
        Ty::Scalar(elem) => same_elem(elem, token),
        _ => same_type(alloc, ty, token),
    }
}

/// The type that is written for a value is the value's.
pub fn typed_as(alloc: Global, names: &Names, name: &Token, ty: &Token) -> Result<(), Refused>
    ensures { Agree result (typed_as names.now name.now ty.now) }
{
    match names.find(name.text()) {
        Some(Meaning::Held(_, known)) => same_operand(alloc, known, ty),
        Some(Meaning::Constant(_, elem, _)) => same_elem(elem, ty),
        Some(Meaning::Local(..)) => Err(Refused::At(Fault::UnknownName(name.start()))),
        None => Err(Refused::At(Fault::UnknownName(name.start()))),
    }
}

/// A parameter, which is defined.
fn read_param<'a>(
    alloc: Global,
    scope: &mut Scope<'a>,
    param: &Param<'a>,
) -> Result<(ValueId, Ty), Refused>
    requires sound { IsOpening scope.old }
    ensures value { Leaves scope.new result (param_of scope.old param.now) }
    ensures sound { OnOk result (IsOpening scope.new) }
{
    fresh(&scope.env, &param.name)?;
    if scope.env.len() >= 64 {
        return Err(Refused::At(Fault::Limit(Which::Parameters, param.name.start())));
    }
    let number = scope.values;
    let ty = type_at(alloc, &param.ty)?;
    let known = copy_type(alloc, &ty)?;
    scope
        .env
        .define(param.name.text(), Meaning::Held(number, known))?;
    scope.values = number + 1;
    Ok((ValueId(number), ty))
}

/// The parameters, in order.
pub fn read_params<'a>(
    alloc: Global,
    scope: &mut Scope<'a>,
    list: &[Param<'a>],
) -> Result<List<(ValueId, Ty)>, Refused>
    requires sound { IsOpening scope.old }
    ensures value { Leaves scope.new result (params_of scope.old list.now) }
    ensures sound { OnOk result (IsSound scope.new) }
{
    let mut found = List::new(alloc);
    for param in list {
        let value = read_param(alloc, scope, param)?;
        found.push(value)?;
    }
    Ok(found)
}
