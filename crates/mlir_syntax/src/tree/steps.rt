//! The operations of a payload's steps.

use crate::tree::literals::ScalarLiteral;
use crate::tree::maps::MapUse;
use mlir_base::List;
use text_format::Token;

/// `arith.constant literal`
#[derive(Drop)]
pub struct ConstantStep<'a> {
    pub name: Token<'a>,
    pub literal: ScalarLiteral<'a>,
}

/// `arith.addi %left, %right : ty`, or another operation on two integers.
#[derive(Drop)]
pub struct BinaryStep<'a> {
    pub name: Token<'a>,
    pub left: Token<'a>,
    pub right: Token<'a>,
    pub ty: Token<'a>,
}

/// `arith.cmpi predicate, %left, %right : ty`
#[derive(Drop)]
pub struct CompareStep<'a> {
    pub name: Token<'a>,
    pub predicate: Token<'a>,
    pub left: Token<'a>,
    pub right: Token<'a>,
    pub ty: Token<'a>,
}

/// `arith.select %condition, %chosen, %other : ty`
#[derive(Drop)]
pub struct SelectStep<'a> {
    pub name: Token<'a>,
    pub condition: Token<'a>,
    pub chosen: Token<'a>,
    pub other: Token<'a>,
    pub ty: Token<'a>,
}

/// `%value : from to to`, behind the name of an operation that changes the type.
#[derive(Drop)]
pub struct Conversion<'a> {
    pub value: Token<'a>,
    pub from: Token<'a>,
    pub to: Token<'a>,
}

/// `arith.extsi conversion`, or another change of an integer's width.
#[derive(Drop)]
pub struct CastStep<'a> {
    pub name: Token<'a>,
    pub conversion: Conversion<'a>,
}

/// `arith.index_cast conversion`
#[derive(Drop)]
pub struct IndexCastStep<'a> {
    pub name: Token<'a>,
    pub conversion: Conversion<'a>,
}

/// `linalg.index dimension : index`
#[derive(Drop)]
pub struct IndexStep<'a> {
    pub name: Token<'a>,
    pub dimension: Token<'a>,
}

/// `%name`, an operand of `affine.apply`.
#[derive(Drop)]
pub struct ApplyOperand<'a> {
    pub name: Token<'a>,
}

/// `[%a, %b]`, the last operands of `affine.apply`, which may stand apart.
#[derive(Drop)]
pub struct ApplySymbols<'a> {
    pub operands: List<ApplyOperand<'a>>,
    pub close: Token<'a>,
}

/// `affine.apply map(%a, %b)[%c]`
#[derive(Drop)]
pub struct ApplyStep<'a> {
    pub name: Token<'a>,
    pub map: MapUse<'a>,
    pub operands: List<ApplyOperand<'a>>,
    pub symbols: Option<ApplySymbols<'a>>,
}

/// What stands behind `%result =` in a payload.
#[derive(Drop)]
pub enum StepOperation<'a> {
    Constant(ConstantStep<'a>),
    Binary(BinaryStep<'a>),
    Compare(CompareStep<'a>),
    Select(SelectStep<'a>),
    IndexCast(IndexCastStep<'a>),
    Index(IndexStep<'a>),
    Apply(ApplyStep<'a>),
    Cast(CastStep<'a>),
}
