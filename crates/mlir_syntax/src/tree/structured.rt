//! Structured operations that have a name of their own.

use super::generics::Output;
use super::literals::SignedNumber;
use mlir_base::List;
use text_format::Token;

/// `linalg.fill ins(%c : ty) outs(%o : ty) -> ty`
#[derive(Drop)]
pub struct Fill<'a> {
    pub name: Token<'a>,
    pub value: Token<'a>,
    pub value_type: Token<'a>,
    pub output: Output<'a>,
    pub result_type: Token<'a>,
}

/// `ins(%a, %b : ty, ty) outs(%o : ty) -> ty`
#[derive(Drop)]
pub struct Factors<'a> {
    pub left: Token<'a>,
    pub right: Token<'a>,
    pub left_type: Token<'a>,
    pub right_type: Token<'a>,
    pub output: Output<'a>,
    pub result_type: Token<'a>,
}

/// `linalg.matmul factors`
#[derive(Drop)]
pub struct Matmul<'a> {
    pub name: Token<'a>,
    pub factors: Factors<'a>,
}

/// `linalg.batch_matmul factors`
#[derive(Drop)]
pub struct BatchMatmul<'a> {
    pub name: Token<'a>,
    pub factors: Factors<'a>,
}

/// `ins(%a : ty) outs(%o : ty)`
#[derive(Drop)]
pub struct SourceAndOutput<'a> {
    pub source: Token<'a>,
    pub source_type: Token<'a>,
    pub output: Output<'a>,
}

/// `linalg.transpose operands permutation = [axes]`
#[derive(Drop)]
pub struct Transpose<'a> {
    pub name: Token<'a>,
    pub operands: SourceAndOutput<'a>,
    pub axes: List<SignedNumber<'a>>,
}

/// `linalg.broadcast operands dimensions = [axes]`
#[derive(Drop)]
pub struct Broadcast<'a> {
    pub name: Token<'a>,
    pub operands: SourceAndOutput<'a>,
    pub axes: List<SignedNumber<'a>>,
}
