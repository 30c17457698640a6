//! Constants.

use super::literals::ScalarLiteral;
use mlir_base::List;
use text_format::Token;

/// A token of a dense literal.
#[derive(Drop)]
pub struct DensePiece<'a> {
    pub token: Token<'a>,
}

/// `dense<tokens> : ty`; which tokens make a literal of the type is told where the tree is resolved
#[derive(Drop)]
pub struct DenseLiteral<'a> {
    pub tokens: List<DensePiece<'a>>,
    pub greater: Token<'a>,
    pub ty: Token<'a>,
}

/// What a constant is.
#[derive(Drop)]
pub enum Literal<'a> {
    Dense(DenseLiteral<'a>),
    Scalar(ScalarLiteral<'a>),
}

/// `arith.constant literal`
#[derive(Drop)]
pub struct Constant<'a> {
    pub name: Token<'a>,
    pub literal: Literal<'a>,
}
