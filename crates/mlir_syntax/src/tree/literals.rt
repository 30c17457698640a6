//! Literals of integers.

use text_format::Token;

/// `-`, before the digits of a number.
#[derive(Drop)]
pub struct Sign<'a> {
    pub minus: Token<'a>,
}

/// `-5`
#[derive(Drop)]
pub struct SignedNumber<'a> {
    pub sign: Option<Sign<'a>>,
    pub digits: Token<'a>,
}

/// `-5 : ty`
#[derive(Drop)]
pub struct TypedNumber<'a> {
    pub number: SignedNumber<'a>,
    pub ty: Token<'a>,
}

/// `true`, `false`, or a number with its type.
#[derive(Drop)]
pub enum ScalarLiteral<'a> {
    Boolean(Token<'a>),
    Number(TypedNumber<'a>),
}
