//! The operations of a function.

use super::constants::Constant;
use super::generics::Generic;
use super::structured::{BatchMatmul, Broadcast, Fill, Matmul, Transpose};
use text_format::Token;

/// `tensor.empty() : ty`
#[derive(Drop)]
pub struct Empty<'a> {
    pub name: Token<'a>,
    pub ty: Token<'a>,
}

/// An operation with one result, behind `%r =`.
#[derive(Drop)]
pub enum Operation<'a> {
    Constant(Constant<'a>),
    Empty(Empty<'a>),
    Generic(Generic<'a>),
    Fill(Fill<'a>),
    Matmul(Matmul<'a>),
    BatchMatmul(BatchMatmul<'a>),
    Transpose(Transpose<'a>),
    Broadcast(Broadcast<'a>),
}

/// `%result = operation`
#[derive(Drop)]
pub struct Statement<'a> {
    pub result: Token<'a>,
    pub operation: Operation<'a>,
}
