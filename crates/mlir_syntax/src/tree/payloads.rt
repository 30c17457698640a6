//! A payload's block.

use crate::tree::steps::StepOperation;
use mlir_base::List;
use text_format::Token;

/// `%name: ty`, the first argument of a block.
#[derive(Drop)]
pub struct BlockArg<'a> {
    pub name: Token<'a>,
    pub ty: Token<'a>,
}

/// `, %name: ty`, an argument of a block behind the first.
#[derive(Drop)]
pub struct NextArg<'a> {
    pub comma: Token<'a>,
    pub name: Token<'a>,
    pub ty: Token<'a>,
}

/// `%x: ty, %y: ty)`, the arguments of a payload's block, one for each operand.
#[derive(Drop)]
pub struct BlockArgs<'a> {
    pub first: BlockArg<'a>,
    pub more: List<NextArg<'a>>,
    pub close: Token<'a>,
}

/// `%result = operation`
#[derive(Drop)]
pub struct Step<'a> {
    pub result: Token<'a>,
    pub operation: StepOperation<'a>,
}

/// `^bb0(args): steps linalg.yield %yielded : ty`, with the yield's name.
#[derive(Drop)]
pub struct Region<'a> {
    pub args: BlockArgs<'a>,
    pub steps: List<Step<'a>>,
    pub yield_name: Token<'a>,
    pub yielded: Token<'a>,
    pub yield_type: Token<'a>,
}
