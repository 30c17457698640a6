//! The lines of a script, and a whole one.

use super::results::BehindFirst;
use super::steps::VectorizeStep;
use mlir_base::List;
use text_format::Token;

/// `%first = step`, or a step with several results.
#[derive(Drop)]
pub struct NamedStep<'a> {
    pub first: Token<'a>,
    pub rest: BehindFirst<'a>,
}

/// A step of a script.
#[derive(Drop)]
pub enum Line<'a> {
    Named(NamedStep<'a>),
    Vectorize(VectorizeStep<'a>),
}

/// `transform.named_sequence @__transform_main(%root: !transform.any_op {transform.readonly}) { lines transform.yield }`
#[derive(Drop)]
pub struct Sequence<'a> {
    pub keyword: Token<'a>,
    pub root: Token<'a>,
    pub lines: List<Line<'a>>,
    /// `transform.yield`
    pub end: Token<'a>,
}
