//! Steps, without the types at their end.

use super::literals::{PadValue, QuotedName, Signed};
use mlir_base::List;
use text_format::Token;

/// `transform.split_handle %h`, or another step that names a handle alone.
#[derive(Drop)]
pub struct HandleStep<'a> {
    pub name: Token<'a>,
    pub target: Token<'a>,
}

/// `transform.structured.match ops{[names]} in %h`
#[derive(Drop)]
pub struct MatchStep<'a> {
    pub name: Token<'a>,
    pub names: List<QuotedName<'a>>,
    pub target: Token<'a>,
}

/// `transform.structured.pack %h packed_sizes = [sizes]`, or another step with one list.
#[derive(Drop)]
pub struct SizedStep<'a> {
    pub name: Token<'a>,
    pub target: Token<'a>,
    pub sizes: List<Signed<'a>>,
}

/// `transform.structured.tile_using_for %h tile_sizes [sizes]`, where the word may be left out.
#[derive(Drop)]
pub struct TileForStep<'a> {
    pub name: Token<'a>,
    pub target: Token<'a>,
    pub word: Option<Token<'a>>,
    pub sizes: List<Signed<'a>>,
}

/// `transform.structured.fuse_into_containing_op %p into %h`
#[derive(Drop)]
pub struct FuseStep<'a> {
    pub name: Token<'a>,
    pub producer: Token<'a>,
    pub containing: Token<'a>,
}

/// `pad_to_multiple_of = [list],`
#[derive(Drop)]
pub struct Multiples<'a> {
    pub list: List<Signed<'a>>,
}

/// `transform.structured.pad %h {padding_values = [values], padding_dimensions = [dimensions], multiples copy_back_op = "none"}`
#[derive(Drop)]
pub struct PadStep<'a> {
    pub name: Token<'a>,
    pub target: Token<'a>,
    pub values: List<PadValue<'a>>,
    pub dimensions: List<Signed<'a>>,
    pub multiples: Option<Multiples<'a>>,
}

/// `vector_sizes [list]`
#[derive(Drop)]
pub struct VectorSizes<'a> {
    pub list: List<Signed<'a>>,
}

/// `transform.structured.vectorize %h vector_sizes [sizes] : !transform.any_op`, where the sizes may be left out.
#[derive(Drop)]
pub struct VectorizeStep<'a> {
    pub name: Token<'a>,
    pub target: Token<'a>,
    pub sizes: Option<VectorSizes<'a>>,
}
