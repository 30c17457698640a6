//! What the parts of an operation stand for.

use affine_maps::AffineMap;
use mlir_base::{ElemTy, List};
use mlir_ir::{Idx, Iter, Ty, ValueId};
use text_format::Token;

/// What a part stands for.
#[derive(Drop)]
pub enum Value {
    /// A value that is used, and the type of its elements.
    Id(ValueId, ElemTy),
    /// The values that are used behind another.
    MoreIds(List<(ValueId, ElemTy)>),
    Typed(Ty),
    Numbers(List<u32>),
    Indices(List<Idx>),
    Maps(List<AffineMap>),
    Iterators(List<Iter>),
    /// A number or a dense literal: the type behind it tells what it is.
    Literal,
    /// Whether what may be left out is there.
    There(bool),
}

/// What an operation's parts have told so far.
#[derive(Drop)]
pub(crate) struct Seen<'a> {
    /// The names of the values that are used.
    pub used: List<Token<'a>>,
    /// How many entries the last list has.
    pub count: usize,
    /// How many types the last list of types lacks.
    pub missing: usize,
}
