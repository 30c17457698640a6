//! Maps, as they are used.

use mlir_base::List;
use text_format::Token;

/// A token of a written map, between its `<` and its `>`.
#[derive(Drop)]
pub struct MapPiece<'a> {
    pub token: Token<'a>,
}

/// `affine_map<tokens>`
#[derive(Drop)]
pub struct WrittenMap<'a> {
    pub keyword: Token<'a>,
    pub less: Token<'a>,
    pub tokens: List<MapPiece<'a>>,
    pub greater: Token<'a>,
}

/// `#name`, or a map that is written where it is used.
#[derive(Drop)]
pub enum MapUse<'a> {
    Alias(Token<'a>),
    Written(WrittenMap<'a>),
}
