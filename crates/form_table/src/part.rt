//! The parts of an operation's text. A leaf is the token that was read.

use mlir_base::List;
use text_format::Token;

/// A token of a written map, between its `<` and its `>`.
#[derive(Drop)]
pub struct MapPiece<'a> {
    pub token: Token<'a>,
}

/// `affine_map<tokens>`
#[derive(Drop)]
pub struct WrittenMap<'a> {
    pub keyword: Token<'a>,
    pub less: Token<'a>,
    pub tokens: List<MapPiece<'a>>,
    pub greater: Token<'a>,
}

/// An entry of a list, or one that stands alone.
#[derive(Drop)]
pub enum Entry<'a> {
    Token(Token<'a>),
    /// The minus of a number, where it has one, and its digits.
    Number(Option<Token<'a>>, Token<'a>),
    Map(WrittenMap<'a>),
}

/// `, entry`
#[derive(Drop)]
pub struct Next<'a> {
    pub comma: Token<'a>,
    pub entry: Entry<'a>,
}

/// A token of a dense literal.
#[derive(Drop)]
pub struct DensePiece<'a> {
    pub token: Token<'a>,
}

/// What was read for a want that keeps something.
#[derive(Drop)]
pub enum Part<'a> {
    One(Entry<'a>),
    /// The first entry, those behind it, and the closing token.
    Listed(Option<Entry<'a>>, List<Next<'a>>, Token<'a>),
    /// Entries behind another.
    More(List<Next<'a>>),
    Dense(List<DensePiece<'a>>),
    /// Whether what may be left out is there.
    There(bool),
}

/// An operation: its name, and its parts in order.
#[derive(Drop)]
pub struct Row<'a> {
    pub name: Token<'a>,
    pub parts: List<Part<'a>>,
}
