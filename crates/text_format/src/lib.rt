//! The text of a module: its tokens, and formats, which say how a tree is spelled and read.
//!
//! `tokens` gives the tokens of a text, or its first fault. A `Parser` then reads them. `Class` is a set of tokens that a
//! production leaves open, `Lexeme` a token that it fixes, and `Token` one with its text, which a tree keeps as a leaf.
//! A `Tree` has a format, a `Node` is read by a parser, and `list`, `list_with_close`, `many` and `optional` read several. `OpenTree`, `OpenNode`
//! and `many_open` are the same for a tree that may end in an item which need not be there. A parser never
//! fails: from the first token that doesn't fit on it reads no more and fills the tree up, and `Parser::end` says where
//! that was, and whether for want of support or of syntax. `ranked_of` and `element_of` give what a type's text says.
//!
//! The definitions stand in `specs/`: `Bytes`, `Tokens` and `Token` the tokens, `Pieces` written text, `Lexemes`, `Words`,
//! `Numerals` numbers of any size, `Types` and `Classes` what may stand where and why a token is refused, `Formats` how trees are spelled and read, `Laws`
//! what each format keeps, `Exact` and `Many` that the formats here do, `Open` formats that may end in an item which need not be
//! there, `Nested` lines with regions, and `Places` what that says of whole texts.
#![tactic(auto)]

mod class;
mod front;
mod lexeme;
mod node;
mod parser;
mod span;
mod token;
mod types;
mod words;

pub use class::{Class, Position, Reason};
pub use front::{Front, Kind, first_front};
pub use lexeme::Lexeme;
pub use node::{Node, OpenNode, OpenTree, Tree, list, list_with_close, many, many_open, optional};
pub use parser::{Parser, Stopped};
pub use span::{LexError, Span, tokens};
pub use token::Token;
pub use types::{
    Extent, RankedShape, element_of, has_other_element, is_ranked, ranked_of, width_of,
};
