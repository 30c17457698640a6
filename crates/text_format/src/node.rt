//! Trees that are read.

ghost use Rattle.std.specs.Prelude.{◌≡◌, IfOk, true};
ghost use Rattle.text_format.specs.Formats.{Format, optional_at, many_at, list_before, list_with_close};
ghost use Rattle.text_format.specs.Laws.{Reads, IsExact, begins};

use crate::class::Class;
use crate::lexeme::Lexeme;
use crate::parser::Parser;
use crate::token::Token;
use mlir_base::{List, Memory};
use std::alloc::Global;

/// A tree with a format, which says how it is spelled and read.
pub trait Tree: Drop {
    ghost format: { Format Self };

    ghost exact: { IsExact format };
}

/// A tree that a parser reads.
pub trait Node<'a>: Tree {
    /// The tree that stands next. Behind a stop it is filled up.
    fn read(alloc: Global, parser: &mut Parser<'a>) -> Result<Self, Memory>
        ensures { IfOk result (λ x. (x, parser.new) ≡ Self.format.read parser.old) };
}

/// A tree with a format that may end in an item which need not be there: what follows decides whether it is whole.
pub trait OpenTree: Drop {
    ghost format: { Format Self };

    ghost reads: { Reads format };
}

/// Such a tree that a parser reads.
pub trait OpenNode<'a>: OpenTree {
    /// The tree that stands next. Behind a stop it is filled up.
    fn read(alloc: Global, parser: &mut Parser<'a>) -> Result<Self, Memory>
        ensures { IfOk result (λ x. (x, parser.new) ≡ Self.format.read parser.old) };
}

/// An item where a token of the class comes next.
#[tactic(auto, unfolding(crate::specs::Formats::optional_at))]
pub fn optional<'a, N: Node<'a>>(
    alloc: Global,
    parser: &mut Parser<'a>,
    class: Class,
) -> Result<Option<N>, Memory>
    ensures { IfOk result (λ x. (x, parser.new) ≡ optional_at class N.format parser.old) }
{
    if parser.sees(class) {
        let item = N::read(alloc, parser)?;
        Ok(Some(item))
    } else {
        Ok(None)
    }
}

/// Items, each beginning with a token of the class, as long as one comes next.
pub fn many<'a, N: Node<'a>>(
    alloc: Global,
    parser: &mut Parser<'a>,
    class: Class,
) -> Result<List<N>, Memory>
    requires { (x : N) → begins class (N.format.spell x) ≡ true }
    ensures { IfOk result (λ xs. (xs, parser.new) ≡ many_at class N.format parser.old) }
{
    let mut items = List::new(alloc);
    while parser.sees(class) {
        let item = N::read(alloc, parser)?;
        items.push(item)?;
    }
    Ok(items)
}

/// The same for items that may each end in an item which need not be there.
pub fn many_open<'a, N: OpenNode<'a>>(
    alloc: Global,
    parser: &mut Parser<'a>,
    class: Class,
) -> Result<List<N>, Memory>
    requires { (x : N) → begins class (N.format.spell x) ≡ true }
    ensures { IfOk result (λ xs. (xs, parser.new) ≡ many_at class N.format parser.old) }
{
    let mut items = List::new(alloc);
    while parser.sees(class) {
        let item = N::read(alloc, parser)?;
        items.push(item)?;
    }
    Ok(items)
}

/// Items between commas, maybe none, and the closing token.
#[tactic(auto, unfolding(crate::specs::Formats::list_before))]
pub fn list<'a, N: Node<'a>>(
    alloc: Global,
    parser: &mut Parser<'a>,
    close: Lexeme,
) -> Result<List<N>, Memory>
    ensures { IfOk result (λ xs. (xs, parser.new) ≡ (list_before close N.format).read parser.old) }
{
    let mut items = List::new(alloc);
    if parser.sees(Class::Exactly(close)) {
        parser.fixed(close);
        return Ok(items);
    }
    let first = N::read(alloc, parser)?;
    items.push(first)?;
    while parser.sees(Class::Exactly(Lexeme::Comma)) {
        parser.fixed(Lexeme::Comma);
        let item = N::read(alloc, parser)?;
        items.push(item)?;
    }
    parser.fixed(close);
    Ok(items)
}

/// Items between commas, maybe none, with the closing token.
#[tactic(auto, unfolding(crate::specs::Formats::list_with_close))]
pub fn list_with_close<'a, N: Node<'a>>(
    alloc: Global,
    parser: &mut Parser<'a>,
    close: Lexeme,
) -> Result<(List<N>, Token<'a>), Memory>
    ensures { IfOk result (λ xs. (xs, parser.new) ≡ (list_with_close close N.format).read parser.old) }
{
    let mut items = List::new(alloc);
    if parser.sees(Class::Exactly(close)) {
        let token = parser.leaf(Class::Exactly(close));
        return Ok((items, token));
    }
    let first = N::read(alloc, parser)?;
    items.push(first)?;
    while parser.sees(Class::Exactly(Lexeme::Comma)) {
        parser.fixed(Lexeme::Comma);
        let item = N::read(alloc, parser)?;
        items.push(item)?;
    }
    let token = parser.leaf(Class::Exactly(close));
    Ok((items, token))
}
