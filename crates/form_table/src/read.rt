//! How the parts of an operation are read: one loop over the form.

ghost use Rattle.std.specs.Prelude.{◌≡◌, IfOk, List as Sequence, ◌∷◌};
ghost use Rattle.text_format.specs.Formats.{many_at};
ghost use Rattle.text_format.specs.declared.class.Class.TheVariants.{Exactly};
ghost use Rattle.text_format.specs.declared.lexeme.Lexeme.TheVariants.{Comma};
ghost use Rattle.form_table.specs.Entries.{map_piece, written_map, dense_piece, literal, entry, next, number_read, map_piece-exact, written_map-exact, dense_piece-exact};
ghost use Rattle.form_table.specs.declared.want.Element.TheVariants.{Leaf};
ghost use Rattle.form_table.specs.Parts.{one, listed, formats, row};
ghost use Rattle.form_table.specs.Reading.{part_at, behind};

use crate::part::{DensePiece, Entry, MapPiece, Next, Part, Row, WrittenMap};
use crate::want::{Element, Opcode, Want, form};
use mlir_base::{List, Memory};
use std::alloc::Global;
use text_format::{Class, Lexeme, Node, Parser, Tree, many};

impl<'a> Tree for MapPiece<'a> {
    ghost format = { map_piece };

    ghost exact = { map_piece-exact };
}

impl<'a> Node<'a> for MapPiece<'a> {
    #[tactic(auto, unfolding(crate::specs::Entries::map_piece))]
    fn read(_alloc: Global, parser: &mut Parser<'a>) -> Result<MapPiece<'a>, Memory> {
        let token = parser.leaf(Class::MapToken);
        Ok(MapPiece { token })
    }
}

impl<'a> Tree for WrittenMap<'a> {
    ghost format = { written_map };

    ghost exact = { written_map-exact };
}

impl<'a> Node<'a> for WrittenMap<'a> {
    #[tactic(auto, unfolding(crate::specs::Entries::written_map, crate::specs::Entries::map_piece))]
    fn read(alloc: Global, parser: &mut Parser<'a>) -> Result<WrittenMap<'a>, Memory> {
        let keyword = parser.leaf(Class::Exactly(Lexeme::AffineMap));
        let less = parser.leaf(Class::Exactly(Lexeme::Less));
        let tokens = many::<MapPiece>(alloc, parser, Class::MapToken)?;
        let greater = parser.leaf(Class::Exactly(Lexeme::Greater));
        Ok(WrittenMap {
            keyword,
            less,
            tokens,
            greater,
        })
    }
}

impl<'a> Tree for DensePiece<'a> {
    ghost format = { dense_piece };

    ghost exact = { dense_piece-exact };
}

impl<'a> Node<'a> for DensePiece<'a> {
    #[tactic(auto, unfolding(crate::specs::Entries::dense_piece))]
    fn read(_alloc: Global, parser: &mut Parser<'a>) -> Result<DensePiece<'a>, Memory> {
        let token = parser.leaf(Class::DenseToken);
        Ok(DensePiece { token })
    }
}

/// A number, which may have a minus.
#[tactic(auto, unfolding(crate::specs::Entries::literal, text_format::specs::Formats::optional_at))]
fn read_number<'a>(parser: &mut Parser<'a>) -> Entry<'a>
    ensures { (result, parser.new) ≡ number_read (literal.read parser.old) }
{
    if parser.sees(Class::Exactly(Lexeme::Minus)) {
        let minus = parser.leaf(Class::Exactly(Lexeme::Minus));
        let digits = parser.leaf(Class::Number);
        Entry::Number(Some(minus), digits)
    } else {
        let digits = parser.leaf(Class::Number);
        Entry::Number(None, digits)
    }
}

#[tactic(auto, unfolding(crate::specs::Entries::entry))]
fn read_entry<'a>(
    alloc: Global,
    parser: &mut Parser<'a>,
    element: Element,
) -> Result<Entry<'a>, Memory>
    ensures { IfOk result (λ x. (x, parser.new) ≡ (entry element).read parser.old) }
{
    match element {
        Element::Leaf(class) => Ok(Entry::Token(parser.leaf(class))),
        Element::Literal => Ok(read_number(parser)),
        Element::Index => {
            if parser.sees(Class::Value) {
                Ok(Entry::Token(parser.leaf(Class::Value)))
            } else {
                Ok(read_number(parser))
            }
        }
        Element::Map => {
            if parser.sees(Class::Alias) {
                Ok(Entry::Token(parser.leaf(Class::Alias)))
            } else {
                let map = WrittenMap::read(alloc, parser)?;
                Ok(Entry::Map(map))
            }
        }
    }
}

/// `, entry`
#[tactic(auto, unfolding(crate::specs::Entries::next))]
fn read_next<'a>(
    alloc: Global,
    parser: &mut Parser<'a>,
    element: Element,
) -> Result<Next<'a>, Memory>
    ensures { IfOk result (λ x. (x, parser.new) ≡ (next element).read parser.old) }
{
    let comma = parser.leaf(Class::Exactly(Lexeme::Comma));
    let entry = read_entry(alloc, parser, element)?;
    Ok(Next { comma, entry })
}

/// Entries, each behind a comma, as long as one comes next.
fn read_more<'a>(
    alloc: Global,
    parser: &mut Parser<'a>,
    element: Element,
) -> Result<List<Next<'a>>, Memory>
    ensures { IfOk result (λ xs. (xs, parser.new) ≡ many_at (Exactly Comma) (next element) parser.old) }
{
    let mut entries = List::new(alloc);
    while parser.sees(Class::Exactly(Lexeme::Comma)) {
        let entry = read_next(alloc, parser, element)?;
        entries.push(entry)?;
    }
    Ok(entries)
}

/// Entries between commas, maybe none, and the closing token.
#[tactic(auto, unfolding(crate::specs::Parts::listed))]
fn read_listed<'a>(
    alloc: Global,
    parser: &mut Parser<'a>,
    element: Element,
    close: Lexeme,
) -> Result<Part<'a>, Memory>
    ensures { IfOk result (λ x. (x, parser.new) ≡ (listed element close).read parser.old) }
{
    if parser.sees(Class::Exactly(close)) {
        let token = parser.leaf(Class::Exactly(close));
        return Ok(Part::Listed(None, List::new(alloc), token));
    }
    let first = read_entry(alloc, parser, element)?;
    let more = read_more(alloc, parser, element)?;
    let token = parser.leaf(Class::Exactly(close));
    Ok(Part::Listed(Some(first), more, token))
}

/// A token whose place is kept.
#[tactic(auto, unfolding(crate::specs::Entries::entry))]
fn read_kept<'a>(parser: &mut Parser<'a>, lexeme: Lexeme) -> Part<'a>
    ensures { (result, parser.new) ≡ (one (Leaf (Exactly lexeme))).read parser.old }
{
    Part::One(Entry::Token(parser.leaf(Class::Exactly(lexeme))))
}

/// What is read for a want, and how many wants are left out behind it.
#[tactic(auto, unfolding(crate::specs::Reading::part_at, crate::specs::Entries::dense_piece))]
fn read_part<'a>(
    alloc: Global,
    parser: &mut Parser<'a>,
    want: &Want,
) -> Result<(Option<Part<'a>>, usize), Memory>
    ensures { IfOk result (λ x. (x, parser.new) ≡ part_at want.now parser.old) }
{
    match *want {
        Want::Fixed(lexeme) => {
            parser.fixed(lexeme);
            Ok((None, 0))
        }
        Want::Space => Ok((None, 0)),
        Want::Kept(lexeme) => Ok((Some(read_kept(parser, lexeme)), 0)),
        Want::One(element, _) => {
            let entry = read_entry(alloc, parser, element)?;
            Ok((Some(Part::One(entry)), 0))
        }
        Want::Listed(element, close, _) => {
            let part = read_listed(alloc, parser, element, close)?;
            Ok((Some(part), 0))
        }
        Want::More(element, _) => {
            let entries = read_more(alloc, parser, element)?;
            Ok((Some(Part::More(entries)), 0))
        }
        Want::Dense => {
            let pieces = many::<DensePiece>(alloc, parser, Class::DenseToken)?;
            Ok((Some(Part::Dense(pieces)), 0))
        }
        Want::Maybe(lexeme, left_out) => {
            if parser.sees(Class::Exactly(lexeme)) {
                Ok((Some(Part::There(true)), 0))
            } else {
                Ok((Some(Part::There(false)), left_out))
            }
        }
        Want::Jump(left_out) => Ok((None, left_out)),
    }
}

/// Reads what stands for a want, unless it is left out, and answers how many are left out behind it.
#[tactic(auto, using(crate::proofs::Loops::on_left_out))]
fn take_want<'a>(
    alloc: Global,
    parser: &mut Parser<'a>,
    parts: &mut List<Part<'a>>,
    want: &Want,
    left_out: usize,
) -> Result<usize, Memory>
    ensures { IfOk result (λ k. (ws : Sequence Want) → behind parts.new ((formats ws k).read parser.new) ≡ behind parts.old ((formats (want.now ∷ ws) left_out).read parser.old)) }
{
    if left_out > 0 {
        return Ok(left_out - 1);
    }
    let (part, skipped) = read_part(alloc, parser, want)?;
    match part {
        Some(part) => {
            parts.push(part)?;
            Ok(skipped)
        }
        None => Ok(skipped),
    }
}

/// The parts for these wants.
pub fn read_parts<'a>(
    alloc: Global,
    parser: &mut Parser<'a>,
    wants: &[Want],
) -> Result<List<Part<'a>>, Memory>
    ensures { IfOk result (λ ps. (ps, parser.new) ≡ (formats wants.now 0).read parser.old) }
{
    let mut parts = List::new(alloc);
    let mut left_out = 0usize;
    for want in wants {
        left_out = take_want(alloc, parser, &mut parts, want, left_out)?;
    }
    Ok(parts)
}

/// An operation, whose name is a token of the class, up to its region where it has one.
#[tactic(auto, unfolding(crate::specs::Parts::row))]
pub fn read_row<'a>(
    alloc: Global,
    parser: &mut Parser<'a>,
    class: Class,
    name: Opcode,
) -> Result<Row<'a>, Memory>
    ensures { IfOk result (λ x. (x, parser.new) ≡ (row class name).read parser.old) }
{
    let token = parser.leaf(class);
    let parts = read_parts(alloc, parser, form(name))?;
    Ok(Row { name: token, parts })
}
