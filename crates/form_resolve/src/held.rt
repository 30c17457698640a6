//! Maps and iterators in lists.

ghost use Rattle.std.specs.Prelude.{◌≡◌, IfOk, map, length};
ghost use Rattle.mlir_lex.specs.Chain.{Agree, each};
ghost use Rattle.mlir_syntax.specs.declared.tree.maps.MapUse.TheVariants.{Written};
ghost use Rattle.mlir_scope.specs.Maps.{map_of};
ghost use Rattle.form_resolve.specs.Entries.{as_piece, as_written, map_entry, next_map, listed, behind, iterator_of, iterator_entry, iterators_from, iterators_of};

use crate::entries::{copy_token, list_of};
use affine_maps::AffineMap;
use form_table::{Entry, Next};
use mlir_base::{List, Memory, Which};
use mlir_ir::Iter;
use mlir_lex::{Fault, Refused};
use mlir_scope::{Aliases, read_map};
use mlir_syntax::{MapPiece, MapUse, WrittenMap};
use std::alloc::Global;
use text_format::Token;

fn copy_piece<'a>(piece: &form_table::MapPiece<'a>) -> MapPiece<'a>
    ensures { result ≡ as_piece piece.now }
{
    MapPiece {
        token: copy_token(&piece.token),
    }
}

fn copy_pieces<'a>(
    alloc: Global,
    pieces: &[form_table::MapPiece<'a>],
) -> Result<List<MapPiece<'a>>, Memory>
    ensures { IfOk result (λ l. l ≡ map as_piece pieces.now) }
{
    let mut copies = List::new(alloc);
    for piece in pieces {
        copies.push(copy_piece(piece))?;
    }
    Ok(copies)
}

/// A written map, as maps are read elsewhere in a text.
fn as_written<'a>(alloc: Global, map: &form_table::WrittenMap<'a>) -> Result<WrittenMap<'a>, Memory>
    ensures { IfOk result (λ m. m ≡ as_written map.now) }
{
    let tokens = copy_pieces(alloc, map.tokens.as_slice())?;
    Ok(WrittenMap {
        keyword: copy_token(&map.keyword),
        less: copy_token(&map.less),
        tokens,
        greater: copy_token(&map.greater),
    })
}

fn read_written(
    alloc: Global,
    aliases: &Aliases,
    map: &form_table::WrittenMap,
) -> Result<AffineMap, Refused>
    ensures { Agree result (map_of aliases.now (Written (as_written map.now))) }
{
    let written = as_written(alloc, map)?;
    read_map(alloc, aliases, &MapUse::Written(written))
}

fn read_map_entry(alloc: Global, aliases: &Aliases, entry: &Entry) -> Result<AffineMap, Refused>
    ensures { Agree result (map_entry aliases.now entry.now) }
{
    match entry {
        Entry::Token(token) => read_map(alloc, aliases, &MapUse::Alias(copy_token(token))),
        Entry::Map(map) => read_written(alloc, aliases, map),
        Entry::Number(..) => Err(Refused::At(Fault::Syntax(u32::MAX))),
    }
}

/// The maps behind these.
fn more_maps(
    alloc: Global,
    maps: List<AffineMap>,
    aliases: &Aliases,
    more: &[Next],
) -> Result<List<AffineMap>, Refused>
    ensures { Agree result (behind maps (each (next_map aliases.now) more.now)) }
{
    let mut found = maps;
    for next in more {
        let map = read_map_entry(alloc, aliases, &next.entry)?;
        found.push(map)?;
    }
    Ok(found)
}

/// The maps of a list, in order.
pub(crate) fn read_maps(
    alloc: Global,
    aliases: &Aliases,
    first: &Option<Entry>,
    more: &[Next],
) -> Result<List<AffineMap>, Refused>
    ensures { Agree result (listed (map_entry aliases.now) first.now more.now) }
{
    match first {
        None => more_maps(alloc, List::new(alloc), aliases, more),
        Some(entry) => {
            let map = read_map_entry(alloc, aliases, entry)?;
            let found = list_of(alloc, map)?;
            more_maps(alloc, found, aliases, more)
        }
    }
}

/// Iterator `number`.
fn read_iterator(number: usize, word: &Token) -> Result<Iter, Refused>
    ensures { Agree result (iterator_of number word.now) }
{
    if number >= 12 {
        return Err(Refused::At(Fault::Limit(Which::Loops, word.start())));
    }
    if word.text() == b"\"parallel\"".as_slice() {
        Ok(Iter::Parallel)
    } else {
        Ok(Iter::Reduction)
    }
}

fn read_iterator_entry(number: usize, entry: &Entry) -> Result<Iter, Refused>
    ensures { Agree result (iterator_entry number entry.now) }
{
    match entry {
        Entry::Token(token) => read_iterator(number, token),
        _ => Err(Refused::At(Fault::Syntax(u32::MAX))),
    }
}

/// The iterators behind these.
fn more_iterators(iterators: List<Iter>, more: &[Next]) -> Result<List<Iter>, Refused>
    ensures { Agree result (behind iterators (iterators_from (length iterators) more.now)) }
{
    let mut number = iterators.len();
    let mut found = iterators;
    for next in more {
        let iterator = read_iterator_entry(number, &next.entry)?;
        found.push(iterator)?;
        number += 1;
    }
    Ok(found)
}

/// The iterators of a list, in order.
pub(crate) fn read_iterators(
    alloc: Global,
    first: &Option<Entry>,
    more: &[Next],
) -> Result<List<Iter>, Refused>
    ensures { Agree result (iterators_of first.now more.now) }
{
    match first {
        None => more_iterators(List::new(alloc), more),
        Some(entry) => {
            let iterator = read_iterator_entry(0, entry)?;
            let found = list_of(alloc, iterator)?;
            more_iterators(found, more)
        }
    }
}
