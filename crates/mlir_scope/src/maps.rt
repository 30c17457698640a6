//! The maps of a file: its aliases, and maps as they are written.

ghost use Rattle.std.specs.Prelude.{◌≡◌, ◌∷◌, ◌++◌, [], None, false, IfOk, OnOk, option_copied};
ghost use Rattle.mlir_lex.specs.Chain.{Agree};
ghost use Rattle.mlir_scope.specs.Maps.{tokens_of, map_or_fault, written_map, is_mark, symbols_behind, has_symbols, symbols_in, aliased, AreMaps, alias_in, alias_map, map_of, alias_map_with_symbols, map_with_symbols, use_start};
ghost use Rattle.text_format.specs.declared.front.Kind.TheVariants.{Mark};
ghost use Rattle.text_format.specs.Classes.{is_kind};
ghost use Rattle.affine_text.specs.Grammar.{MapTree, map_tokens};
ghost use Rattle.affine_text.specs.OfTokens.{map_of_tokens};

use crate::typing::copy_list;
use affine_maps::{AffineMap, Expr};
use affine_text::MapError;
use mlir_base::{List, Memory};
use mlir_lex::{Fault, Refused};
use mlir_syntax::{AliasLine, MapUse, WrittenMap};
use std::alloc::Global;
use std::collections::HashMap;
use std::marker::Model;
use text_format::{Kind, Token};

/// An alias of a map.
#[derive(Drop)]
pub struct Alias<'a> {
    pub name: &'a [u8],
    pub map: AffineMap,
    /// Whether the map has symbols, which are its last dimensions.
    pub symbols: bool,
}

impl<'a> Model for Alias<'a> {
    ghost use Rattle.affine_maps.specs.Map.{IsMap};
    ghost use Rattle.mlir_scope.specs.Maps.{AliasShape, alias_code};

    ghost Value = { AliasShape };

    ghost coded = { alias_code };

    ghost view = { λ a. record { name = a.name.now; map = a.map; symbols = a.symbols } };

    ghost invariant = { λ a. IsMap a.map };
}

/// The aliases of a file, in order.
#[derive(Drop)]
pub struct Aliases<'a> {
    entries: Vec<Alias<'a>>,
    index: HashMap<&'a [u8], usize>,
}

impl<'a> Model for Aliases<'a> {
    ghost use Rattle.std.specs.Prelude.{◌≡◌, ℕ, List};
    ghost use Rattle.std.specs.Str.{bytes_eq};
    ghost use Rattle.std.specs.HashMap.{get_by};
    ghost use Rattle.std.specs.Coded.{coded_list};
    ghost use Rattle.mlir_scope.specs.Names.{place};
    ghost use Rattle.mlir_scope.specs.Maps.{AliasShape, alias_code, names_of, AreMaps};

    ghost Value = { List AliasShape };

    ghost coded = { coded_list alias_code };

    ghost view = { λ s. s.entries.items };

    ghost invariant = { λ s. ((q : List ℕ) → get_by (λ k. bytes_eq q k.now) s.index ≡ place 0 (names_of s.entries.items) q) × AreMaps s.entries.items };
}

impl<'a> Aliases<'a> {
    pub fn new(alloc: Global) -> Aliases<'a>
        ensures { result ≡ [] }
    {
        Aliases {
            entries: Vec::new(alloc),
            index: HashMap::new(alloc),
        }
    }

    /// The alias of a name.
    pub fn find(&self, name: &[u8]) -> Option<&Alias<'a>>
        ensures { option_copied result ≡ aliased self.now name.now }
    {
        match self.index.get(&name) {
            Some(at) => Some(&self.entries[*at]),
            None => None,
        }
    }

    /// Each map keeps the rule on maps.
    pub fn are_maps(&self)
        ensures { AreMaps self.now }
    {
        let _entries = &self.entries;
    }

    /// Appends an alias of a new name.
    pub fn add(&mut self, alias: Alias<'a>) -> Result<(), Memory>
        requires { aliased self.old alias.name ≡ None }
        ensures { OnOk result (self.new ≡ self.old ++ alias.entry ∷ []) }
    {
        let at = self.entries.len();
        let name = alias.name;
        self.entries.push(alias)?;
        match self.index.insert(name, at) {
            Ok(_) => Ok(()),
            Err(_) => {
                self.entries.pop();
                Err(Memory)
            }
        }
    }
}

fn copy_token<'a>(token: &Token<'a>) -> Token<'a>
    ensures { result ≡ token.now }
{
    Token::new(token.kind(), token.start(), token.text())
}

/// The tokens of a written map, from `affine_map` to its `>`.
fn tokens_of<'a>(alloc: Global, written: &WrittenMap<'a>) -> Result<List<Token<'a>>, Memory>
    ensures { IfOk result (λ l. l ≡ tokens_of written.now) }
{
    let mut found = List::new(alloc);
    found.push(copy_token(&written.keyword))?;
    found.push(copy_token(&written.less))?;
    for piece in written.tokens.as_slice() {
        found.push(copy_token(&piece.token))?;
    }
    found.push(copy_token(&written.greater))?;
    Ok(found)
}

/// The map that the tokens spell.
fn read_tokens(alloc: Global, symbols: bool, tokens: &[Token]) -> Result<AffineMap, Refused>
    ensures { Agree result (map_or_fault (map_of_tokens symbols tokens.now)) }
{
    match affine_text::map_of(alloc, symbols, tokens) {
        Ok(map) => Ok(map),
        Err(MapError::BadText(at)) => Err(Refused::At(Fault::Syntax(at))),
        Err(MapError::Form(at)) => Err(Refused::At(Fault::Unsupported(at))),
        Err(MapError::Range(at)) => Err(Refused::At(Fault::Number(at, at))),
        Err(MapError::Memory) => Err(Refused::Memory),
    }
}

fn is_mark_kind(kind: Kind) -> bool
    ensures { result ≡ is_kind Mark kind }
{
    kind as u8 == Kind::Mark as u8
}

fn is_mark(text: &[u8], token: &Token) -> bool
    ensures { result ≡ is_mark text.now token.now }
{
    is_mark_kind(token.kind()) && token.text() == text
}

/// Whether a symbol stands behind an opening bracket.
fn opens_symbols(tokens: &[Token]) -> bool
    ensures { result ≡ has_symbols tokens.now }
{
    let mut open = false;
    for token in tokens {
        if open {
            return !is_mark(b"]", token);
        }
        open = is_mark(b"[", token);
    }
    false
}

/// Whether a map of these tokens has symbols.
fn has_symbols(tokens: &[Token]) -> bool
    ensures value { result ≡ has_symbols tokens.now }
    // It is told so of each map.
    ensures told { (x : MapTree) → map_tokens x ≡ tokens.now → result ≡ symbols_in x.symbols }
{
    opens_symbols(tokens)
}

/// The alias that a line defines, whose name none of these has.
pub fn read_alias<'a>(
    alloc: Global,
    aliases: &Aliases<'a>,
    line: &AliasLine<'a>,
) -> Result<Alias<'a>, Refused>
    ensures value { Agree result (alias_in aliases.now line.now) }
    ensures fresh { IfOk result (λ a. aliased aliases.now a.name ≡ None) }
{
    if aliases.find(line.name.text()).is_some() {
        return Err(Refused::At(Fault::Twice(line.name.start())));
    }
    let tokens = tokens_of(alloc, &line.map)?;
    let map = read_tokens(alloc, true, tokens.as_slice())?;
    Ok(Alias {
        name: line.name.text(),
        map,
        symbols: has_symbols(tokens.as_slice()),
    })
}

fn copy_expr(alloc: Global, expr: &Expr) -> Result<Expr, Memory>
    ensures { IfOk result (λ e. e ≡ expr.now) }
{
    let terms = copy_list(alloc, expr.terms.as_slice())?;
    Ok(Expr {
        constant: expr.constant,
        terms,
    })
}

fn copy_exprs(alloc: Global, exprs: &[Expr]) -> Result<List<Expr>, Memory>
    ensures { IfOk result (λ l. l ≡ exprs.now) }
{
    let mut copies = List::new(alloc);
    for expr in exprs {
        let copy = copy_expr(alloc, expr)?;
        copies.push(copy)?;
    }
    Ok(copies)
}

fn copy_map(alloc: Global, map: &AffineMap) -> Result<AffineMap, Memory>
    ensures { IfOk result (λ m. m ≡ map.now) }
{
    let results = copy_exprs(alloc, map.results().as_slice())?;
    match AffineMap::new(map.dims(), results) {
        Some(copy) => Ok(copy),
        None => unreachable!(),
    }
}

/// The map of an alias that is used at a place.
fn read_alias_map(alloc: Global, at: u32, alias: Option<&Alias>) -> Result<AffineMap, Refused>
    ensures { Agree result (alias_map at (option_copied alias.entry)) }
{
    match alias {
        None => Err(Refused::At(Fault::UnknownName(at))),
        Some(alias) => {
            if alias.symbols {
                return Err(Refused::At(Fault::Unsupported(at)));
            }
            let map = copy_map(alloc, &alias.map)?;
            Ok(map)
        }
    }
}

/// A map that is written where it is used, with symbols where they are allowed.
fn read_written_map(
    alloc: Global,
    symbols: bool,
    written: &WrittenMap,
) -> Result<AffineMap, Refused>
    ensures { Agree result (written_map symbols written.now) }
{
    let tokens = tokens_of(alloc, written)?;
    read_tokens(alloc, symbols, tokens.as_slice())
}

/// The map of an alias in scope, or a written one. It has no symbols.
///
/// # Errors
/// `UnknownName` at an alias that isn't in scope, `Unsupported` at one whose map has symbols, or the first fault of a written map.
/// `Memory` may come at any map.
pub fn read_map(alloc: Global, aliases: &Aliases, used: &MapUse) -> Result<AffineMap, Refused>
    ensures { Agree result (map_of aliases.now used.now) }
{
    match used {
        MapUse::Alias(name) => read_alias_map(alloc, name.start(), aliases.find(name.text())),
        MapUse::Written(written) => read_written_map(alloc, false, written),
    }
}

/// The map of an alias that is used where maps may have symbols.
fn read_alias_map_with_symbols(
    alloc: Global,
    at: u32,
    alias: Option<&Alias>,
) -> Result<AffineMap, Refused>
    ensures { Agree result (alias_map_with_symbols at (option_copied alias.entry)) }
{
    match alias {
        None => Err(Refused::At(Fault::UnknownName(at))),
        Some(alias) => {
            let map = copy_map(alloc, &alias.map)?;
            Ok(map)
        }
    }
}

/// The map of an alias in scope, or a written one. Its symbols are its last dimensions.
///
/// # Errors
/// `UnknownName` at an alias that isn't in scope, or the first fault of a written map. `Memory` may come at any map.
pub fn read_map_with_symbols(
    alloc: Global,
    aliases: &Aliases,
    used: &MapUse,
) -> Result<AffineMap, Refused>
    ensures { Agree result (map_with_symbols aliases.now used.now) }
{
    match used {
        MapUse::Alias(name) => {
            read_alias_map_with_symbols(alloc, name.start(), aliases.find(name.text()))
        }
        MapUse::Written(written) => read_written_map(alloc, true, written),
    }
}

/// Where a use begins.
pub fn use_start(used: &MapUse) -> u32
    ensures { result ≡ use_start used.now }
{
    match used {
        MapUse::Alias(name) => name.start(),
        MapUse::Written(written) => written.keyword.start(),
    }
}
