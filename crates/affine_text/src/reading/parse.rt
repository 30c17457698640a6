//! The map at the front of a text.

ghost use Rattle.std.specs.Prelude.{◌≡◌, ◌≤◌, length, true};
ghost use Rattle.affine_text.specs.Grammar.{MapTree, IsMapTree, map_tokens};
ghost use Rattle.affine_text.specs.Meaning.{meaning};
ghost use Rattle.affine_text.specs.Faults.{stream_of, IsAnswer};
ghost use Rattle.affine_text.specs.OfTokens.{map_of_tokens, IsReading, Gives};

use crate::reading::fault::MapError;
use crate::reading::reader::Reader;
use affine_maps::AffineMap;
use std::alloc::Global;
use text_format::{Front, Token, first_front};

/// Reads the `affine_map<..>` at the front of a text, and answers the map and the length of its text
/// in bytes. What stands behind it isn't looked at. Symbols are read as dimensions after the others.
/// Else the first fault (Affine manual, "Affine Maps").
pub fn parse_map(alloc: Global, text: &[u8]) -> Result<(AffineMap, u32), MapError>
    requires { length text.now ≤ 4194304 }
    ensures { IsAnswer true (stream_of text.now) result }
{
    let mut reader = Reader::new(alloc, true);
    let mut at = 0usize;
    let mut rest = text;
    while let Some(front) = first_front(rest) {
        match front {
            Front::Skip(n) => {
                let (_, after) = rest.split_at(n);
                at += n;
                rest = after;
            }
            Front::Token(kind, n) => {
                let (bytes, after) = rest.split_at(n);
                match reader.feed(&Token::new(kind, at as u32, bytes)) {
                    Ok(()) => {}
                    Err(e) => return Err(e),
                }
                at += n;
                rest = after;
                if reader.is_whole() {
                    return Ok((reader.into_map().unwrap(), at as u32));
                }
            }
            Front::Byte(n) => return Err(MapError::BadText((at + n) as u32)),
            Front::Unclosed => return Err(MapError::BadText(at as u32)),
        }
    }
    Err(MapError::BadText(at as u32))
}

/// Reads tokens as one map, from `affine_map` to the last `>`, and answers the map, or the first
/// fault. Symbols, where they are allowed, are read as dimensions after the others. Tokens that end
/// before the map does are at fault at the last of them, and a token behind the map is at fault
/// (Affine manual, "Affine Maps").
#[tactic(auto, using(crate::proofs::Lists::told, crate::proofs::Lists::reads_tree))]
pub fn map_of(alloc: Global, symbols: bool, tokens: &[Token<'_>]) -> Result<AffineMap, MapError>
    ensures exact { Gives (map_of_tokens symbols tokens.now) result }
    ensures told { IsReading symbols tokens.now (map_of_tokens symbols tokens.now) }
    ensures reads { (x : MapTree) → IsMapTree symbols x → map_tokens x ≡ tokens.now → map_of_tokens symbols tokens.now ≡ meaning x }
{
    let mut reader = Reader::new(alloc, symbols);
    let mut last = 0u32;
    for token in tokens {
        match reader.feed(token) {
            Ok(()) => {}
            Err(e) => return Err(e),
        }
        last = token.start();
    }
    if reader.is_whole() {
        Ok(reader.into_map().unwrap())
    } else {
        Err(MapError::BadText(last))
    }
}
