//! The tokens of a text.

ghost use Rattle.std.specs.Prelude.{◌≡◌, ◌≤◌, length, IfOk, All};
ghost use Rattle.text_format.specs.Tokens.{Gives, tokens_of, IsSpan, InOrder, with_text};

use crate::front::{Front, Kind, first_front};
use crate::token::Token;
use std::alloc::{AllocError, AllocFailed, Global};

/// A token of a text, by its places: its bytes are those from `start` up to `end`, which isn't one of them.
#[derive(Clone, Copy)]
pub struct Span {
    pub kind: Kind,
    pub start: u32,
    pub end: u32,
}

impl Span {
    /// The token with its text, which is the span's slice of the source.
    pub fn with_text<'a>(self, source: &'a [u8]) -> Token<'a>
        requires { IsSpan source.now self }
        ensures { result ≡ with_text source.now self }
    {
        Token::new(
            self.kind,
            self.start,
            &source[self.start as usize..self.end as usize],
        )
    }
}

/// Why a text has no tokens.
#[derive(Drop)]
pub enum LexError {
    /// At this place a byte outside a comment begins no token, or can't stand in a quoted text.
    Byte(u32),
    /// At this place a shaped type or a quoted text begins that isn't closed on its line.
    Unclosed(u32),
    Memory,
}

impl<T: Drop> From<AllocFailed<T>> for LexError {
    ghost use Rattle.text_format.specs.declared.span.LexError.TheVariants.{Memory};

    ghost from_gives = { λ _ e. e ≡ Memory };

    fn from(_e: AllocFailed<T>) -> LexError {
        LexError::Memory
    }
}

/// The tokens of a text, in order, or its first fault.
pub fn tokens(alloc: Global, text: &[u8]) -> Result<Vec<Span>, LexError>
    requires { length text.now ≤ 4194304 }
    ensures exact { Gives result (tokens_of text.now) }
    ensures spans { IfOk result (λ list. All (IsSpan text.now) list.items) }
    ensures ordered { IfOk result (λ list. InOrder 0 list.items) }
{
    let mut list = Vec::new(alloc);
    let mut at = 0usize;
    let mut rest = text;
    while let Some(front) = first_front(rest) {
        match front {
            Front::Skip(n) => {
                let (_, after) = rest.split_at(n);
                at += n;
                rest = after;
            }
            Front::Token(kind, n) => {
                let (_, after) = rest.split_at(n);
                list.push(Span {
                    kind,
                    start: at as u32,
                    end: (at + n) as u32,
                })?;
                at += n;
                rest = after;
            }
            Front::Byte(n) => return Err(LexError::Byte((at + n) as u32)),
            Front::Unclosed => return Err(LexError::Unclosed(at as u32)),
        }
    }
    Ok(list)
}
