//! Tokens, each with its text.

ghost use Rattle.std.specs.Prelude.{◌≡◌};
ghost use Rattle.text_format.specs.Token.{TokenShape};

use crate::front::Kind;
use std::marker::Model;

/// A token of a text: its kind, the place of its first byte, and its bytes.
#[derive(Drop)]
pub struct Token<'a> {
    kind: Kind,
    start: u32,
    text: &'a [u8],
}

impl<'a> Model for Token<'a> {
    ghost use Rattle.text_format.specs.Token.{TokenShape, token_code};

    ghost Value = { TokenShape };

    ghost coded = { token_code };

    ghost view = { λ t. record { kind = t.kind; start = t.start; text = t.text.now } };
}

impl<'a> Token<'a> {
    pub fn new(kind: Kind, start: u32, text: &'a [u8]) -> Token<'a>
        ensures { result ≡ record { kind = kind; start = start; text = text.now } }
    {
        Token { kind, start, text }
    }

    pub fn kind(&self) -> Kind
        ensures { result ≡ self.now.kind }
    {
        self.kind
    }

    /// The place of its first byte.
    pub fn start(&self) -> u32
        ensures { result ≡ self.now.start }
    {
        self.start
    }

    pub fn text(&self) -> &'a [u8]
        ensures { result.now ≡ self.now.text }
    {
        self.text
    }
}
