//! A text with its tokens.

ghost use Rattle.std.specs.Prelude.{◌≡◌, slice_get, option_map};
ghost use Rattle.text_format.specs.Tokens.{with_text};
ghost use Rattle.mlir_lex.specs.Lexed.{AreTokens};

use mlir_base::List;
use std::marker::Model;
use text_format::Span as Token;

pub mod scan;

/// A text of at most 4,194,304 bytes, and its tokens in order.
#[derive(Drop)]
pub struct Tokens<'a> {
    text: &'a [u8],
    list: List<Token>,
}

impl<'a> Model for Tokens<'a> {
    ghost use Rattle.mlir_lex.specs.Lexed.{TokensShape, AreTokens};

    ghost Value = { TokensShape };

    ghost view = { λ t. record { text = t.text.now; list = t.list } };

    ghost invariant = { λ t. AreTokens t.text.now t.list };
}

impl<'a> Tokens<'a> {
    pub fn text(&self) -> &'a [u8]
        ensures { result.now ≡ self.now.text }
    {
        self.text
    }

    /// The tokens by their places. They are all that the text has, each within it, in order.
    pub fn list(&self) -> &List<Token>
        ensures same { result.now ≡ self.now.list }
        ensures tokens { AreTokens self.now.text self.now.list }
    {
        &self.list
    }

    /// The token of this number, from 0, with its bytes, and none behind the last.
    pub fn token(&self, number: usize) -> Option<text_format::Token<'a>>
        ensures { result ≡ option_map (with_text self.now.text) (slice_get self.now.list number) }
    {
        match self.list.as_slice().get(number) {
            Some(span) => Some(span.with_text(self.text)),
            None => None,
        }
    }
}
