//! A parser that stops at the first token that doesn't fit.

ghost use Rattle.std.specs.Prelude.{◌≡◌, ◌≤◌, length, All};
ghost use Rattle.text_format.specs.Tokens.{IsSpan, with_text};
ghost use Rattle.text_format.specs.Formats.{live, sees, leaf_at, after_fixed};
ghost use Rattle.text_format.specs.Parsing.{tokens_in, stop_of, end_of};

use crate::class::{Class, Reason};
use crate::lexeme::Lexeme;
use crate::span::Span;
use crate::token::Token;
use std::marker::Model;

/// Where reading stopped, as the number of bytes before it, and why.
#[derive(Clone, Copy)]
pub struct Stopped {
    pub at: u32,
    pub why: Reason,
}

/// Reads a text's tokens in order. From the first that doesn't fit on it reads no more, and answers tokens of its own.
#[derive(Drop)]
pub struct Parser<'a> {
    text: &'a [u8],
    spans: &'a [Span],
    stopped: Option<Stopped>,
}

impl<'a> Model for Parser<'a> {
    ghost use Rattle.std.specs.Prelude.{All, ◌≤◌, length};
    ghost use Rattle.text_format.specs.Formats.{State};
    ghost use Rattle.text_format.specs.Tokens.{IsSpan};
    ghost use Rattle.text_format.specs.Parsing.{tokens_in, stop_of};

    ghost Value = { State };

    ghost view = { λ p. record { rest = tokens_in p.text.now p.spans.now; stop = stop_of p.stopped; end = length p.text.now } };

    ghost invariant = { λ p. All (IsSpan p.text.now) p.spans.now × (length p.text.now ≤ 4194304) };
}

impl<'a> Parser<'a> {
    /// A parser at the beginning of a text, whose tokens these are.
    pub fn new(text: &'a [u8], spans: &'a [Span]) -> Parser<'a>
        requires short { length text.now ≤ 4194304 }
        requires spans { All (IsSpan text.now) spans.now }
        ensures { result ≡ live (length text.now) (tokens_in text.now spans.now) }
    {
        Parser {
            text,
            spans,
            stopped: None,
        }
    }

    /// The token that comes next, where reading has not stopped.
    #[tactic(auto, unfolding(crate::specs::Formats::sees))]
    pub fn sees(&self, class: Class) -> bool
        ensures { result ≡ sees class self.now }
    {
        match (self.stopped, self.spans) {
            (None, [span, ..]) => class.fits(&token_at(self.text, span)),
            _ => false,
        }
    }

    /// Reads a token of the class.
    #[tactic(auto, unfolding(crate::specs::Formats::leaf_at))]
    pub fn leaf(&mut self, class: Class) -> Token<'a>
        ensures { (result, self.new) ≡ leaf_at class self.old }
    {
        if let Some(stopped) = self.stopped {
            return class.missing(stopped.at);
        }
        match self.spans {
            [] => {
                let at = self.text.len() as u32;
                self.stopped = Some(Stopped {
                    at,
                    why: Reason::Syntax,
                });
                class.missing(at)
            }
            [span, after @ ..] => {
                let token = token_at(self.text, span);
                if class.fits(&token) {
                    self.spans = after;
                    return token;
                }
                self.stopped = Some(Stopped {
                    at: span.start,
                    why: class.refusal(&token),
                });
                class.missing(span.start)
            }
        }
    }

    /// Reads a fixed token.
    pub fn fixed(&mut self, lexeme: Lexeme)
        ensures { self.new ≡ after_fixed lexeme self.old }
    {
        let _token = self.leaf(Class::Exactly(lexeme));
    }

    /// Where reading stopped, and why. None: it has not.
    pub fn stopped(&self) -> Option<Stopped>
        ensures { stop_of result ≡ self.now.stop }
    {
        self.stopped
    }

    /// The number of tokens that are left.
    pub fn left(&self) -> usize
        ensures { result ≡ length self.now.rest }
    {
        self.spans.len()
    }

    /// Where reading ended, and why. None: all was read. A token that is left is refused as where one of the class is wanted.
    #[tactic(auto, unfolding(crate::specs::Parsing::end_of))]
    pub fn end(&self, wanted: Class) -> Option<Stopped>
        ensures { stop_of result ≡ end_of wanted self.now }
    {
        match (self.stopped, self.spans) {
            (Some(stopped), _) => Some(stopped),
            (None, []) => None,
            (None, [span, ..]) => Some(Stopped {
                at: span.start,
                why: wanted.refusal(&token_at(self.text, span)),
            }),
        }
    }
}

/// The token of a span.
fn token_at<'a>(text: &'a [u8], span: &Span) -> Token<'a>
    requires { IsSpan text.now span.now }
    ensures { result ≡ with_text text.now span.now }
{
    Token::new(
        span.kind,
        span.start,
        &text[span.start as usize..span.end as usize],
    )
}
