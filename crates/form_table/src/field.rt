//! What the parts of an operation say, without their places.

use mlir_base::List;
use std::marker::Model;
use text_format::Kind;

/// A token as it is written: its kind, and its bytes.
#[derive(Drop)]
pub struct Spelling<'a> {
    kind: Kind,
    text: &'a [u8],
}

impl<'a> Model for Spelling<'a> {
    ghost use Rattle.form_table.specs.Spelling.{SpellingShape, spelling_code};

    ghost Value = { SpellingShape };

    ghost coded = { spelling_code };

    ghost view = { λ s. record { kind = s.kind; text = s.text.now } };
}

impl<'a> Spelling<'a> {
    ghost use Rattle.std.specs.Prelude.{◌≡◌};

    pub fn new(kind: Kind, text: &'a [u8]) -> Spelling<'a>
        ensures { result ≡ record { kind = kind; text = text.now } }
    {
        Spelling { kind, text }
    }

    pub fn text(&self) -> &'a [u8]
        ensures { result.now ≡ self.now.text }
    {
        self.text
    }
}

/// What an entry says.
#[derive(Drop)]
pub enum Word<'a> {
    /// A value, a type, an alias or a word.
    Text(Spelling<'a>),
    /// Whether the number is negative, and its magnitude.
    Number(bool, u64),
}

/// What a part says.
#[derive(Drop)]
pub enum Field<'a> {
    One(Word<'a>),
    /// The entries of a list, or those behind another.
    Several(List<Word<'a>>),
    /// The tokens of a dense literal.
    Dense(List<Spelling<'a>>),
    /// Whether what may be left out is there.
    There(bool),
}
