//! Classes of tokens.

ghost use Rattle.std.specs.Prelude.{◌≡◌};
ghost use Rattle.text_format.specs.Classes.{kind_code, is_kind, is_numbered, passes, main_part, other_parts, in_parts, fits, is_profile_word, is_unsupported_name, is_unsupported_element, is_unsupported_shape, is_unsupported_literal, reason_if, refusal, simplest, missing};

use crate::front::Kind;
use crate::lexeme::Lexeme;
use crate::token::Token;
use crate::types::{element_of, has_other_element, is_any_tensor, is_ranked, width_of};
use crate::words::{
    is_binary_name, is_boolean_word, is_cast_name, is_dense_mark, is_item_word, is_iterator,
    is_listed, is_map_mark, is_predicate, is_unbuilt,
};

/// Where an operation's name is wanted, which says what is refused there as not supported.
#[derive(Clone, Copy)]
pub enum Position {
    /// Where a function or a module may stand.
    Item,
    /// Where a statement of a function begins.
    Statement,
    /// After `%r =` in a function.
    Operation,
    /// Where a line of a payload begins.
    PayloadStatement,
    /// After `%s =` in a payload.
    PayloadStep,
    /// Where a line of a script begins.
    ScriptStatement,
    /// After the results of a step in a script.
    ScriptStep,
}

/// The sets of tokens that a production leaves open. A leaf of a tree is a token of one of them.
#[derive(Clone, Copy)]
pub enum Class {
    /// A fixed token whose place is kept.
    Exactly(Lexeme),
    /// The name of an operation, a function or a module, and where it is wanted.
    Name(Position, Lexeme),
    /// The name of a value that is used.
    Value,
    /// The name of a value that is defined: one without `#`.
    NewValue,
    /// The same at the beginning of a line, where an operation's name may stand too.
    NewValueAt(Position),
    /// Where a step of a script begins: the name of a handle that is defined, or `transform.structured.vectorize`.
    StepStart,
    Alias,
    Symbol,
    /// A tensor's type with fixed extents, of any rank, and with elements i1 to i64.
    TensorType,
    /// An element type: i1 to i64, or index.
    ElementType,
    /// The type of an operand: a tensor's as above, or i1 to i64.
    OperandType,
    /// i1 to i64.
    IntegerType,
    /// Decimal digits.
    Number,
    /// `true` or `false`.
    Boolean,
    /// `"parallel"` or `"reduction"`.
    Iterator,
    /// The predicate of a comparison.
    Predicate,
    /// The name of an operation on two integers, and where it is wanted.
    BinaryName(Position),
    /// The name of an operation that changes an integer's width, and where it is wanted.
    CastName(Position),
    /// Any quoted text.
    Quoted,
    /// What may stand between a map's `<` and `>`: words, numbers, and the marks `(` `)` `[` `]` `,` `->` `+` `-` `*`.
    MapToken,
    /// What may stand between a dense literal's `<` and `>`: numbers, `true`, `false`, and the marks `-` `[` `]` `,`.
    DenseToken,
    /// The type of a dense literal: a tensor's with fixed extents and elements i1 to i64.
    DenseType,
    /// Where an item of a file begins: an alias, `func.func` or `module`.
    ItemStart,
}

/// Why reading stops at a token.
#[derive(Clone, Copy)]
pub enum Reason {
    Unsupported,
    Syntax,
}

fn kind_code(kind: Kind) -> u8
    ensures { result ≡ kind_code kind }
{
    kind as u8
}

fn is_kind(wanted: Kind, kind: Kind) -> bool
    ensures { result ≡ is_kind wanted kind }
{
    kind_code(kind) == kind_code(wanted)
}

/// Whether a value's name has a `#`.
fn is_numbered(text: &[u8]) -> bool
    ensures { result ≡ is_numbered text.now }
{
    for b in text {
        if *b == b'#' {
            return true;
        }
    }
    false
}

#[tactic(auto, unfolding(crate::specs::Classes::is_profile_word))]
fn is_profile_word(text: &[u8]) -> bool
    ensures { result ≡ is_profile_word text.now }
{
    width_of(text).is_some() || is_listed(text)
}

fn reason_if(unsupported: bool) -> Reason
    ensures { result ≡ reason_if unsupported }
{
    if unsupported {
        Reason::Unsupported
    } else {
        Reason::Syntax
    }
}

#[tactic(auto, unfolding(crate::specs::Classes::is_unsupported_name))]
fn is_unsupported_name(position: Position, token: &Token<'_>) -> bool
    ensures { result ≡ is_unsupported_name position token.now }
{
    is_kind(Kind::Word, token.kind())
        && (!is_profile_word(token.text()) || is_unbuilt(position, token.text()))
}

#[tactic(auto, unfolding(crate::specs::Classes::is_unsupported_element))]
fn is_unsupported_element(token: &Token<'_>) -> bool
    ensures { result ≡ is_unsupported_element token.now }
{
    is_kind(Kind::Word, token.kind()) && !is_profile_word(token.text())
        || is_kind(Kind::TypeWord, token.kind()) && token.text() != b"!transform.any_op".as_slice()
}

#[tactic(auto, unfolding(crate::specs::Classes::is_unsupported_shape))]
fn is_unsupported_shape(token: &Token<'_>) -> bool
    ensures { result ≡ is_unsupported_shape token.now }
{
    is_kind(Kind::Shaped, token.kind()) && has_other_element(token.text())
}

fn is_unsupported_literal(token: &Token<'_>) -> bool
    ensures { result ≡ is_unsupported_literal token.now }
{
    is_kind(Kind::Shaped, token.kind())
        && (has_other_element(token.text()) || is_any_tensor(token.text()))
}

impl Class {
    /// Whether the bytes are those of a token of the class, where it is of the class's main kind.
    fn passes(self, text: &[u8]) -> bool
        ensures { result ≡ passes (main_part self).test text.now }
    {
        match self {
            Class::Exactly(lexeme) | Class::Name(_, lexeme) => text == lexeme.text(),
            Class::NewValue | Class::NewValueAt(_) | Class::StepStart => !is_numbered(text),
            Class::ElementType => element_of(text).is_some(),
            Class::TensorType | Class::DenseType | Class::OperandType => is_ranked(text),
            Class::IntegerType => width_of(text).is_some(),
            Class::Boolean => is_boolean_word(text),
            Class::Iterator => is_iterator(text),
            Class::Predicate => is_predicate(text),
            Class::BinaryName(_) => is_binary_name(text),
            Class::CastName(_) => is_cast_name(text),
            Class::ItemStart => is_item_word(text),
            Class::Value
            | Class::Alias
            | Class::Symbol
            | Class::Number
            | Class::Quoted
            | Class::MapToken
            | Class::DenseToken => true,
        }
    }

    /// Whether the token is one of the class that is of another kind than the main one.
    fn in_other_parts(self, token: &Token<'_>) -> bool
        ensures { result ≡ in_parts (other_parts self) token.now.kind token.now.text }
    {
        match self {
            Class::OperandType => {
                is_kind(Kind::Word, token.kind()) && width_of(token.text()).is_some()
            }
            Class::StepStart => {
                is_kind(Kind::Word, token.kind())
                    && token.text() == Lexeme::StructuredVectorize.text()
            }
            Class::MapToken => {
                is_kind(Kind::Word, token.kind())
                    || is_kind(Kind::Mark, token.kind()) && is_map_mark(token.text())
            }
            Class::DenseToken => {
                is_kind(Kind::Word, token.kind()) && is_boolean_word(token.text())
                    || is_kind(Kind::Mark, token.kind()) && is_dense_mark(token.text())
            }
            Class::ItemStart => is_kind(Kind::Alias, token.kind()),
            _ => false,
        }
    }

    /// Whether the token is of the class.
    pub fn fits(self, token: &Token<'_>) -> bool
        ensures { result ≡ fits self token.now }
    {
        self.in_other_parts(token)
            || is_kind(self.kind(), token.kind()) && self.passes(token.text())
    }

    /// Why the token, where one of the class is wanted, is refused.
    pub fn refusal(self, token: &Token<'_>) -> Reason
        ensures { result ≡ refusal self token.now }
    {
        match self {
            Class::Name(position, _)
            | Class::NewValueAt(position)
            | Class::BinaryName(position)
            | Class::CastName(position) => reason_if(is_unsupported_name(position, token)),
            Class::StepStart => reason_if(is_unsupported_name(Position::ScriptStatement, token)),
            Class::ItemStart => reason_if(is_unsupported_name(Position::Item, token)),
            Class::TensorType => reason_if(is_unsupported_shape(token)),
            Class::ElementType | Class::IntegerType => reason_if(is_unsupported_element(token)),
            Class::DenseType => reason_if(is_unsupported_literal(token)),
            Class::OperandType => reason_if(
                is_unsupported_shape(token) || is_unsupported_element(token),
            ),
            _ => Reason::Syntax,
        }
    }

    /// The kind of its tokens. Where they are of several kinds, the main one.
    fn kind(self) -> Kind
        ensures { result ≡ (main_part self).kind }
    {
        match self {
            Class::Exactly(lexeme) | Class::Name(_, lexeme) => lexeme.kind(),
            Class::Value | Class::NewValue | Class::NewValueAt(_) | Class::StepStart => {
                Kind::Value
            }
            Class::Alias => Kind::Alias,
            Class::Symbol => Kind::Symbol,
            Class::TensorType | Class::DenseType | Class::OperandType => Kind::Shaped,
            Class::ElementType
            | Class::IntegerType
            | Class::Boolean
            | Class::Predicate
            | Class::BinaryName(_)
            | Class::CastName(_)
            | Class::ItemStart => Kind::Word,
            Class::Iterator | Class::Quoted => Kind::Quoted,
            Class::Number | Class::MapToken | Class::DenseToken => Kind::Number,
        }
    }

    fn simplest(self) -> &'static [u8]
        ensures { result.now ≡ simplest self }
    {
        match self {
            Class::Exactly(lexeme) | Class::Name(_, lexeme) => lexeme.text(),
            Class::Value | Class::NewValue | Class::NewValueAt(_) | Class::StepStart => b"%a",
            Class::Alias => b"#a",
            Class::Symbol => b"@a",
            Class::TensorType | Class::DenseType | Class::OperandType => b"tensor<1xi1>",
            Class::ElementType => b"i1",
            Class::IntegerType => b"i64",
            Class::Number | Class::MapToken | Class::DenseToken => b"0",
            Class::Boolean => b"true",
            Class::Iterator => b"\"parallel\"",
            Class::Predicate => b"eq",
            Class::BinaryName(_) => b"arith.addi",
            Class::CastName(_) => b"arith.extsi",
            Class::Quoted => b"\"\"",
            Class::ItemStart => b"module",
        }
    }

    /// The simplest token of the class, which stands for one that is missing at a place.
    pub fn missing<'a>(self, at: u32) -> Token<'a>
        ensures { result ≡ missing self at }
    {
        Token::new(self.kind(), at, self.simplest())
    }
}
