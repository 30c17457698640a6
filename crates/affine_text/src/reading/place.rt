//! Where a reader stands in a map's text, and what a token may be there.

ghost use Rattle.std.specs.Prelude.{◌≡◌};
ghost use Rattle.text_format.specs.declared.front.Kind.TheVariants.{Word};
ghost use Rattle.text_format.specs.Classes.{is_kind};
ghost use Rattle.affine_text.specs.Reading.{mark_sign, sign_of, keyword_step, less_step, greater_step, open_step, arrow_step, first_dimension_step, next_name_step, dimension_behind_step, dimensions_end_step, first_symbol_step, symbol_behind_step, operand_step, first_result_step, operator_step, step_of};
ghost use Rattle.affine_text.specs.Faults.{is_division};

use text_format::{Kind, Token};

/// What a token is to a map's text.
#[derive(Clone, Copy)]
pub enum Sign {
    Word,
    Number,
    Open,
    Close,
    OpenBracket,
    CloseBracket,
    Less,
    Greater,
    Comma,
    Arrow,
    Plus,
    Minus,
    Times,
    Other,
}

/// What a map's text goes on with.
#[derive(Clone, Copy)]
pub enum Place {
    /// `affine_map`.
    Keyword,
    /// `<`.
    Less,
    /// `(`.
    DimensionsOpen,
    /// A dimension's name, or `)`.
    FirstDimension,
    /// A dimension's name.
    NextDimension,
    /// `,` or `)`.
    DimensionBehind,
    /// `[`, where symbols are allowed, or `->`.
    DimensionsEnd,
    /// A symbol's name, or `]`.
    FirstSymbol,
    /// A symbol's name.
    NextSymbol,
    /// `,` or `]`.
    SymbolBehind,
    /// `->`.
    SymbolsEnd,
    /// `(`.
    ResultsOpen,
    /// A result, or `)`.
    FirstResult,
    /// A factor.
    Operand,
    /// An operator, or what ends an expression.
    Operator,
    /// `>`.
    ResultsEnd,
    /// Nothing: the map is read.
    Whole,
}

/// What a token does to a reader.
#[derive(Clone, Copy)]
pub enum Step {
    /// A word that must be `affine_map`.
    Keyword,
    /// The text goes on here.
    Goes(Place),
    /// The symbols begin, where the map may have some.
    Symbols,
    /// The word is the name of a dimension or of a symbol, and the text goes on here.
    Declares(Place),
    /// The sign of the next factor turns.
    Turn,
    /// A factor: the dimension or symbol that has the name.
    Name,
    /// A factor.
    Number,
    /// A parenthesis within an expression.
    Open,
    /// The product goes on.
    Times,
    /// The product ends, and the next is added.
    Plus,
    /// The product ends, and the next is subtracted.
    Minus,
    /// A result ends, and the next begins.
    Comma,
    /// An expression in parentheses ends, or the last result.
    Close,
    /// No operator of a linear form stands where one may stand.
    Operator,
    /// No text goes on so.
    Bad,
}

#[tactic(auto, unfolding(crate::specs::Reading::mark_sign))]
fn mark_sign(text: &[u8]) -> Sign
    ensures { result ≡ mark_sign text.now }
{
    if text == b"(".as_slice() {
        Sign::Open
    } else if text == b")".as_slice() {
        Sign::Close
    } else if text == b"[".as_slice() {
        Sign::OpenBracket
    } else if text == b"]".as_slice() {
        Sign::CloseBracket
    } else if text == b"<".as_slice() {
        Sign::Less
    } else if text == b">".as_slice() {
        Sign::Greater
    } else if text == b",".as_slice() {
        Sign::Comma
    } else if text == b"->".as_slice() {
        Sign::Arrow
    } else if text == b"+".as_slice() {
        Sign::Plus
    } else if text == b"-".as_slice() {
        Sign::Minus
    } else if text == b"*".as_slice() {
        Sign::Times
    } else {
        Sign::Other
    }
}

pub fn sign_of(token: &Token<'_>) -> Sign
    ensures { result ≡ sign_of token.now }
{
    match token.kind() {
        Kind::Word => Sign::Word,
        Kind::Number => Sign::Number,
        Kind::Mark => mark_sign(token.text()),
        _ => Sign::Other,
    }
}

fn is_word(kind: Kind) -> bool
    ensures { result ≡ is_kind Word kind }
{
    kind as u8 == Kind::Word as u8
}

/// Whether the token is an operator that is none of a linear form.
pub fn is_division(token: &Token<'_>) -> bool
    ensures { result ≡ is_division token.now }
{
    let text = token.text();
    is_word(token.kind())
        && (text == b"mod".as_slice()
            || text == b"floordiv".as_slice()
            || text == b"ceildiv".as_slice())
}

fn keyword_step(sign: Sign) -> Step
    ensures { result ≡ keyword_step sign }
{
    match sign {
        Sign::Word => Step::Keyword,
        _ => Step::Bad,
    }
}

fn less_step(behind: Place, sign: Sign) -> Step
    ensures { result ≡ less_step behind sign }
{
    match sign {
        Sign::Less => Step::Goes(behind),
        _ => Step::Bad,
    }
}

fn greater_step(behind: Place, sign: Sign) -> Step
    ensures { result ≡ greater_step behind sign }
{
    match sign {
        Sign::Greater => Step::Goes(behind),
        _ => Step::Bad,
    }
}

fn open_step(behind: Place, sign: Sign) -> Step
    ensures { result ≡ open_step behind sign }
{
    match sign {
        Sign::Open => Step::Goes(behind),
        _ => Step::Bad,
    }
}

fn arrow_step(behind: Place, sign: Sign) -> Step
    ensures { result ≡ arrow_step behind sign }
{
    match sign {
        Sign::Arrow => Step::Goes(behind),
        _ => Step::Bad,
    }
}

fn first_dimension_step(sign: Sign) -> Step
    ensures { result ≡ first_dimension_step sign }
{
    match sign {
        Sign::Close => Step::Goes(Place::DimensionsEnd),
        Sign::Word => Step::Declares(Place::DimensionBehind),
        _ => Step::Bad,
    }
}

fn next_name_step(behind: Place, sign: Sign) -> Step
    ensures { result ≡ next_name_step behind sign }
{
    match sign {
        Sign::Word => Step::Declares(behind),
        _ => Step::Bad,
    }
}

fn dimension_behind_step(sign: Sign) -> Step
    ensures { result ≡ dimension_behind_step sign }
{
    match sign {
        Sign::Comma => Step::Goes(Place::NextDimension),
        Sign::Close => Step::Goes(Place::DimensionsEnd),
        _ => Step::Bad,
    }
}

fn dimensions_end_step(sign: Sign) -> Step
    ensures { result ≡ dimensions_end_step sign }
{
    match sign {
        Sign::OpenBracket => Step::Symbols,
        Sign::Arrow => Step::Goes(Place::ResultsOpen),
        _ => Step::Bad,
    }
}

fn first_symbol_step(sign: Sign) -> Step
    ensures { result ≡ first_symbol_step sign }
{
    match sign {
        Sign::CloseBracket => Step::Goes(Place::SymbolsEnd),
        Sign::Word => Step::Declares(Place::SymbolBehind),
        _ => Step::Bad,
    }
}

fn symbol_behind_step(sign: Sign) -> Step
    ensures { result ≡ symbol_behind_step sign }
{
    match sign {
        Sign::Comma => Step::Goes(Place::NextSymbol),
        Sign::CloseBracket => Step::Goes(Place::SymbolsEnd),
        _ => Step::Bad,
    }
}

/// Where a factor is wanted.
fn operand_step(sign: Sign) -> Step
    ensures { result ≡ operand_step sign }
{
    match sign {
        Sign::Minus => Step::Turn,
        Sign::Word => Step::Name,
        Sign::Number => Step::Number,
        Sign::Open => Step::Open,
        _ => Step::Bad,
    }
}

fn first_result_step(sign: Sign) -> Step
    ensures { result ≡ first_result_step sign }
{
    match sign {
        Sign::Close => Step::Goes(Place::ResultsEnd),
        _ => operand_step(sign),
    }
}

/// Behind a factor.
fn operator_step(sign: Sign) -> Step
    ensures { result ≡ operator_step sign }
{
    match sign {
        Sign::Times => Step::Times,
        Sign::Plus => Step::Plus,
        Sign::Minus => Step::Minus,
        Sign::Comma => Step::Comma,
        Sign::Close => Step::Close,
        _ => Step::Operator,
    }
}

/// What a token does at a place.
pub fn step_of(place: Place, sign: Sign) -> Step
    ensures { result ≡ step_of place sign }
{
    match place {
        Place::Keyword => keyword_step(sign),
        Place::Less => less_step(Place::DimensionsOpen, sign),
        Place::DimensionsOpen => open_step(Place::FirstDimension, sign),
        Place::FirstDimension => first_dimension_step(sign),
        Place::NextDimension => next_name_step(Place::DimensionBehind, sign),
        Place::DimensionBehind => dimension_behind_step(sign),
        Place::DimensionsEnd => dimensions_end_step(sign),
        Place::FirstSymbol => first_symbol_step(sign),
        Place::NextSymbol => next_name_step(Place::SymbolBehind, sign),
        Place::SymbolBehind => symbol_behind_step(sign),
        Place::SymbolsEnd => arrow_step(Place::ResultsOpen, sign),
        Place::ResultsOpen => open_step(Place::FirstResult, sign),
        Place::FirstResult => first_result_step(sign),
        Place::Operand => operand_step(sign),
        Place::Operator => operator_step(sign),
        Place::ResultsEnd => greater_step(Place::Whole, sign),
        Place::Whole => Step::Bad,
    }
}
