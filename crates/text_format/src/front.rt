//! What stands first in a text.

ghost use Rattle.std.specs.Prelude.{◌≡◌, ◌+◌, ◌<◌, ◌≤◌, ◌^◌, ◌∷◌, length, IsTrue, IfSome};
ghost use Rattle.text_format.specs.Bytes.{is_blank, is_digit, is_letter, is_word_byte, belongs, run, is_mark, is_sign, sign_kind, next_is, letter_next, is_closed, is_shape_start, shaped_front, word_front, result_number, value_front, sign_front, quoted_front, mark_front, comment_front, front, first_front, Within};

/// The kinds of tokens, as the Language Reference has them.
#[derive(Clone, Copy)]
pub enum Kind {
    /// A letter or `_`, then letters, digits, `_`, `$` and `.`.
    Word,
    /// `%` and letters, digits, `_`, `$`, `.` and `-`; then maybe `#` and digits.
    Value,
    /// `#` and a word.
    Alias,
    /// `@` and a word.
    Symbol,
    /// `^` and a word.
    Block,
    /// `!` and a word.
    TypeWord,
    /// `tensor<` or `vector<` up to the next `>` on its line.
    Shaped,
    /// Decimal digits.
    Number,
    /// Printable ASCII without `"` and `\`, between quotes.
    Quoted,
    /// One of `( ) { } [ ] < > , : = -> - + *`.
    Mark,
}

/// Sets of bytes.
#[derive(Clone, Copy)]
pub enum ByteClass {
    WordByte,
    ValueByte,
    Digit,
    Printable,
    /// What comes before this byte on a line.
    LineBefore(u8),
}

/// What stands first in a text.
#[derive(Clone, Copy)]
pub enum Front {
    /// A blank or a comment of so many bytes.
    Skip(usize),
    /// A token of this kind, of so many bytes.
    Token(Kind, usize),
    /// No token: the byte at this place begins none, or can't stand in a quoted text.
    Byte(usize),
    /// A shaped type or a quoted text that isn't closed on its line.
    Unclosed,
}

fn is_blank(b: u8) -> bool
    ensures { result ≡ is_blank b }
{
    b == b' ' || b == b'\t' || b == b'\n' || b == b'\r'
}

pub(crate) fn is_digit(b: u8) -> bool
    ensures { result ≡ is_digit b }
{
    b'0' <= b && b <= b'9'
}

pub(crate) fn is_letter(b: u8) -> bool
    ensures { result ≡ is_letter b }
{
    b'a' <= b && b <= b'z' || b'A' <= b && b <= b'Z' || b == b'_'
}

pub(crate) fn is_word_byte(b: u8) -> bool
    ensures { result ≡ is_word_byte b }
{
    is_letter(b) || is_digit(b) || b == b'$' || b == b'.'
}

fn belongs(class: ByteClass, b: u8) -> bool
    ensures { result ≡ belongs class b }
{
    match class {
        ByteClass::WordByte => is_word_byte(b),
        ByteClass::ValueByte => is_word_byte(b) || b == b'-',
        ByteClass::Digit => is_digit(b),
        ByteClass::Printable => b' ' <= b && b <= b'~' && b != b'"' && b != b'\\',
        ByteClass::LineBefore(c) => b != c && b != b'\n',
    }
}

fn is_mark(b: u8) -> bool
    ensures { result ≡ is_mark b }
{
    b == b'('
        || b == b')'
        || b == b'{'
        || b == b'}'
        || b == b'['
        || b == b']'
        || b == b'<'
        || b == b'>'
        || b == b','
        || b == b':'
        || b == b'='
        || b == b'-'
        || b == b'+'
        || b == b'*'
}

fn is_sign(b: u8) -> bool
    ensures { result ≡ is_sign b }
{
    b == b'#' || b == b'@' || b == b'^' || b == b'!'
}

fn sign_kind(b: u8) -> Kind
    ensures { result ≡ sign_kind b }
{
    if b == b'#' {
        Kind::Alias
    } else if b == b'@' {
        Kind::Symbol
    } else if b == b'^' {
        Kind::Block
    } else {
        Kind::TypeWord
    }
}

fn run(class: ByteClass, bytes: &[u8]) -> usize
    ensures count { result ≡ run class bytes.now }
    ensures within { result ≤ length bytes.now }
{
    for (i, b) in bytes.iter().enumerate() {
        if !belongs(class, *b) {
            return i;
        }
    }
    bytes.len()
}

fn next_is(c: u8, bytes: &[u8]) -> bool
    ensures exact { result ≡ next_is c bytes.now }
    ensures some { IsTrue result → 1 ≤ length bytes.now }
{
    match bytes {
        [] => false,
        [b, ..] => *b == c,
    }
}

fn letter_next(bytes: &[u8]) -> bool
    ensures { result ≡ letter_next bytes.now }
{
    match bytes {
        [] => false,
        [b, ..] => is_letter(*b),
    }
}

#[tactic(auto, unfolding(crate::specs::Bytes::is_closed))]
fn is_closed(c: u8, bytes: &[u8]) -> bool
    ensures { result ≡ is_closed c bytes.now }
{
    next_is(c, &bytes[run(ByteClass::LineBefore(c), bytes)..])
}

fn is_shape_start(bytes: &[u8]) -> bool
    ensures exact { result ≡ is_shape_start bytes.now }
    ensures long { IsTrue result → 7 ≤ length bytes.now }
{
    if bytes.len() < 7 {
        return false;
    }
    let head = &bytes[..7];
    head == b"tensor<".as_slice() || head == b"vector<".as_slice()
}

#[tactic(auto, unfolding(crate::specs::Bytes::shaped_front))]
fn shaped_front(rest: &[u8]) -> Front
    requires { length rest.now < 2 ^ 62 }
    ensures { result ≡ shaped_front rest.now }
{
    if is_closed(b'>', rest) {
        Front::Token(Kind::Shaped, 7 + run(ByteClass::LineBefore(b'>'), rest) + 1)
    } else {
        Front::Unclosed
    }
}

#[tactic(auto, unfolding(crate::specs::Bytes::word_front))]
fn word_front(bytes: &[u8]) -> Front
    requires { length bytes.now < 2 ^ 62 }
    ensures { result ≡ word_front bytes.now }
{
    if is_shape_start(bytes) {
        shaped_front(&bytes[7..])
    } else {
        Front::Token(Kind::Word, run(ByteClass::WordByte, bytes))
    }
}

#[tactic(auto, unfolding(crate::specs::Bytes::result_number))]
fn result_number(bytes: &[u8]) -> usize
    requires { length bytes.now < 2 ^ 62 }
    ensures exact { result ≡ result_number bytes.now }
    ensures within { result ≤ length bytes.now }
{
    if !next_is(b'#', bytes) {
        return 0;
    }
    let digits = run(ByteClass::Digit, &bytes[1..]);
    if digits == 0 { 0 } else { digits + 1 }
}

#[tactic(auto, unfolding(crate::specs::Bytes::value_front))]
fn value_front(rest: &[u8]) -> Front
    requires { length rest.now < 2 ^ 62 }
    ensures { result ≡ value_front rest.now }
{
    let name = run(ByteClass::ValueByte, rest);
    if name == 0 {
        Front::Byte(0)
    } else {
        Front::Token(Kind::Value, name + result_number(&rest[name..]) + 1)
    }
}

#[tactic(auto, unfolding(crate::specs::Bytes::sign_front))]
fn sign_front(b: u8, rest: &[u8]) -> Front
    requires { length rest.now < 2 ^ 62 }
    ensures { result ≡ sign_front b rest.now }
{
    if letter_next(rest) {
        Front::Token(sign_kind(b), run(ByteClass::WordByte, rest) + 1)
    } else {
        Front::Byte(0)
    }
}

#[tactic(auto, unfolding(crate::specs::Bytes::quoted_front))]
fn quoted_front(rest: &[u8]) -> Front
    requires { length rest.now < 2 ^ 62 }
    ensures { result ≡ quoted_front rest.now }
{
    let inside = run(ByteClass::Printable, rest);
    if next_is(b'"', &rest[inside..]) {
        Front::Token(Kind::Quoted, inside + 2)
    } else if is_closed(b'"', rest) {
        Front::Byte(inside + 1)
    } else {
        Front::Unclosed
    }
}

#[tactic(auto, unfolding(crate::specs::Bytes::mark_front))]
fn mark_front(b: u8, rest: &[u8]) -> Front
    ensures { result ≡ mark_front b rest.now }
{
    if b == b'-' && next_is(b'>', rest) {
        Front::Token(Kind::Mark, 2)
    } else if is_mark(b) {
        Front::Token(Kind::Mark, 1)
    } else {
        Front::Byte(0)
    }
}

#[tactic(auto, unfolding(crate::specs::Bytes::comment_front))]
fn comment_front(rest: &[u8]) -> Front
    requires { length rest.now < 2 ^ 62 }
    ensures { result ≡ comment_front rest.now }
{
    if next_is(b'/', rest) {
        Front::Skip(run(ByteClass::LineBefore(b'\n'), rest) + 1)
    } else {
        Front::Byte(0)
    }
}

/// What stands first, by the first byte.
#[tactic(auto, unfolding(crate::specs::Bytes::front))]
fn front_by(b: u8, bytes: &[u8], rest: &[u8]) -> Front
    requires parts { bytes.now ≡ b ∷ rest.now }
    requires short { length bytes.now < 2 ^ 62 }
    ensures { result ≡ front b rest.now }
{
    if is_blank(b) {
        Front::Skip(1)
    } else if b == b'/' {
        comment_front(rest)
    } else if is_letter(b) {
        word_front(bytes)
    } else if is_digit(b) {
        Front::Token(Kind::Number, run(ByteClass::Digit, rest) + 1)
    } else if b == b'%' {
        value_front(rest)
    } else if is_sign(b) {
        sign_front(b, rest)
    } else if b == b'"' {
        quoted_front(rest)
    } else {
        mark_front(b, rest)
    }
}

/// What stands first in a text, and nothing at its end. It looks at no byte behind a token but those that decide where
/// the token ends.
pub fn first_front(bytes: &[u8]) -> Option<Front>
    requires short { length bytes.now < 2 ^ 62 }
    ensures exact { result ≡ first_front bytes.now }
    ensures within { IfSome result (λ f. Within f (length bytes.now)) }
{
    match bytes {
        [] => None,
        [b, rest @ ..] => Some(front_by(*b, bytes, rest)),
    }
}
