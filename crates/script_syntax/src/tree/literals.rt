//! Numbers and quoted names.

use text_format::Token;

/// `5` or `-5`
#[derive(Drop)]
pub struct Signed<'a> {
    pub minus: Option<Token<'a>>,
    pub digits: Token<'a>,
}

/// `0 : i32`, a padding value.
#[derive(Drop)]
pub struct PadValue<'a> {
    pub value: Signed<'a>,
    pub ty: Token<'a>,
}

/// `"linalg.generic"`, the name of operations that are matched.
#[derive(Drop)]
pub struct QuotedName<'a> {
    pub text: Token<'a>,
}
