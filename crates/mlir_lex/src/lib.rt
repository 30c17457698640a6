//! The tokens of a module's text, and why a text is refused.
//!
//! `tokens` gives a text's tokens, or the first place at which it has none. `Tokens` lends the text (`text`), the tokens by
//! their places (`list`), and each token with its bytes (`token`). `ReadError` is what every reader above answers for a text
//! that it refuses. `Fault` is what a tree is refused for, with its place, and `stop_error` the refusal where reading stopped.
//!
//! What a token is stands in `text_format`, in specs/Bytes.antt and specs/Tokens.antt; what a `Tokens` keeps stands here, in
//! specs/Lexed.antt. specs/Chain.antt has definitions that may find a fault, one after the other, and specs/Faults.antt which
//! fault of a text is its first.
#![tactic(auto)]

mod fault;
mod lexed;
mod read_error;

pub use fault::{Fault, Refused, stop_error};
pub use lexed::Tokens;
pub use lexed::scan::tokens;
pub use read_error::ReadError;
pub use text_format::{Kind as TokenKind, LexError, Span as Token};
