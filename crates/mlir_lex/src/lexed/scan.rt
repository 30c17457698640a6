//! The tokens of a text.

ghost use Rattle.std.specs.Prelude.{◌≤◌, length};
ghost use Rattle.mlir_lex.specs.Lexed.{Answers};

use super::Tokens;
use mlir_base::List;
use std::alloc::Global;
use text_format::LexError;

/// The tokens of a text, or its first fault: `Unclosed` where a shaped type or a quoted text isn't closed on its line, and
/// `Byte` where another byte outside a comment begins no token.
pub fn tokens(alloc: Global, text: &[u8]) -> Result<Tokens<'_>, LexError>
    requires { length text.now ≤ 4194304 }
    ensures { Answers text.now result }
{
    match text_format::tokens(alloc, text) {
        Ok(list) => Ok(Tokens {
            text,
            list: List::from_vec(list),
        }),
        Err(error) => Err(error),
    }
}
