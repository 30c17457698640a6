//! How numbers and quoted names are read.

ghost use Rattle.std.specs.Prelude.{◌≡◌, IfOk};
ghost use Rattle.text_format.specs.Formats.{optional_at, leaf};
ghost use Rattle.text_format.specs.declared.class.Class.TheVariants.{Exactly};
ghost use Rattle.script_syntax.specs.Literals.{signed, pad_value, quoted_name, numbers};
ghost use Rattle.script_syntax.specs.LiteralLaws.{signed-exact, pad_value-exact, quoted_name-exact};

use crate::tree::{PadValue, QuotedName, Signed};
use mlir_base::{List, Memory};
use std::alloc::Global;
use text_format::{Class, Lexeme, Node, Parser, Token, Tree, list};

/// The fixed token, where it comes next.
#[tactic(auto, unfolding(text_format::specs::Formats::optional_at))]
pub fn read_word<'a>(parser: &mut Parser<'a>, word: Lexeme) -> Option<Token<'a>>
    ensures { (result, parser.new) ≡ optional_at (Exactly word) (leaf (Exactly word)) parser.old }
{
    if parser.sees(Class::Exactly(word)) {
        Some(parser.leaf(Class::Exactly(word)))
    } else {
        None
    }
}

impl<'a> Tree for Signed<'a> {
    ghost format = { signed };

    ghost exact = { signed-exact };
}

impl<'a> Node<'a> for Signed<'a> {
    #[tactic(auto, unfolding(crate::specs::Literals::signed))]
    fn read(_alloc: Global, parser: &mut Parser<'a>) -> Result<Signed<'a>, Memory> {
        let minus = read_word(parser, Lexeme::Minus);
        let digits = parser.leaf(Class::Number);
        Ok(Signed { minus, digits })
    }
}

impl<'a> Tree for PadValue<'a> {
    ghost format = { pad_value };

    ghost exact = { pad_value-exact };
}

impl<'a> Node<'a> for PadValue<'a> {
    #[tactic(auto, unfolding(crate::specs::Literals::pad_value))]
    fn read(alloc: Global, parser: &mut Parser<'a>) -> Result<PadValue<'a>, Memory> {
        let value = Signed::read(alloc, parser)?;
        parser.fixed(Lexeme::Colon);
        let ty = parser.leaf(Class::IntegerType);
        Ok(PadValue { value, ty })
    }
}

impl<'a> Tree for QuotedName<'a> {
    ghost format = { quoted_name };

    ghost exact = { quoted_name-exact };
}

impl<'a> Node<'a> for QuotedName<'a> {
    #[tactic(auto, unfolding(crate::specs::Literals::quoted_name))]
    fn read(_alloc: Global, parser: &mut Parser<'a>) -> Result<QuotedName<'a>, Memory> {
        let text = parser.leaf(Class::Quoted);
        Ok(QuotedName { text })
    }
}

/// `[1, 0]`
#[tactic(auto, unfolding(crate::specs::Literals::numbers))]
pub fn read_numbers<'a>(alloc: Global, parser: &mut Parser<'a>) -> Result<List<Signed<'a>>, Memory>
    ensures { IfOk result (λ x. (x, parser.new) ≡ numbers.read parser.old) }
{
    parser.fixed(Lexeme::OpenBracket);
    list::<Signed>(alloc, parser, Lexeme::CloseBracket)
}
