//! How the types at the end of a step are read.

ghost use Rattle.std.specs.Prelude.{◌≡◌};
ghost use Rattle.script_syntax.specs.Results.{to_one, to_two, both_to_two, to_three, to_four, to_any};

use text_format::{Lexeme, Parser};

/// `: (!transform.any_op) ->`
#[tactic(auto, unfolding(crate::specs::Results::to_any))]
pub fn read_to_any(parser: &mut Parser)
    ensures { parser.new ≡ (to_any.read parser.old).1 }
{
    parser.fixed(Lexeme::Colon);
    parser.fixed(Lexeme::OpenParenthesis);
    parser.fixed(Lexeme::AnyOp);
    parser.fixed(Lexeme::CloseParenthesis);
    parser.fixed(Lexeme::Arrow);
}

/// `: (!transform.any_op) -> !transform.any_op`
#[tactic(auto, unfolding(crate::specs::Results::to_any, crate::specs::Results::to_one))]
pub fn read_to_one(parser: &mut Parser)
    ensures { parser.new ≡ (to_one.read parser.old).1 }
{
    read_to_any(parser);
    parser.fixed(Lexeme::AnyOp);
}

/// `: (!transform.any_op) -> (!transform.any_op, !transform.any_op)`
#[tactic(auto, unfolding(crate::specs::Results::to_any, crate::specs::Results::to_two))]
pub fn read_to_two(parser: &mut Parser)
    ensures { parser.new ≡ (to_two.read parser.old).1 }
{
    read_to_any(parser);
    parser.fixed(Lexeme::OpenParenthesis);
    parser.fixed(Lexeme::AnyOp);
    parser.fixed(Lexeme::Comma);
    parser.fixed(Lexeme::AnyOp);
    parser.fixed(Lexeme::CloseParenthesis);
}

/// `: (!transform.any_op, !transform.any_op) -> (!transform.any_op, !transform.any_op)`
#[tactic(auto, unfolding(crate::specs::Results::both_to_two))]
pub fn read_both_to_two(parser: &mut Parser)
    ensures { parser.new ≡ (both_to_two.read parser.old).1 }
{
    parser.fixed(Lexeme::Colon);
    parser.fixed(Lexeme::OpenParenthesis);
    parser.fixed(Lexeme::AnyOp);
    parser.fixed(Lexeme::Comma);
    parser.fixed(Lexeme::AnyOp);
    parser.fixed(Lexeme::CloseParenthesis);
    parser.fixed(Lexeme::Arrow);
    parser.fixed(Lexeme::OpenParenthesis);
    parser.fixed(Lexeme::AnyOp);
    parser.fixed(Lexeme::Comma);
    parser.fixed(Lexeme::AnyOp);
    parser.fixed(Lexeme::CloseParenthesis);
}

/// `: (!transform.any_op) -> (!transform.any_op, !transform.any_op, !transform.any_op)`
#[tactic(auto, unfolding(crate::specs::Results::to_any, crate::specs::Results::to_three))]
pub fn read_to_three(parser: &mut Parser)
    ensures { parser.new ≡ (to_three.read parser.old).1 }
{
    read_to_any(parser);
    parser.fixed(Lexeme::OpenParenthesis);
    parser.fixed(Lexeme::AnyOp);
    parser.fixed(Lexeme::Comma);
    parser.fixed(Lexeme::AnyOp);
    parser.fixed(Lexeme::Comma);
    parser.fixed(Lexeme::AnyOp);
    parser.fixed(Lexeme::CloseParenthesis);
}

/// `: (!transform.any_op) -> (!transform.any_op, !transform.any_op, !transform.any_op, !transform.any_op`
#[tactic(auto, unfolding(crate::specs::Results::to_any, crate::specs::Results::to_four))]
pub fn read_to_four(parser: &mut Parser)
    ensures { parser.new ≡ (to_four.read parser.old).1 }
{
    read_to_any(parser);
    parser.fixed(Lexeme::OpenParenthesis);
    parser.fixed(Lexeme::AnyOp);
    parser.fixed(Lexeme::Comma);
    parser.fixed(Lexeme::AnyOp);
    parser.fixed(Lexeme::Comma);
    parser.fixed(Lexeme::AnyOp);
    parser.fixed(Lexeme::Comma);
    parser.fixed(Lexeme::AnyOp);
}
