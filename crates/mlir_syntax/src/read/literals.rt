//! How literals are read.

ghost use Rattle.mlir_syntax.specs.Literals.{sign, signed_number, typed_number, scalar_literal};
ghost use Rattle.mlir_syntax.specs.LiteralLaws.{sign-exact, signed_number-exact, typed_number-exact, scalar_literal-exact};

use crate::tree::{ScalarLiteral, Sign, SignedNumber, TypedNumber};
use mlir_base::Memory;
use std::alloc::Global;
use text_format::{Class, Lexeme, Node, Parser, Tree, optional};

impl<'a> Tree for Sign<'a> {
    ghost format = { sign };

    ghost exact = { sign-exact };
}

impl<'a> Node<'a> for Sign<'a> {
    #[tactic(auto, unfolding(crate::specs::Literals::sign))]
    fn read(_alloc: Global, parser: &mut Parser<'a>) -> Result<Sign<'a>, Memory> {
        let minus = parser.leaf(Class::Exactly(Lexeme::Minus));
        Ok(Sign { minus })
    }
}

impl<'a> Tree for SignedNumber<'a> {
    ghost format = { signed_number };

    ghost exact = { signed_number-exact };
}

impl<'a> Node<'a> for SignedNumber<'a> {
    #[tactic(auto, unfolding(crate::specs::Literals::signed_number))]
    fn read(alloc: Global, parser: &mut Parser<'a>) -> Result<SignedNumber<'a>, Memory> {
        let sign = optional::<Sign>(alloc, parser, Class::Exactly(Lexeme::Minus))?;
        let digits = parser.leaf(Class::Number);
        Ok(SignedNumber { sign, digits })
    }
}

impl<'a> Tree for TypedNumber<'a> {
    ghost format = { typed_number };

    ghost exact = { typed_number-exact };
}

impl<'a> Node<'a> for TypedNumber<'a> {
    #[tactic(auto, unfolding(crate::specs::Literals::typed_number))]
    fn read(alloc: Global, parser: &mut Parser<'a>) -> Result<TypedNumber<'a>, Memory> {
        let number = SignedNumber::read(alloc, parser)?;
        parser.fixed(Lexeme::Colon);
        let ty = parser.leaf(Class::ElementType);
        Ok(TypedNumber { number, ty })
    }
}

impl<'a> Tree for ScalarLiteral<'a> {
    ghost format = { scalar_literal };

    ghost exact = { scalar_literal-exact };
}

impl<'a> Node<'a> for ScalarLiteral<'a> {
    #[tactic(auto, unfolding(crate::specs::Literals::scalar_literal))]
    fn read(alloc: Global, parser: &mut Parser<'a>) -> Result<ScalarLiteral<'a>, Memory> {
        if parser.sees(Class::Boolean) {
            let word = parser.leaf(Class::Boolean);
            Ok(ScalarLiteral::Boolean(word))
        } else {
            let number = TypedNumber::read(alloc, parser)?;
            Ok(ScalarLiteral::Number(number))
        }
    }
}
