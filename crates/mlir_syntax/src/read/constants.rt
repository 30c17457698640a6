//! How constants are read.

ghost use Rattle.mlir_syntax.specs.Constants.{dense_piece, dense_literal, literal, constant};
ghost use Rattle.mlir_syntax.specs.ConstantLaws.{dense_piece-exact, dense_literal-exact, literal-exact, constant-exact};

use crate::tree::{Constant, DenseLiteral, DensePiece, Literal, ScalarLiteral};
use mlir_base::Memory;
use std::alloc::Global;
use text_format::{Class, Lexeme, Node, Parser, Position, Tree, many};

impl<'a> Tree for DensePiece<'a> {
    ghost format = { dense_piece };

    ghost exact = { dense_piece-exact };
}

impl<'a> Node<'a> for DensePiece<'a> {
    #[tactic(auto, unfolding(crate::specs::Constants::dense_piece))]
    fn read(_alloc: Global, parser: &mut Parser<'a>) -> Result<DensePiece<'a>, Memory> {
        let token = parser.leaf(Class::DenseToken);
        Ok(DensePiece { token })
    }
}

impl<'a> Tree for DenseLiteral<'a> {
    ghost format = { dense_literal };

    ghost exact = { dense_literal-exact };
}

impl<'a> Node<'a> for DenseLiteral<'a> {
    #[tactic(auto, unfolding(crate::specs::Constants::dense_literal, crate::specs::Constants::dense_piece))]
    fn read(alloc: Global, parser: &mut Parser<'a>) -> Result<DenseLiteral<'a>, Memory> {
        parser.fixed(Lexeme::Dense);
        parser.fixed(Lexeme::Less);
        let tokens = many::<DensePiece>(alloc, parser, Class::DenseToken)?;
        let greater = parser.leaf(Class::Exactly(Lexeme::Greater));
        parser.fixed(Lexeme::Colon);
        let ty = parser.leaf(Class::DenseType);
        Ok(DenseLiteral {
            tokens,
            greater,
            ty,
        })
    }
}

impl<'a> Tree for Literal<'a> {
    ghost format = { literal };

    ghost exact = { literal-exact };
}

impl<'a> Node<'a> for Literal<'a> {
    #[tactic(auto, unfolding(crate::specs::Constants::literal))]
    fn read(alloc: Global, parser: &mut Parser<'a>) -> Result<Literal<'a>, Memory> {
        if parser.sees(Class::Exactly(Lexeme::Dense)) {
            let dense = DenseLiteral::read(alloc, parser)?;
            Ok(Literal::Dense(dense))
        } else {
            let scalar = ScalarLiteral::read(alloc, parser)?;
            Ok(Literal::Scalar(scalar))
        }
    }
}

impl<'a> Tree for Constant<'a> {
    ghost format = { constant };

    ghost exact = { constant-exact };
}

impl<'a> Node<'a> for Constant<'a> {
    #[tactic(auto, unfolding(crate::specs::Constants::constant))]
    fn read(alloc: Global, parser: &mut Parser<'a>) -> Result<Constant<'a>, Memory> {
        let name = parser.leaf(Class::Name(Position::Operation, Lexeme::ArithConstant));
        let literal = Literal::read(alloc, parser)?;
        Ok(Constant { name, literal })
    }
}
