//! How operations are read.

ghost use Rattle.std.specs.Prelude.{◌≡◌};
ghost use Rattle.text_format.specs.Formats.{sees};
ghost use Rattle.text_format.specs.declared.class.Class.TheVariants.{Name};
ghost use Rattle.text_format.specs.declared.class.Position.TheVariants as at;
ghost use Rattle.mlir_syntax.specs.Operations.{empty, operation, statement};
ghost use Rattle.mlir_syntax.specs.OperationLaws.{empty-exact, operation-exact, statement-exact};

use crate::tree::{
    BatchMatmul, Broadcast, Constant, Empty, Fill, Generic, Matmul, Operation, Statement, Transpose,
};
use mlir_base::Memory;
use std::alloc::Global;
use text_format::{Class, Lexeme, Node, Parser, Position, Tree};

impl<'a> Tree for Empty<'a> {
    ghost format = { empty };

    ghost exact = { empty-exact };
}

impl<'a> Node<'a> for Empty<'a> {
    #[tactic(auto, unfolding(crate::specs::Operations::empty))]
    fn read(_alloc: Global, parser: &mut Parser<'a>) -> Result<Empty<'a>, Memory> {
        let name = parser.leaf(Class::Name(Position::Operation, Lexeme::TensorEmpty));
        parser.fixed(Lexeme::OpenParenthesis);
        parser.fixed(Lexeme::CloseParenthesis);
        parser.fixed(Lexeme::Colon);
        let ty = parser.leaf(Class::TensorType);
        Ok(Empty { name, ty })
    }
}

/// Whether the name of this operation comes next.
fn sees_name(parser: &Parser<'_>, name: Lexeme) -> bool
    ensures { result ≡ sees (Name at.Operation name) parser.now }
{
    parser.sees(Class::Name(Position::Operation, name))
}

impl<'a> Tree for Operation<'a> {
    ghost format = { operation };

    ghost exact = { operation-exact };
}

impl<'a> Node<'a> for Operation<'a> {
    #[tactic(auto, unfolding(crate::specs::Operations::operation, crate::specs::Operations::named))]
    fn read(alloc: Global, parser: &mut Parser<'a>) -> Result<Operation<'a>, Memory> {
        if sees_name(parser, Lexeme::ArithConstant) {
            let tree = Constant::read(alloc, parser)?;
            Ok(Operation::Constant(tree))
        } else if sees_name(parser, Lexeme::TensorEmpty) {
            let tree = Empty::read(alloc, parser)?;
            Ok(Operation::Empty(tree))
        } else if sees_name(parser, Lexeme::LinalgGeneric) {
            let tree = Generic::read(alloc, parser)?;
            Ok(Operation::Generic(tree))
        } else if sees_name(parser, Lexeme::LinalgFill) {
            let tree = Fill::read(alloc, parser)?;
            Ok(Operation::Fill(tree))
        } else if sees_name(parser, Lexeme::LinalgMatmul) {
            let tree = Matmul::read(alloc, parser)?;
            Ok(Operation::Matmul(tree))
        } else if sees_name(parser, Lexeme::LinalgBatchMatmul) {
            let tree = BatchMatmul::read(alloc, parser)?;
            Ok(Operation::BatchMatmul(tree))
        } else if sees_name(parser, Lexeme::LinalgTranspose) {
            let tree = Transpose::read(alloc, parser)?;
            Ok(Operation::Transpose(tree))
        } else {
            let tree = Broadcast::read(alloc, parser)?;
            Ok(Operation::Broadcast(tree))
        }
    }
}

impl<'a> Tree for Statement<'a> {
    ghost format = { statement };

    ghost exact = { statement-exact };
}

impl<'a> Node<'a> for Statement<'a> {
    #[tactic(auto, unfolding(crate::specs::Operations::statement))]
    fn read(alloc: Global, parser: &mut Parser<'a>) -> Result<Statement<'a>, Memory> {
        let result = parser.leaf(Class::NewValueAt(Position::Statement));
        parser.fixed(Lexeme::Equals);
        let operation = Operation::read(alloc, parser)?;
        Ok(Statement { result, operation })
    }
}
