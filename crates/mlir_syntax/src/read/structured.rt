//! How structured operations that have a name of their own are read.

ghost use Rattle.mlir_syntax.specs.Structured.{fill, factors, matmul, batch_matmul, source_and_output, transpose, broadcast};
ghost use Rattle.mlir_syntax.specs.StructuredLaws.{fill-exact, factors-exact, matmul-exact, batch_matmul-exact, source_and_output-exact, transpose-exact, broadcast-exact};

use crate::tree::{
    BatchMatmul, Broadcast, Factors, Fill, Matmul, Output, SignedNumber, SourceAndOutput, Transpose,
};
use mlir_base::Memory;
use std::alloc::Global;
use text_format::{Class, Lexeme, Node, Parser, Position, Tree, list};

impl<'a> Tree for Fill<'a> {
    ghost format = { fill };

    ghost exact = { fill-exact };
}

impl<'a> Node<'a> for Fill<'a> {
    #[tactic(auto, unfolding(crate::specs::Structured::fill))]
    fn read(alloc: Global, parser: &mut Parser<'a>) -> Result<Fill<'a>, Memory> {
        let name = parser.leaf(Class::Name(Position::Operation, Lexeme::LinalgFill));
        parser.fixed(Lexeme::Ins);
        parser.fixed(Lexeme::OpenParenthesis);
        let value = parser.leaf(Class::Value);
        parser.fixed(Lexeme::Colon);
        let value_type = parser.leaf(Class::ElementType);
        parser.fixed(Lexeme::CloseParenthesis);
        let output = Output::read(alloc, parser)?;
        parser.fixed(Lexeme::Arrow);
        let result_type = parser.leaf(Class::TensorType);
        Ok(Fill {
            name,
            value,
            value_type,
            output,
            result_type,
        })
    }
}

impl<'a> Tree for Factors<'a> {
    ghost format = { factors };

    ghost exact = { factors-exact };
}

impl<'a> Node<'a> for Factors<'a> {
    #[tactic(auto, unfolding(crate::specs::Structured::factors))]
    fn read(alloc: Global, parser: &mut Parser<'a>) -> Result<Factors<'a>, Memory> {
        parser.fixed(Lexeme::Ins);
        parser.fixed(Lexeme::OpenParenthesis);
        let left = parser.leaf(Class::Value);
        parser.fixed(Lexeme::Comma);
        let right = parser.leaf(Class::Value);
        parser.fixed(Lexeme::Colon);
        let left_type = parser.leaf(Class::TensorType);
        parser.fixed(Lexeme::Comma);
        let right_type = parser.leaf(Class::TensorType);
        parser.fixed(Lexeme::CloseParenthesis);
        let output = Output::read(alloc, parser)?;
        parser.fixed(Lexeme::Arrow);
        let result_type = parser.leaf(Class::TensorType);
        Ok(Factors {
            left,
            right,
            left_type,
            right_type,
            output,
            result_type,
        })
    }
}

impl<'a> Tree for Matmul<'a> {
    ghost format = { matmul };

    ghost exact = { matmul-exact };
}

impl<'a> Node<'a> for Matmul<'a> {
    #[tactic(auto, unfolding(crate::specs::Structured::matmul))]
    fn read(alloc: Global, parser: &mut Parser<'a>) -> Result<Matmul<'a>, Memory> {
        let name = parser.leaf(Class::Name(Position::Operation, Lexeme::LinalgMatmul));
        let factors = Factors::read(alloc, parser)?;
        Ok(Matmul { name, factors })
    }
}

impl<'a> Tree for BatchMatmul<'a> {
    ghost format = { batch_matmul };

    ghost exact = { batch_matmul-exact };
}

impl<'a> Node<'a> for BatchMatmul<'a> {
    #[tactic(auto, unfolding(crate::specs::Structured::batch_matmul))]
    fn read(alloc: Global, parser: &mut Parser<'a>) -> Result<BatchMatmul<'a>, Memory> {
        let name = parser.leaf(Class::Name(Position::Operation, Lexeme::LinalgBatchMatmul));
        let factors = Factors::read(alloc, parser)?;
        Ok(BatchMatmul { name, factors })
    }
}

impl<'a> Tree for SourceAndOutput<'a> {
    ghost format = { source_and_output };

    ghost exact = { source_and_output-exact };
}

impl<'a> Node<'a> for SourceAndOutput<'a> {
    #[tactic(auto, unfolding(crate::specs::Structured::source_and_output))]
    fn read(alloc: Global, parser: &mut Parser<'a>) -> Result<SourceAndOutput<'a>, Memory> {
        parser.fixed(Lexeme::Ins);
        parser.fixed(Lexeme::OpenParenthesis);
        let source = parser.leaf(Class::Value);
        parser.fixed(Lexeme::Colon);
        let source_type = parser.leaf(Class::TensorType);
        parser.fixed(Lexeme::CloseParenthesis);
        let output = Output::read(alloc, parser)?;
        Ok(SourceAndOutput {
            source,
            source_type,
            output,
        })
    }
}

impl<'a> Tree for Transpose<'a> {
    ghost format = { transpose };

    ghost exact = { transpose-exact };
}

impl<'a> Node<'a> for Transpose<'a> {
    #[tactic(auto, unfolding(crate::specs::Structured::transpose))]
    fn read(alloc: Global, parser: &mut Parser<'a>) -> Result<Transpose<'a>, Memory> {
        let name = parser.leaf(Class::Name(Position::Operation, Lexeme::LinalgTranspose));
        let operands = SourceAndOutput::read(alloc, parser)?;
        parser.fixed(Lexeme::Permutation);
        parser.fixed(Lexeme::Equals);
        parser.fixed(Lexeme::OpenBracket);
        let axes = list::<SignedNumber>(alloc, parser, Lexeme::CloseBracket)?;
        Ok(Transpose {
            name,
            operands,
            axes,
        })
    }
}

impl<'a> Tree for Broadcast<'a> {
    ghost format = { broadcast };

    ghost exact = { broadcast-exact };
}

impl<'a> Node<'a> for Broadcast<'a> {
    #[tactic(auto, unfolding(crate::specs::Structured::broadcast))]
    fn read(alloc: Global, parser: &mut Parser<'a>) -> Result<Broadcast<'a>, Memory> {
        let name = parser.leaf(Class::Name(Position::Operation, Lexeme::LinalgBroadcast));
        let operands = SourceAndOutput::read(alloc, parser)?;
        parser.fixed(Lexeme::Dimensions);
        parser.fixed(Lexeme::Equals);
        parser.fixed(Lexeme::OpenBracket);
        let axes = list::<SignedNumber>(alloc, parser, Lexeme::CloseBracket)?;
        Ok(Broadcast {
            name,
            operands,
            axes,
        })
    }
}
