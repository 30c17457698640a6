//! How a payload's block is read.

ghost use Rattle.mlir_syntax.specs.Payloads.{block_arg, next_arg, block_args, step, region};
ghost use Rattle.mlir_syntax.specs.PayloadLaws.{block_arg-exact, next_arg-exact, block_args-exact, step-open, region-exact};

use crate::tree::{BlockArg, BlockArgs, NextArg, Region, Step, StepOperation};
use mlir_base::Memory;
use std::alloc::Global;
use text_format::{
    Class, Lexeme, Node, OpenNode, OpenTree, Parser, Position, Tree, many, many_open,
};

impl<'a> Tree for BlockArg<'a> {
    ghost format = { block_arg };

    ghost exact = { block_arg-exact };
}

impl<'a> Node<'a> for BlockArg<'a> {
    #[tactic(auto, unfolding(crate::specs::Payloads::block_arg))]
    fn read(_alloc: Global, parser: &mut Parser<'a>) -> Result<BlockArg<'a>, Memory> {
        let name = parser.leaf(Class::NewValue);
        parser.fixed(Lexeme::Colon);
        let ty = parser.leaf(Class::ElementType);
        Ok(BlockArg { name, ty })
    }
}

impl<'a> Tree for NextArg<'a> {
    ghost format = { next_arg };

    ghost exact = { next_arg-exact };
}

impl<'a> Node<'a> for NextArg<'a> {
    #[tactic(auto, unfolding(crate::specs::Payloads::next_arg))]
    fn read(_alloc: Global, parser: &mut Parser<'a>) -> Result<NextArg<'a>, Memory> {
        let comma = parser.leaf(Class::Exactly(Lexeme::Comma));
        let name = parser.leaf(Class::NewValue);
        parser.fixed(Lexeme::Colon);
        let ty = parser.leaf(Class::ElementType);
        Ok(NextArg { comma, name, ty })
    }
}

impl<'a> Tree for BlockArgs<'a> {
    ghost format = { block_args };

    ghost exact = { block_args-exact };
}

impl<'a> Node<'a> for BlockArgs<'a> {
    #[tactic(auto, unfolding(crate::specs::Payloads::block_args, crate::specs::Payloads::next_arg))]
    fn read(alloc: Global, parser: &mut Parser<'a>) -> Result<BlockArgs<'a>, Memory> {
        let first = BlockArg::read(alloc, parser)?;
        let more = many::<NextArg>(alloc, parser, Class::Exactly(Lexeme::Comma))?;
        let close = parser.leaf(Class::Exactly(Lexeme::CloseParenthesis));
        Ok(BlockArgs { first, more, close })
    }
}

impl<'a> OpenTree for Step<'a> {
    ghost format = { step };

    ghost reads = { step-open.reads };
}

impl<'a> OpenNode<'a> for Step<'a> {
    #[tactic(auto, unfolding(crate::specs::Payloads::step))]
    fn read(alloc: Global, parser: &mut Parser<'a>) -> Result<Step<'a>, Memory> {
        let result = parser.leaf(Class::NewValueAt(Position::PayloadStatement));
        parser.fixed(Lexeme::Equals);
        let operation = StepOperation::read(alloc, parser)?;
        Ok(Step { result, operation })
    }
}

impl<'a> Tree for Region<'a> {
    ghost format = { region };

    ghost exact = { region-exact };
}

impl<'a> Node<'a> for Region<'a> {
    #[tactic(auto, unfolding(crate::specs::Payloads::region, crate::specs::Payloads::step))]
    fn read(alloc: Global, parser: &mut Parser<'a>) -> Result<Region<'a>, Memory> {
        parser.fixed(Lexeme::Bb0);
        parser.fixed(Lexeme::OpenParenthesis);
        let args = BlockArgs::read(alloc, parser)?;
        parser.fixed(Lexeme::Colon);
        let steps = many_open::<Step>(
            alloc,
            parser,
            Class::NewValueAt(Position::PayloadStatement),
        )?;
        let yield_name = parser.leaf(Class::Name(Position::PayloadStatement, Lexeme::LinalgYield));
        let yielded = parser.leaf(Class::Value);
        parser.fixed(Lexeme::Colon);
        let yield_type = parser.leaf(Class::ElementType);
        Ok(Region {
            args,
            steps,
            yield_name,
            yielded,
            yield_type,
        })
    }
}
