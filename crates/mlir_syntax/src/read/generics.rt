//! How generic operations are read.

ghost use Rattle.mlir_syntax.specs.Generics.{iterator_type, next_input, next_type, input_types, inputs, output, operands, generic};
ghost use Rattle.mlir_syntax.specs.GenericLaws.{iterator_type-exact, next_input-exact, next_type-exact, input_types-exact, inputs-exact, output-exact, operands-exact, generic-exact};

use crate::tree::{
    Generic, InputTypes, Inputs, IteratorType, MapUse, NextInput, NextType, Operands, Output,
    Region,
};
use mlir_base::Memory;
use std::alloc::Global;
use text_format::{Class, Lexeme, Node, Parser, Position, Tree, list, many, optional};

impl<'a> Tree for IteratorType<'a> {
    ghost format = { iterator_type };

    ghost exact = { iterator_type-exact };
}

impl<'a> Node<'a> for IteratorType<'a> {
    #[tactic(auto, unfolding(crate::specs::Generics::iterator_type))]
    fn read(_alloc: Global, parser: &mut Parser<'a>) -> Result<IteratorType<'a>, Memory> {
        let word = parser.leaf(Class::Iterator);
        Ok(IteratorType { word })
    }
}

impl<'a> Tree for NextInput<'a> {
    ghost format = { next_input };

    ghost exact = { next_input-exact };
}

impl<'a> Node<'a> for NextInput<'a> {
    #[tactic(auto, unfolding(crate::specs::Generics::next_input))]
    fn read(_alloc: Global, parser: &mut Parser<'a>) -> Result<NextInput<'a>, Memory> {
        parser.fixed(Lexeme::Comma);
        let name = parser.leaf(Class::Value);
        Ok(NextInput { name })
    }
}

impl<'a> Tree for NextType<'a> {
    ghost format = { next_type };

    ghost exact = { next_type-exact };
}

impl<'a> Node<'a> for NextType<'a> {
    #[tactic(auto, unfolding(crate::specs::Generics::next_type))]
    fn read(_alloc: Global, parser: &mut Parser<'a>) -> Result<NextType<'a>, Memory> {
        let comma = parser.leaf(Class::Exactly(Lexeme::Comma));
        let ty = parser.leaf(Class::OperandType);
        Ok(NextType { comma, ty })
    }
}

impl<'a> Tree for InputTypes<'a> {
    ghost format = { input_types };

    ghost exact = { input_types-exact };
}

impl<'a> Node<'a> for InputTypes<'a> {
    #[tactic(auto, unfolding(crate::specs::Generics::input_types, crate::specs::Generics::next_type))]
    fn read(alloc: Global, parser: &mut Parser<'a>) -> Result<InputTypes<'a>, Memory> {
        let first = parser.leaf(Class::OperandType);
        let more = many::<NextType>(alloc, parser, Class::Exactly(Lexeme::Comma))?;
        let close = parser.leaf(Class::Exactly(Lexeme::CloseParenthesis));
        Ok(InputTypes { first, more, close })
    }
}

impl<'a> Tree for Inputs<'a> {
    ghost format = { inputs };

    ghost exact = { inputs-exact };
}

impl<'a> Node<'a> for Inputs<'a> {
    #[tactic(auto, unfolding(crate::specs::Generics::inputs, crate::specs::Generics::next_input))]
    fn read(alloc: Global, parser: &mut Parser<'a>) -> Result<Inputs<'a>, Memory> {
        parser.fixed(Lexeme::Ins);
        parser.fixed(Lexeme::OpenParenthesis);
        let first = parser.leaf(Class::Value);
        let more = many::<NextInput>(alloc, parser, Class::Exactly(Lexeme::Comma))?;
        parser.fixed(Lexeme::Colon);
        let types = InputTypes::read(alloc, parser)?;
        Ok(Inputs { first, more, types })
    }
}

impl<'a> Tree for Output<'a> {
    ghost format = { output };

    ghost exact = { output-exact };
}

impl<'a> Node<'a> for Output<'a> {
    #[tactic(auto, unfolding(crate::specs::Generics::output))]
    fn read(_alloc: Global, parser: &mut Parser<'a>) -> Result<Output<'a>, Memory> {
        parser.fixed(Lexeme::Outs);
        parser.fixed(Lexeme::OpenParenthesis);
        let name = parser.leaf(Class::Value);
        parser.fixed(Lexeme::Colon);
        let ty = parser.leaf(Class::TensorType);
        parser.fixed(Lexeme::CloseParenthesis);
        Ok(Output { name, ty })
    }
}

impl<'a> Tree for Operands<'a> {
    ghost format = { operands };

    ghost exact = { operands-exact };
}

impl<'a> Node<'a> for Operands<'a> {
    #[tactic(auto, unfolding(crate::specs::Generics::operands))]
    fn read(alloc: Global, parser: &mut Parser<'a>) -> Result<Operands<'a>, Memory> {
        let inputs = optional::<Inputs>(alloc, parser, Class::Exactly(Lexeme::Ins))?;
        let output = Output::read(alloc, parser)?;
        Ok(Operands { inputs, output })
    }
}

impl<'a> Tree for Generic<'a> {
    ghost format = { generic };

    ghost exact = { generic-exact };
}

impl<'a> Node<'a> for Generic<'a> {
    #[tactic(auto, unfolding(crate::specs::Generics::generic))]
    fn read(alloc: Global, parser: &mut Parser<'a>) -> Result<Generic<'a>, Memory> {
        let name = parser.leaf(Class::Name(Position::Operation, Lexeme::LinalgGeneric));
        parser.fixed(Lexeme::OpenBrace);
        parser.fixed(Lexeme::IndexingMaps);
        parser.fixed(Lexeme::Equals);
        parser.fixed(Lexeme::OpenBracket);
        let maps = list::<MapUse>(alloc, parser, Lexeme::CloseBracket)?;
        parser.fixed(Lexeme::Comma);
        parser.fixed(Lexeme::IteratorTypes);
        parser.fixed(Lexeme::Equals);
        parser.fixed(Lexeme::OpenBracket);
        let iterators = list::<IteratorType>(alloc, parser, Lexeme::CloseBracket)?;
        parser.fixed(Lexeme::CloseBrace);
        let operands = Operands::read(alloc, parser)?;
        parser.fixed(Lexeme::OpenBrace);
        let region = Region::read(alloc, parser)?;
        parser.fixed(Lexeme::CloseBrace);
        parser.fixed(Lexeme::Arrow);
        let result_type = parser.leaf(Class::TensorType);
        Ok(Generic {
            name,
            maps,
            iterators,
            operands,
            region,
            result_type,
        })
    }
}
