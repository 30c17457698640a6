//! How the operations of a payload's steps are read.

ghost use Rattle.mlir_syntax.specs.Steps.{constant_step, binary_step, compare_step, select_step, conversion, cast_step, index_cast_step, index_step, apply_operand, apply_symbols, apply_step, step_operation};
ghost use Rattle.mlir_syntax.specs.StepLaws.{constant_step-exact, binary_step-exact, compare_step-exact, select_step-exact, conversion-exact, cast_step-exact, index_cast_step-exact, index_step-exact, apply_operand-exact, apply_symbols-exact, apply_step-open, step_operation-open};

use crate::tree::{
    ApplyOperand, ApplyStep, ApplySymbols, BinaryStep, CastStep, CompareStep, ConstantStep,
    Conversion, IndexCastStep, IndexStep, MapUse, ScalarLiteral, SelectStep, StepOperation,
};
use mlir_base::Memory;
use std::alloc::Global;
use text_format::{
    Class, Lexeme, Node, OpenNode, OpenTree, Parser, Position, Tree, list, list_with_close,
    optional,
};

impl<'a> Tree for ConstantStep<'a> {
    ghost format = { constant_step };

    ghost exact = { constant_step-exact };
}

impl<'a> Node<'a> for ConstantStep<'a> {
    #[tactic(auto, unfolding(crate::specs::Steps::constant_step))]
    fn read(alloc: Global, parser: &mut Parser<'a>) -> Result<ConstantStep<'a>, Memory> {
        let name = parser.leaf(Class::Name(Position::PayloadStep, Lexeme::ArithConstant));
        let literal = ScalarLiteral::read(alloc, parser)?;
        Ok(ConstantStep { name, literal })
    }
}

impl<'a> Tree for BinaryStep<'a> {
    ghost format = { binary_step };

    ghost exact = { binary_step-exact };
}

impl<'a> Node<'a> for BinaryStep<'a> {
    #[tactic(auto, unfolding(crate::specs::Steps::binary_step))]
    fn read(_alloc: Global, parser: &mut Parser<'a>) -> Result<BinaryStep<'a>, Memory> {
        let name = parser.leaf(Class::BinaryName(Position::PayloadStep));
        let left = parser.leaf(Class::Value);
        parser.fixed(Lexeme::Comma);
        let right = parser.leaf(Class::Value);
        parser.fixed(Lexeme::Colon);
        let ty = parser.leaf(Class::ElementType);
        Ok(BinaryStep {
            name,
            left,
            right,
            ty,
        })
    }
}

impl<'a> Tree for CompareStep<'a> {
    ghost format = { compare_step };

    ghost exact = { compare_step-exact };
}

impl<'a> Node<'a> for CompareStep<'a> {
    #[tactic(auto, unfolding(crate::specs::Steps::compare_step))]
    fn read(_alloc: Global, parser: &mut Parser<'a>) -> Result<CompareStep<'a>, Memory> {
        let name = parser.leaf(Class::Name(Position::PayloadStep, Lexeme::ArithCmpi));
        let predicate = parser.leaf(Class::Predicate);
        parser.fixed(Lexeme::Comma);
        let left = parser.leaf(Class::Value);
        parser.fixed(Lexeme::Comma);
        let right = parser.leaf(Class::Value);
        parser.fixed(Lexeme::Colon);
        let ty = parser.leaf(Class::ElementType);
        Ok(CompareStep {
            name,
            predicate,
            left,
            right,
            ty,
        })
    }
}

impl<'a> Tree for SelectStep<'a> {
    ghost format = { select_step };

    ghost exact = { select_step-exact };
}

impl<'a> Node<'a> for SelectStep<'a> {
    #[tactic(auto, unfolding(crate::specs::Steps::select_step))]
    fn read(_alloc: Global, parser: &mut Parser<'a>) -> Result<SelectStep<'a>, Memory> {
        let name = parser.leaf(Class::Name(Position::PayloadStep, Lexeme::ArithSelect));
        let condition = parser.leaf(Class::Value);
        parser.fixed(Lexeme::Comma);
        let chosen = parser.leaf(Class::Value);
        parser.fixed(Lexeme::Comma);
        let other = parser.leaf(Class::Value);
        parser.fixed(Lexeme::Colon);
        let ty = parser.leaf(Class::ElementType);
        Ok(SelectStep {
            name,
            condition,
            chosen,
            other,
            ty,
        })
    }
}

impl<'a> Tree for Conversion<'a> {
    ghost format = { conversion };

    ghost exact = { conversion-exact };
}

impl<'a> Node<'a> for Conversion<'a> {
    #[tactic(auto, unfolding(crate::specs::Steps::conversion))]
    fn read(_alloc: Global, parser: &mut Parser<'a>) -> Result<Conversion<'a>, Memory> {
        let value = parser.leaf(Class::Value);
        parser.fixed(Lexeme::Colon);
        let from = parser.leaf(Class::ElementType);
        parser.fixed(Lexeme::To);
        let to = parser.leaf(Class::ElementType);
        Ok(Conversion { value, from, to })
    }
}

impl<'a> Tree for CastStep<'a> {
    ghost format = { cast_step };

    ghost exact = { cast_step-exact };
}

impl<'a> Node<'a> for CastStep<'a> {
    #[tactic(auto, unfolding(crate::specs::Steps::cast_step))]
    fn read(alloc: Global, parser: &mut Parser<'a>) -> Result<CastStep<'a>, Memory> {
        let name = parser.leaf(Class::CastName(Position::PayloadStep));
        let conversion = Conversion::read(alloc, parser)?;
        Ok(CastStep { name, conversion })
    }
}

impl<'a> Tree for IndexCastStep<'a> {
    ghost format = { index_cast_step };

    ghost exact = { index_cast_step-exact };
}

impl<'a> Node<'a> for IndexCastStep<'a> {
    #[tactic(auto, unfolding(crate::specs::Steps::index_cast_step))]
    fn read(alloc: Global, parser: &mut Parser<'a>) -> Result<IndexCastStep<'a>, Memory> {
        let name = parser.leaf(Class::Name(Position::PayloadStep, Lexeme::ArithIndexCast));
        let conversion = Conversion::read(alloc, parser)?;
        Ok(IndexCastStep { name, conversion })
    }
}

impl<'a> Tree for IndexStep<'a> {
    ghost format = { index_step };

    ghost exact = { index_step-exact };
}

impl<'a> Node<'a> for IndexStep<'a> {
    #[tactic(auto, unfolding(crate::specs::Steps::index_step))]
    fn read(_alloc: Global, parser: &mut Parser<'a>) -> Result<IndexStep<'a>, Memory> {
        let name = parser.leaf(Class::Name(Position::PayloadStep, Lexeme::LinalgIndex));
        let dimension = parser.leaf(Class::Number);
        parser.fixed(Lexeme::Colon);
        parser.fixed(Lexeme::Index);
        Ok(IndexStep { name, dimension })
    }
}

impl<'a> Tree for ApplyOperand<'a> {
    ghost format = { apply_operand };

    ghost exact = { apply_operand-exact };
}

impl<'a> Node<'a> for ApplyOperand<'a> {
    #[tactic(auto, unfolding(crate::specs::Steps::apply_operand))]
    fn read(_alloc: Global, parser: &mut Parser<'a>) -> Result<ApplyOperand<'a>, Memory> {
        let name = parser.leaf(Class::Value);
        Ok(ApplyOperand { name })
    }
}

impl<'a> Tree for ApplySymbols<'a> {
    ghost format = { apply_symbols };

    ghost exact = { apply_symbols-exact };
}

impl<'a> Node<'a> for ApplySymbols<'a> {
    #[tactic(auto, unfolding(crate::specs::Steps::apply_symbols))]
    fn read(alloc: Global, parser: &mut Parser<'a>) -> Result<ApplySymbols<'a>, Memory> {
        parser.fixed(Lexeme::OpenBracket);
        let (operands, close) = list_with_close::<ApplyOperand>(
            alloc,
            parser,
            Lexeme::CloseBracket,
        )?;
        Ok(ApplySymbols { operands, close })
    }
}

impl<'a> OpenTree for ApplyStep<'a> {
    ghost format = { apply_step };

    ghost reads = { apply_step-open.reads };
}

impl<'a> OpenNode<'a> for ApplyStep<'a> {
    #[tactic(auto, unfolding(crate::specs::Steps::apply_step))]
    fn read(alloc: Global, parser: &mut Parser<'a>) -> Result<ApplyStep<'a>, Memory> {
        let name = parser.leaf(Class::Name(Position::PayloadStep, Lexeme::AffineApply));
        let map = MapUse::read(alloc, parser)?;
        parser.fixed(Lexeme::OpenParenthesis);
        let operands = list::<ApplyOperand>(alloc, parser, Lexeme::CloseParenthesis)?;
        let symbols = optional::<ApplySymbols>(alloc, parser, Class::Exactly(Lexeme::OpenBracket))?;
        Ok(ApplyStep {
            name,
            map,
            operands,
            symbols,
        })
    }
}

impl<'a> OpenTree for StepOperation<'a> {
    ghost format = { step_operation };

    ghost reads = { step_operation-open.reads };
}

impl<'a> OpenNode<'a> for StepOperation<'a> {
    #[tactic(auto, unfolding(crate::specs::Steps::step_operation))]
    fn read(alloc: Global, parser: &mut Parser<'a>) -> Result<StepOperation<'a>, Memory> {
        let at = Position::PayloadStep;
        if parser.sees(Class::Name(at, Lexeme::AffineApply)) {
            let apply = ApplyStep::read(alloc, parser)?;
            Ok(StepOperation::Apply(apply))
        } else if parser.sees(Class::BinaryName(at)) {
            let binary = BinaryStep::read(alloc, parser)?;
            Ok(StepOperation::Binary(binary))
        } else if parser.sees(Class::Name(at, Lexeme::ArithConstant)) {
            let constant = ConstantStep::read(alloc, parser)?;
            Ok(StepOperation::Constant(constant))
        } else if parser.sees(Class::Name(at, Lexeme::ArithCmpi)) {
            let compare = CompareStep::read(alloc, parser)?;
            Ok(StepOperation::Compare(compare))
        } else if parser.sees(Class::Name(at, Lexeme::ArithSelect)) {
            let select = SelectStep::read(alloc, parser)?;
            Ok(StepOperation::Select(select))
        } else if parser.sees(Class::Name(at, Lexeme::ArithIndexCast)) {
            let cast = IndexCastStep::read(alloc, parser)?;
            Ok(StepOperation::IndexCast(cast))
        } else if parser.sees(Class::Name(at, Lexeme::LinalgIndex)) {
            let index = IndexStep::read(alloc, parser)?;
            Ok(StepOperation::Index(index))
        } else {
            let cast = CastStep::read(alloc, parser)?;
            Ok(StepOperation::Cast(cast))
        }
    }
}
