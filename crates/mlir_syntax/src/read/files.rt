//! How functions and whole texts are read.

ghost use Rattle.mlir_syntax.specs.Files.{alias_line, param, return_name, next_result, several_results, result_types, next_value, return_type, returned_values, returned, function, module_attributes, script_module, functions_end, module_rest, enclosed, item};
ghost use Rattle.mlir_syntax.specs.FileLaws.{alias_line-exact, param-exact, return_name-exact, next_result-exact, several_results-exact, result_types-exact, next_value-exact, return_type-exact, returned_values-exact, returned-exact, function-exact, module_attributes-exact, script_module-exact, functions_end-exact, module_rest-exact, enclosed-exact, item-exact};

use crate::tree::{
    AliasLine, Enclosed, Function, FunctionsEnd, Item, ModuleAttributes, ModuleRest, NextResult,
    NextValue, Param, ResultTypes, ReturnName, ReturnType, Returned, ReturnedValues, ScriptModule,
    SeveralResults, Statement, WrittenMap,
};
use mlir_base::Memory;
use script_syntax::Sequence;
use std::alloc::Global;
use text_format::{Class, Lexeme, Node, Parser, Position, Tree, list, many, optional};

impl<'a> Tree for AliasLine<'a> {
    ghost format = { alias_line };

    ghost exact = { alias_line-exact };
}

impl<'a> Node<'a> for AliasLine<'a> {
    #[tactic(auto, unfolding(crate::specs::Files::alias_line))]
    fn read(alloc: Global, parser: &mut Parser<'a>) -> Result<AliasLine<'a>, Memory> {
        let name = parser.leaf(Class::Alias);
        parser.fixed(Lexeme::Equals);
        let map = WrittenMap::read(alloc, parser)?;
        Ok(AliasLine { name, map })
    }
}

impl<'a> Tree for Param<'a> {
    ghost format = { param };

    ghost exact = { param-exact };
}

impl<'a> Node<'a> for Param<'a> {
    #[tactic(auto, unfolding(crate::specs::Files::param))]
    fn read(_alloc: Global, parser: &mut Parser<'a>) -> Result<Param<'a>, Memory> {
        let name = parser.leaf(Class::NewValue);
        parser.fixed(Lexeme::Colon);
        let ty = parser.leaf(Class::TensorType);
        Ok(Param { name, ty })
    }
}

impl<'a> Tree for ReturnName<'a> {
    ghost format = { return_name };

    ghost exact = { return_name-exact };
}

impl<'a> Node<'a> for ReturnName<'a> {
    #[tactic(auto, unfolding(crate::specs::Files::return_name))]
    fn read(_alloc: Global, parser: &mut Parser<'a>) -> Result<ReturnName<'a>, Memory> {
        if parser.sees(Class::Exactly(Lexeme::FuncReturn)) {
            let tree = parser.leaf(Class::Exactly(Lexeme::FuncReturn));
            Ok(ReturnName::Long(tree))
        } else {
            let tree = parser.leaf(Class::Name(Position::Statement, Lexeme::Return));
            Ok(ReturnName::Short(tree))
        }
    }
}

impl<'a> Tree for NextResult<'a> {
    ghost format = { next_result };

    ghost exact = { next_result-exact };
}

impl<'a> Node<'a> for NextResult<'a> {
    #[tactic(auto, unfolding(crate::specs::Files::next_result))]
    fn read(_alloc: Global, parser: &mut Parser<'a>) -> Result<NextResult<'a>, Memory> {
        parser.fixed(Lexeme::Comma);
        let ty = parser.leaf(Class::TensorType);
        Ok(NextResult { ty })
    }
}

impl<'a> Tree for SeveralResults<'a> {
    ghost format = { several_results };

    ghost exact = { several_results-exact };
}

impl<'a> Node<'a> for SeveralResults<'a> {
    #[tactic(auto, unfolding(crate::specs::Files::several_results, crate::specs::Files::next_result))]
    fn read(alloc: Global, parser: &mut Parser<'a>) -> Result<SeveralResults<'a>, Memory> {
        parser.fixed(Lexeme::OpenParenthesis);
        let first = parser.leaf(Class::TensorType);
        parser.fixed(Lexeme::Comma);
        let second = parser.leaf(Class::TensorType);
        let more = many::<NextResult>(alloc, parser, Class::Exactly(Lexeme::Comma))?;
        parser.fixed(Lexeme::CloseParenthesis);
        Ok(SeveralResults {
            first,
            second,
            more,
        })
    }
}

impl<'a> Tree for ResultTypes<'a> {
    ghost format = { result_types };

    ghost exact = { result_types-exact };
}

impl<'a> Node<'a> for ResultTypes<'a> {
    #[tactic(auto, unfolding(crate::specs::Files::result_types))]
    fn read(alloc: Global, parser: &mut Parser<'a>) -> Result<ResultTypes<'a>, Memory> {
        parser.fixed(Lexeme::Arrow);
        if parser.sees(Class::Exactly(Lexeme::OpenParenthesis)) {
            let tree = SeveralResults::read(alloc, parser)?;
            Ok(ResultTypes::Several(tree))
        } else {
            let tree = parser.leaf(Class::TensorType);
            Ok(ResultTypes::One(tree))
        }
    }
}

impl<'a> Tree for NextValue<'a> {
    ghost format = { next_value };

    ghost exact = { next_value-exact };
}

impl<'a> Node<'a> for NextValue<'a> {
    #[tactic(auto, unfolding(crate::specs::Files::next_value))]
    fn read(_alloc: Global, parser: &mut Parser<'a>) -> Result<NextValue<'a>, Memory> {
        parser.fixed(Lexeme::Comma);
        let name = parser.leaf(Class::Value);
        Ok(NextValue { name })
    }
}

impl<'a> Tree for ReturnType<'a> {
    ghost format = { return_type };

    ghost exact = { return_type-exact };
}

impl<'a> Node<'a> for ReturnType<'a> {
    #[tactic(auto, unfolding(crate::specs::Files::return_type))]
    fn read(_alloc: Global, parser: &mut Parser<'a>) -> Result<ReturnType<'a>, Memory> {
        let comma = parser.leaf(Class::Exactly(Lexeme::Comma));
        let ty = parser.leaf(Class::TensorType);
        Ok(ReturnType { comma, ty })
    }
}

impl<'a> Tree for ReturnedValues<'a> {
    ghost format = { returned_values };

    ghost exact = { returned_values-exact };
}

impl<'a> Node<'a> for ReturnedValues<'a> {
    #[tactic(auto, unfolding(crate::specs::Files::returned_values, crate::specs::Files::next_value, crate::specs::Files::return_type))]
    fn read(alloc: Global, parser: &mut Parser<'a>) -> Result<ReturnedValues<'a>, Memory> {
        let first = parser.leaf(Class::Value);
        let more = many::<NextValue>(alloc, parser, Class::Exactly(Lexeme::Comma))?;
        parser.fixed(Lexeme::Colon);
        let first_type = parser.leaf(Class::TensorType);
        let more_types = many::<ReturnType>(alloc, parser, Class::Exactly(Lexeme::Comma))?;
        let close = parser.leaf(Class::Exactly(Lexeme::CloseBrace));
        Ok(ReturnedValues {
            first,
            more,
            first_type,
            more_types,
            close,
        })
    }
}

impl<'a> Tree for Returned<'a> {
    ghost format = { returned };

    ghost exact = { returned-exact };
}

impl<'a> Node<'a> for Returned<'a> {
    #[tactic(auto, unfolding(crate::specs::Files::returned))]
    fn read(alloc: Global, parser: &mut Parser<'a>) -> Result<Returned<'a>, Memory> {
        if parser.sees(Class::Value) {
            let tree = ReturnedValues::read(alloc, parser)?;
            Ok(Returned::Values(tree))
        } else {
            let tree = parser.leaf(Class::Exactly(Lexeme::CloseBrace));
            Ok(Returned::Nothing(tree))
        }
    }
}

impl<'a> Tree for Function<'a> {
    ghost format = { function };

    ghost exact = { function-exact };
}

impl<'a> Node<'a> for Function<'a> {
    #[tactic(auto, unfolding(crate::specs::Files::function, crate::specs::Files::param, crate::specs::Operations::statement))]
    fn read(alloc: Global, parser: &mut Parser<'a>) -> Result<Function<'a>, Memory> {
        let keyword = parser.leaf(Class::Name(Position::Item, Lexeme::FuncFunc));
        let name = parser.leaf(Class::Symbol);
        parser.fixed(Lexeme::OpenParenthesis);
        let params = list::<Param>(alloc, parser, Lexeme::CloseParenthesis)?;
        let results = optional::<ResultTypes>(alloc, parser, Class::Exactly(Lexeme::Arrow))?;
        parser.fixed(Lexeme::OpenBrace);
        let statements = many::<Statement>(alloc, parser, Class::NewValueAt(Position::Statement))?;
        let return_name = ReturnName::read(alloc, parser)?;
        let returned = Returned::read(alloc, parser)?;
        Ok(Function {
            keyword,
            name,
            params,
            results,
            statements,
            return_name,
            returned,
        })
    }
}

impl<'a> Tree for ModuleAttributes<'a> {
    ghost format = { module_attributes };

    ghost exact = { module_attributes-exact };
}

impl<'a> Node<'a> for ModuleAttributes<'a> {
    #[tactic(auto, unfolding(crate::specs::Files::module_attributes))]
    fn read(_alloc: Global, parser: &mut Parser<'a>) -> Result<ModuleAttributes<'a>, Memory> {
        let keyword = parser.leaf(Class::Exactly(Lexeme::Attributes));
        parser.fixed(Lexeme::OpenBrace);
        parser.fixed(Lexeme::WithNamedSequence);
        parser.fixed(Lexeme::CloseBrace);
        Ok(ModuleAttributes { keyword })
    }
}

impl<'a> Tree for ScriptModule<'a> {
    ghost format = { script_module };

    ghost exact = { script_module-exact };
}

impl<'a> Node<'a> for ScriptModule<'a> {
    #[tactic(auto, unfolding(crate::specs::Files::script_module))]
    fn read(alloc: Global, parser: &mut Parser<'a>) -> Result<ScriptModule<'a>, Memory> {
        let keyword = parser.leaf(Class::Exactly(Lexeme::Module));
        parser.fixed(Lexeme::Attributes);
        parser.fixed(Lexeme::OpenBrace);
        parser.fixed(Lexeme::WithNamedSequence);
        parser.fixed(Lexeme::CloseBrace);
        parser.fixed(Lexeme::OpenBrace);
        let script = Sequence::read(alloc, parser)?;
        parser.fixed(Lexeme::CloseBrace);
        Ok(ScriptModule { keyword, script })
    }
}

impl<'a> Tree for FunctionsEnd<'a> {
    ghost format = { functions_end };

    ghost exact = { functions_end-exact };
}

impl<'a> Node<'a> for FunctionsEnd<'a> {
    #[tactic(auto, unfolding(crate::specs::Files::functions_end, crate::specs::Files::function))]
    fn read(alloc: Global, parser: &mut Parser<'a>) -> Result<FunctionsEnd<'a>, Memory> {
        let functions = many::<Function>(alloc, parser, Class::Exactly(Lexeme::FuncFunc))?;
        let close = parser.leaf(Class::Name(Position::Item, Lexeme::CloseBrace));
        Ok(FunctionsEnd { functions, close })
    }
}

impl<'a> Tree for ModuleRest<'a> {
    ghost format = { module_rest };

    ghost exact = { module_rest-exact };
}

impl<'a> Node<'a> for ModuleRest<'a> {
    #[tactic(auto, unfolding(crate::specs::Files::module_rest))]
    fn read(alloc: Global, parser: &mut Parser<'a>) -> Result<ModuleRest<'a>, Memory> {
        if parser.sees(Class::Exactly(Lexeme::NamedSequence)) {
            let script = Sequence::read(alloc, parser)?;
            let rest = FunctionsEnd::read(alloc, parser)?;
            Ok(ModuleRest::Script(script, rest))
        } else if parser.sees(Class::Exactly(Lexeme::Module)) {
            let nested = ScriptModule::read(alloc, parser)?;
            let rest = FunctionsEnd::read(alloc, parser)?;
            Ok(ModuleRest::Nested(nested, rest))
        } else {
            let tree = parser.leaf(Class::Name(Position::Item, Lexeme::CloseBrace));
            Ok(ModuleRest::End(tree))
        }
    }
}

impl<'a> Tree for Enclosed<'a> {
    ghost format = { enclosed };

    ghost exact = { enclosed-exact };
}

impl<'a> Node<'a> for Enclosed<'a> {
    #[tactic(auto, unfolding(crate::specs::Files::enclosed, crate::specs::Files::module_attributes, crate::specs::Files::function))]
    fn read(alloc: Global, parser: &mut Parser<'a>) -> Result<Enclosed<'a>, Memory> {
        let keyword = parser.leaf(Class::Exactly(Lexeme::Module));
        let attributes = optional::<ModuleAttributes>(
            alloc,
            parser,
            Class::Exactly(Lexeme::Attributes),
        )?;
        let brace = parser.leaf(Class::Exactly(Lexeme::OpenBrace));
        let functions = many::<Function>(alloc, parser, Class::Exactly(Lexeme::FuncFunc))?;
        let rest = ModuleRest::read(alloc, parser)?;
        Ok(Enclosed {
            keyword,
            attributes,
            brace,
            functions,
            rest,
        })
    }
}

impl<'a> Tree for Item<'a> {
    ghost format = { item };

    ghost exact = { item-exact };
}

impl<'a> Node<'a> for Item<'a> {
    #[tactic(auto, unfolding(crate::specs::Files::item))]
    fn read(alloc: Global, parser: &mut Parser<'a>) -> Result<Item<'a>, Memory> {
        if parser.sees(Class::Alias) {
            let tree = AliasLine::read(alloc, parser)?;
            Ok(Item::Alias(tree))
        } else if parser.sees(Class::Exactly(Lexeme::Module)) {
            let tree = Enclosed::read(alloc, parser)?;
            Ok(Item::Module(tree))
        } else {
            let tree = Function::read(alloc, parser)?;
            Ok(Item::Function(tree))
        }
    }
}
