//! Functions, and whole texts.

use super::maps::WrittenMap;
use super::operations::Statement;
use mlir_base::List;
use script_syntax::Sequence;
use text_format::Token;

/// `#name = affine_map<tokens>`
#[derive(Drop)]
pub struct AliasLine<'a> {
    pub name: Token<'a>,
    pub map: WrittenMap<'a>,
}

/// `%name: ty`, a parameter of a function.
#[derive(Drop)]
pub struct Param<'a> {
    pub name: Token<'a>,
    pub ty: Token<'a>,
}

/// `return` or `func.return`
#[derive(Drop)]
pub enum ReturnName<'a> {
    Short(Token<'a>),
    Long(Token<'a>),
}

/// `, ty`, a result of a function behind the second.
#[derive(Drop)]
pub struct NextResult<'a> {
    pub ty: Token<'a>,
}

/// `(ty, ty)`, the results of a function that has several.
#[derive(Drop)]
pub struct SeveralResults<'a> {
    pub first: Token<'a>,
    pub second: Token<'a>,
    pub more: List<NextResult<'a>>,
}

/// `-> ty` or `-> (ty, ty)`, the results of a function that has some.
#[derive(Drop)]
pub enum ResultTypes<'a> {
    One(Token<'a>),
    Several(SeveralResults<'a>),
}

/// `, %name`, a value that is returned behind the first.
#[derive(Drop)]
pub struct NextValue<'a> {
    pub name: Token<'a>,
}

/// `, ty`, the type of a returned value behind the first.
#[derive(Drop)]
pub struct ReturnType<'a> {
    pub comma: Token<'a>,
    pub ty: Token<'a>,
}

/// `%a, %b : ty, ty }`, the values that are returned, a type for each, and the brace that closes the function.
#[derive(Drop)]
pub struct ReturnedValues<'a> {
    pub first: Token<'a>,
    pub more: List<NextValue<'a>>,
    pub first_type: Token<'a>,
    pub more_types: List<ReturnType<'a>>,
    pub close: Token<'a>,
}

/// What stands behind `return`: the brace that closes the function, or values and then the brace.
#[derive(Drop)]
pub enum Returned<'a> {
    Nothing(Token<'a>),
    Values(ReturnedValues<'a>),
}

/// `func.func @name(params) -> (ty, ty) { statements return %a, %b : ty, ty }`
#[derive(Drop)]
pub struct Function<'a> {
    pub keyword: Token<'a>,
    pub name: Token<'a>,
    pub params: List<Param<'a>>,
    pub results: Option<ResultTypes<'a>>,
    pub statements: List<Statement<'a>>,
    pub return_name: ReturnName<'a>,
    pub returned: Returned<'a>,
}

/// `attributes {transform.with_named_sequence}`, which a module has that may hold a script.
#[derive(Drop)]
pub struct ModuleAttributes<'a> {
    pub keyword: Token<'a>,
}

/// `module attributes {transform.with_named_sequence} { script }`, a script's own module inside of another one.
#[derive(Drop)]
pub struct ScriptModule<'a> {
    pub keyword: Token<'a>,
    pub script: Sequence<'a>,
}

/// Functions behind a module's script, and the brace that closes the module.
#[derive(Drop)]
pub struct FunctionsEnd<'a> {
    pub functions: List<Function<'a>>,
    pub close: Token<'a>,
}

/// What stands behind the first functions of a module: the brace that closes it, or a script or a script's own module, and more
/// functions.
#[derive(Drop)]
pub enum ModuleRest<'a> {
    End(Token<'a>),
    Script(Sequence<'a>, FunctionsEnd<'a>),
    Nested(ScriptModule<'a>, FunctionsEnd<'a>),
}

/// `module { functions }`, or a module with functions and a script.
#[derive(Drop)]
pub struct Enclosed<'a> {
    pub keyword: Token<'a>,
    pub attributes: Option<ModuleAttributes<'a>>,
    pub brace: Token<'a>,
    pub functions: List<Function<'a>>,
    pub rest: ModuleRest<'a>,
}

/// An alias, a function, or a module with functions or a script.
#[derive(Drop)]
pub enum Item<'a> {
    Alias(AliasLine<'a>),
    Function(Function<'a>),
    Module(Enclosed<'a>),
}

/// A text: its items, in order.
#[derive(Drop)]
pub struct Text<'a> {
    pub items: List<Item<'a>>,
}
