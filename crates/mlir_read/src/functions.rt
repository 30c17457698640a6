//! Functions.

ghost use Rattle.std.specs.Prelude.{◌≡◌, ◌<◌, OnOk, [], ◌∷◌, map};
ghost use Rattle.std.specs.List.{list_all};
ghost use Rattle.mlir_ir.specs.declared.tree.OpKind.TheVariants.{Return};
ghost use Rattle.mlir_lex.specs.Chain.{Agree, Leaves};
ghost use Rattle.mlir_scope.specs.Scope.{IsSound, IsOpening};
ghost use Rattle.mlir_read.specs.Resolve.{is_ascii, symbol_of, name_of, unknown, result_at, results_from, results_of, word_in, value_ids, more_return_types, returned_of, return_of, opened, body_of, function_of, IsFileSound};

use crate::files::FileScope;
use mlir_base::{List, Name, Which};
use mlir_ir::{Func, Op, OpId, OpKind, Ty, ValueId};
use mlir_lex::{Fault, Refused};
use mlir_resolve::{read_statements, room};
use mlir_scope::{Aliases, NameList, Names, Scope, read_params, type_at, typed_as, value_id};
use mlir_syntax::{
    Function, NextValue, ResultTypes, ReturnName, ReturnType, Returned, ReturnedValues,
    SeveralResults,
};
use std::alloc::Global;
use text_format::Token;

fn are_ascii(bytes: &[u8]) -> bool
    ensures { result ≡ list_all is_ascii bytes.now }
{
    for b in bytes {
        if *b >= 128 {
            return false;
        }
    }
    true
}

/// A symbol without its `@`.
fn symbol_of<'a>(token: &Token<'a>) -> &'a [u8]
    ensures { result.now ≡ symbol_of token.now }
{
    match token.text() {
        [_, name @ ..] => name,
        [] => &[],
    }
}

/// The name that a symbol gives.
#[tactic(auto, using(crate::proofs::Ascii::ascii_all))]
fn read_name(alloc: Global, token: &Token) -> Result<Name, Refused>
    ensures { Agree result (name_of token.now) }
{
    let name = symbol_of(token);
    if !are_ascii(name) {
        return Err(Refused::At(Fault::Syntax(token.start())));
    }
    let name = Name::from_ascii(alloc, name)?;
    Ok(name)
}

/// The name, which stands at a place, is none of these.
fn unknown(names: &NameList, at: u32, name: &[u8]) -> Result<(), Refused>
    ensures { Agree result (unknown names.now at name.now) }
{
    match names.place(name) {
        Some(_) => Err(Refused::At(Fault::Twice(at))),
        None => Ok(()),
    }
}

/// Result `number` of a function.
fn result_at(alloc: Global, number: u32, token: &Token) -> Result<Ty, Refused>
    ensures exact { Agree result (result_at number token.now) }
    ensures few { OnOk result (number < 16) }
{
    if number >= 16 {
        return Err(Refused::At(Fault::Limit(Which::Results, token.start())));
    }
    type_at(alloc, token)
}

fn read_one_result(alloc: Global, token: &Token) -> Result<List<Ty>, Refused>
    ensures { Agree result (results_from 0 (token.now ∷ [])) }
{
    let mut found = List::new(alloc);
    let ty = result_at(alloc, 0, token)?;
    found.push(ty)?;
    Ok(found)
}

fn read_several_results(alloc: Global, several: &SeveralResults) -> Result<List<Ty>, Refused>
    ensures { Agree result (results_from 0 (several.now.first ∷ several.now.second ∷ map (λ n. n.ty) several.now.more)) }
{
    let mut found = List::new(alloc);
    let first = result_at(alloc, 0, &several.first)?;
    found.push(first)?;
    let second = result_at(alloc, 1, &several.second)?;
    found.push(second)?;
    let mut number = 2u32;
    for next in several.more.as_slice() {
        let ty = result_at(alloc, number, &next.ty)?;
        found.push(ty)?;
        number += 1;
    }
    Ok(found)
}

/// The types of a function's results.
fn read_results(alloc: Global, results: &Option<ResultTypes>) -> Result<List<Ty>, Refused>
    ensures { Agree result (results_of results.now) }
{
    match results {
        None => Ok(List::new(alloc)),
        Some(ResultTypes::One(token)) => read_one_result(alloc, token),
        Some(ResultTypes::Several(several)) => read_several_results(alloc, several),
    }
}

fn word_in<'b, 'a>(name: &'b ReturnName<'a>) -> &'b Token<'a>
    ensures { result.now ≡ word_in name.now }
{
    match name {
        ReturnName::Short(token) => token,
        ReturnName::Long(token) => token,
    }
}

/// The values that are returned, in order.
fn read_values(
    alloc: Global,
    names: &Names,
    values: &ReturnedValues,
) -> Result<List<ValueId>, Refused>
    ensures { Agree result (value_ids names.now values.now) }
{
    let mut found = List::new(alloc);
    let first = value_id(names, &values.first)?;
    found.push(first)?;
    for next in values.more.as_slice() {
        let value = value_id(names, &next.name)?;
        found.push(value)?;
    }
    Ok(found)
}

/// The types behind the first, one for each value.
fn read_more_return_types(
    alloc: Global,
    names: &Names,
    close: &Token,
    values: &[NextValue],
    types: &[ReturnType],
) -> Result<(), Refused>
    ensures { Agree result (more_return_types close.now names.now values.now types.now) }
{
    let mut wanted = values;
    let mut rest = types;
    while let [value, more @ ..] = wanted {
        match rest {
            [written, others @ ..] => {
                typed_as(alloc, names, &value.name, &written.ty)?;
                wanted = more;
                rest = others;
            }
            [] => return Err(Refused::At(Fault::Syntax(close.start()))),
        }
    }
    match rest {
        [written, ..] => Err(Refused::At(Fault::Syntax(written.comma.start()))),
        [] => Ok(()),
    }
}

/// The values that are returned, where their written types are their own.
fn read_returned(
    alloc: Global,
    names: &Names,
    returned: &Returned,
) -> Result<List<ValueId>, Refused>
    ensures { Agree result (returned_of names.now returned.now) }
{
    match returned {
        Returned::Nothing(_) => Ok(List::new(alloc)),
        Returned::Values(values) => {
            let found = read_values(alloc, names, values)?;
            typed_as(alloc, names, &values.first, &values.first_type)?;
            read_more_return_types(
                alloc,
                names,
                &values.close,
                values.more.as_slice(),
                values.more_types.as_slice(),
            )?;
            Ok(found)
        }
    }
}

fn return_op(alloc: Global, number: u32, values: List<ValueId>) -> Op
    ensures { result ≡ record { id = record { 0 = number }; results = []; kind = Return values } }
{
    Op {
        id: OpId(number),
        results: List::new(alloc),
        kind: OpKind::Return { values },
    }
}

/// The return, which is the last operation.
fn read_return(
    alloc: Global,
    scope: &Scope,
    name: &ReturnName,
    returned: &Returned,
) -> Result<Op, Refused>
    ensures exact { Agree result (return_of scope.now name.now returned.now) }
    ensures few { OnOk result (scope.now.ops < 65536) }
{
    room(scope.ops, word_in(name))?;
    let values = read_returned(alloc, &scope.env, returned)?;
    Ok(return_op(alloc, scope.ops, values))
}

fn opened<'a>(alloc: Global, scope: &FileScope<'a>) -> Scope<'a>
    requires { IsFileSound scope.now }
    ensures start { result ≡ opened scope.now }
    ensures sound { IsOpening result }
{
    Scope {
        env: Names::new(alloc),
        values: scope.values,
        ops: scope.ops,
    }
}

/// The operations of a function, the return last.
fn read_body<'a>(
    alloc: Global,
    aliases: &Aliases,
    scope: &mut Scope<'a>,
    function: &Function<'a>,
) -> Result<List<Op>, Refused>
    requires sound { IsSound scope.old }
    ensures value { Leaves scope.new result (body_of aliases.now scope.old function.now) }
    ensures sound { OnOk result (IsSound scope.new) }
    ensures few { OnOk result (scope.new.ops < 65536) }
{
    let mut body = read_statements(alloc, aliases, scope, function.statements.as_slice())?;
    let last = read_return(alloc, scope, &function.return_name, &function.returned)?;
    body.push(last)?;
    Ok(body)
}

/// A function, whose name is defined behind it.
pub fn read_function<'a>(
    alloc: Global,
    scope: &mut FileScope<'a>,
    function: &Function<'a>,
) -> Result<Func, Refused>
    requires sound { IsFileSound scope.old }
    ensures value { Leaves scope.new result (function_of scope.old function.now) }
    ensures sound { OnOk result (IsFileSound scope.new) }
{
    let name = read_name(alloc, &function.name)?;
    let symbol = symbol_of(&function.name);
    unknown(&scope.functions, function.name.start(), symbol)?;
    let mut inner = opened(alloc, scope);
    let params = read_params(alloc, &mut inner, function.params.as_slice())?;
    let results = read_results(alloc, &function.results)?;
    let body = read_body(alloc, &scope.aliases, &mut inner, function)?;
    scope.functions.add(symbol)?;
    scope.values = inner.values;
    scope.ops = inner.ops + 1;
    Ok(Func {
        name,
        params,
        results,
        body,
    })
}
