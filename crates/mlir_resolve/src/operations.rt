//! Operations of a function.

ghost use Rattle.std.specs.Prelude.{◌≡◌, ◌<◌, None, Ok, [], IfOk, OnOk};
ghost use Rattle.mlir_ir.specs.declared.tree.OpKind.TheVariants as kinds;
ghost use Rattle.mlir_lex.specs.Chain.{Agree, Leaves, and_then};
ghost use Rattle.mlir_scope.specs.Names.{find};
ghost use Rattle.mlir_scope.specs.Types.{type_at};
ghost use Rattle.mlir_scope.specs.Scope.{IsOuter, IsSound, IsHeld};
ghost use Rattle.mlir_resolve.specs.Constants.{result_meaning};
ghost use Rattle.mlir_resolve.specs.Operations.{room, name_in, kind_of, operation_of, next_scope, numbered_op, statement_of, statements_of};

use crate::constants::{read_constant, result_meaning};
use crate::generics::read_generic;
use crate::structured::{
    read_batch_matmul, read_broadcast, read_fill, read_matmul, read_transpose,
};
use mlir_base::{List, Memory, Which};
use mlir_ir::{Op, OpId, OpKind, Ty, ValueId};
use mlir_lex::{Fault, Refused};
use mlir_scope::{Aliases, Names, Scope, fresh, type_at};
use mlir_syntax::{Empty, Operation, Statement};
use std::alloc::Global;
use text_format::Token;

/// One more operation is within the limit.
pub fn room(ops: u32, token: &Token) -> Result<(), Refused>
    ensures exact { Agree result (room ops token.now) }
    ensures few { OnOk result (ops < 65536) }
{
    if ops < 65536 {
        Ok(())
    } else {
        Err(Refused::At(Fault::Limit(Which::Operations, token.start())))
    }
}

fn name_in<'b, 'a>(operation: &'b Operation<'a>) -> &'b Token<'a>
    ensures { result.now ≡ name_in operation.now }
{
    match operation {
        Operation::Constant(constant) => &constant.name,
        Operation::Empty(empty) => &empty.name,
        Operation::Generic(generic) => &generic.name,
        Operation::Fill(fill) => &fill.name,
        Operation::Matmul(matmul) => &matmul.name,
        Operation::BatchMatmul(matmul) => &matmul.name,
        Operation::Transpose(transpose) => &transpose.name,
        Operation::Broadcast(broadcast) => &broadcast.name,
    }
}

fn read_empty(alloc: Global, empty: &Empty) -> Result<(Ty, OpKind), Refused>
    ensures { Agree result (and_then (type_at empty.now.ty) (λ ty. Ok (ty, kinds.Empty []))) }
{
    let ty = type_at(alloc, &empty.ty)?;
    Ok((
        ty,
        OpKind::Empty {
            sizes: List::new(alloc),
        },
    ))
}

/// An operation by its kind, with the type of its result.
#[tactic(auto, unfolding(crate::specs::Operations::kind_of))]
fn read_kind<'a>(
    alloc: Global,
    aliases: &Aliases,
    names: &Names<'a>,
    operation: &Operation<'a>,
) -> Result<(Ty, OpKind), Refused>
    requires outer { IsOuter names.now }
    ensures { Agree result (kind_of aliases.now names.now operation.now) }
{
    match operation {
        Operation::Constant(constant) => read_constant(alloc, &constant.literal),
        Operation::Empty(empty) => read_empty(alloc, empty),
        Operation::Generic(generic) => read_generic(alloc, aliases, names, generic),
        Operation::Fill(fill) => read_fill(alloc, names, fill),
        Operation::Matmul(matmul) => read_matmul(alloc, names, matmul),
        Operation::BatchMatmul(matmul) => read_batch_matmul(alloc, names, matmul),
        Operation::Transpose(transpose) => read_transpose(alloc, names, transpose),
        Operation::Broadcast(broadcast) => read_broadcast(alloc, names, broadcast),
    }
}

/// An operation, with the type of its result.
fn read_operation<'a>(
    alloc: Global,
    aliases: &Aliases,
    scope: &Scope<'a>,
    operation: &Operation<'a>,
) -> Result<(Ty, OpKind), Refused>
    requires outer { IsOuter scope.now.env }
    ensures value { Agree result (operation_of aliases.now scope.now operation.now) }
    ensures few { OnOk result (scope.now.ops < 65536) }
{
    room(scope.ops, name_in(operation))?;
    read_kind(alloc, aliases, &scope.env, operation)
}

/// The operation's result is defined.
fn define_result<'a>(
    alloc: Global,
    scope: &mut Scope<'a>,
    name: &Token<'a>,
    ty: &Ty,
    kind: &OpKind,
) -> Result<(), Memory>
    requires new { find scope.old.env name.now.text ≡ None }
    requires few { scope.old.ops < 65536 }
    requires sound { IsSound scope.old }
    requires held { IsHeld (result_meaning scope.old.values ty.now kind.now) }
    ensures ok { OnOk result (scope.new ≡ next_scope scope.old name.now.text ty.now kind.now) }
    ensures sound { OnOk result (IsSound scope.new) }
{
    let value = scope.values;
    let means = result_meaning(alloc, value, ty, kind)?;
    scope.env.define(name.text(), means)?;
    scope.values = value + 1;
    scope.ops += 1;
    Ok(())
}

fn operation(alloc: Global, number: u32, value: u32, ty: Ty, kind: OpKind) -> Result<Op, Memory>
    ensures { IfOk result (λ o. o ≡ numbered_op number value ty kind) }
{
    let mut results = List::new(alloc);
    results.push((ValueId(value), ty))?;
    Ok(Op {
        id: OpId(number),
        results,
        kind,
    })
}

/// A statement, whose result is defined behind it.
fn read_statement<'a>(
    alloc: Global,
    aliases: &Aliases,
    scope: &mut Scope<'a>,
    statement: &Statement<'a>,
) -> Result<Op, Refused>
    requires sound { IsSound scope.old }
    ensures value { Leaves scope.new result (statement_of aliases.now scope.old statement.now) }
    ensures sound { OnOk result (IsSound scope.new) }
{
    fresh(&scope.env, &statement.result)?;
    let (ty, kind) = read_operation(alloc, aliases, scope, &statement.operation)?;
    let value = scope.values;
    let number = scope.ops;
    define_result(alloc, scope, &statement.result, &ty, &kind)?;
    let op = operation(alloc, number, value, ty, kind)?;
    Ok(op)
}

/// The statements, in order.
pub fn read_statements<'a>(
    alloc: Global,
    aliases: &Aliases,
    scope: &mut Scope<'a>,
    list: &[Statement<'a>],
) -> Result<List<Op>, Refused>
    requires sound { IsSound scope.old }
    ensures value { Leaves scope.new result (statements_of aliases.now scope.old list.now) }
    ensures sound { OnOk result (IsSound scope.new) }
{
    let mut found = List::new(alloc);
    for statement in list {
        let op = read_statement(alloc, aliases, scope, statement)?;
        found.push(op)?;
    }
    Ok(found)
}
