ghost use Rattle.std.specs.Prelude.{◌≡◌, ◌&&◌, ◌||◌, not, ℕ, List, [], if◌then◌else◌, IfOk};
ghost use Rattle.mlir_verify.specs.Built.{is_built};
ghost use Rattle.mlir_verify.specs.Types.{is_typed};
ghost use Rattle.mlir_verify.specs.Ends.{is_return};
ghost use Rattle.mlir_ir.specs.Shape.{FuncShape};
ghost use Rattle.mlir_ir.specs.declared.tree.Op.{Op};
ghost use Rattle.mlir_verify.specs.Place.{place_at, is_empty};
ghost use Rattle.mlir_verify.specs.Rules.{AnswersVerify};
ghost use Rattle.mlir_verify.specs.Scope.{types_in, constants_in, IsSet};
ghost use Rattle.mlir_verify.specs.Stages.{broken_below};
ghost use Rattle.mlir_verify.specs.Walk.{NamesOp, IsBefore, Stands, ChecksOp, EntersFunc, ChecksFunc, ChecksFuncs};

use crate::built::is_built;
use crate::checked::Checked;
use crate::ends::{has_fixed_signature, is_return};
use crate::limits::is_past_limits;
use crate::names::{add, add_defined, add_definitions, operands_in_scope};
use crate::rule::{Refused, Rule};
use crate::scope::{Scope, define};
use crate::structured::broken_loops;
use crate::types::is_typed;
use mlir_base::Memory;
use mlir_ir::{Func, Module, Op};
use std::alloc::Global;
use std::collections::BTreeSet;

/// The numbers of values and operations so far.
#[derive(Drop)]
struct Seen {
    values: BTreeSet<u32>,
    ops: BTreeSet<u32>,
}

/// Takes in an operation's numbers; false where it breaks V1.
fn name_op(seen: &mut Seen, scope: &Scope, op: &Op) -> Result<bool, Memory>
    ensures { (values ops : List ℕ) → IsSet seen.old.values values → IsSet seen.old.ops ops
        → NamesOp result seen.new (types_in scope.now) op.now values ops }
{
    match add(&mut seen.ops, op.id.0) {
        Ok(true) => {}
        Ok(false) => return Ok(false),
        Err(e) => return Err(e),
    }
    if !operands_in_scope(scope, &op.kind) {
        return Ok(false);
    }
    add_defined(&mut seen.values, op)
}

fn breaks_types(scope: &Scope, func: &Func, op: &Op) -> bool
    ensures { result ≡ not (is_built op.now && is_typed (types_in scope.now) (constants_in scope.now) func.now.results op.now.results op.now.kind) }
{
    !(is_built(op) && is_typed(scope, func, op))
}

fn breaks_end(op: &Op, last: bool) -> bool
    ensures { result ≡ (if is_return op.now.kind then not last else last) }
{
    if is_return(&op.kind) { !last } else { last }
}

/// The lowest of V2 to V14 that an operation breaks, which is the first or the last of its function as told.
#[tactic(auto, unfolding(crate::specs::Stages::broken_below))]
fn broken_below(
    alloc: Global,
    scope: &Scope,
    func: &Func,
    op: &Op,
    first: bool,
    last: bool,
) -> Result<Option<Rule>, Memory>
    ensures { IfOk result (λ r. r ≡ broken_below first last (types_in scope.now) (constants_in scope.now) func.now op.now) }
{
    if breaks_types(scope, func, op) {
        return Ok(Some(Rule::V2));
    }
    if breaks_end(op, last) {
        return Ok(Some(Rule::V3));
    }
    if first && !has_fixed_signature(func) {
        return Ok(Some(Rule::V4));
    }
    match broken_loops(alloc, scope, func, op) {
        Ok(None) => {
            if is_past_limits(func, op, first) {
                Ok(Some(Rule::V14))
            } else {
                Ok(None)
            }
        }
        Ok(Some(rule)) => Ok(Some(rule)),
        Err(e) => Err(e),
    }
}

fn check_op<'a>(
    alloc: Global,
    seen: &mut Seen,
    scope: &mut Scope<'a>,
    func: &Func,
    op: &'a Op,
    first: bool,
    last: bool,
) -> Result<(), Refused>
    ensures { (before : List FuncShape) (earlier later : List Op) → Stands seen.old scope.old before func.now earlier → is_empty earlier ≡ first → is_empty later ≡ last
        → ChecksOp result seen.new scope.new (place_at before func.now earlier op.now later) }
{
    match name_op(seen, scope, op) {
        Ok(true) => {}
        Ok(false) => return Err(Refused::Rule {
            rule: Rule::V1,
            op: op.id,
        }),
        Err(_) => return Err(Refused::Memory),
    }
    match broken_below(alloc, scope, func, op, first, last) {
        Ok(None) => {}
        Ok(Some(rule)) => return Err(Refused::Rule { rule, op: op.id }),
        Err(_) => return Err(Refused::Memory),
    }
    match define(scope, op) {
        Ok(()) => Ok(()),
        Err(_) => Err(Refused::Memory),
    }
}

/// Takes in the parameters, which stand at the first operation.
fn enter_func<'a>(seen: &mut Seen, scope: &mut Scope<'a>, func: &'a Func) -> Result<(), Refused>
    ensures { (before : List FuncShape) → IsBefore seen.old before → ((v : ℕ) → types_in scope.old v ≡ None) → IsSet scope.old.constants []
        → EntersFunc result seen.new scope.new before func.now }
{
    match add_definitions(&mut seen.values, func.params.as_slice()) {
        Ok(true) => {}
        Ok(false) => return Err(Refused::Rule {
            rule: Rule::V1,
            op: func.body.as_slice()[0].id,
        }),
        Err(_) => return Err(Refused::Memory),
    }
    match scope.bind(func.params.as_slice()) {
        Ok(()) => Ok(()),
        Err(_) => Err(Refused::Memory),
    }
}

fn check_body<'a>(
    alloc: Global,
    seen: &mut Seen,
    scope: &mut Scope<'a>,
    func: &'a Func,
) -> Result<(), Refused>
    ensures { (before : List FuncShape) → Stands seen.old scope.old before func.now []
        → ChecksFunc result seen.new before func.now }
{
    let body = func.body.as_slice();
    for (k, op) in body.iter().enumerate() {
        match check_op(alloc, seen, scope, func, op, k == 0, k + 1 == body.len()) {
            Ok(()) => {}
            Err(e) => return Err(e),
        }
    }
    Ok(())
}

fn check_func(alloc: Global, seen: &mut Seen, func: &Func) -> Result<(), Refused>
    ensures { (before : List FuncShape) → IsBefore seen.old before → ChecksFunc result seen.new before func.now }
{
    let mut scope = Scope::new(alloc);
    match enter_func(seen, &mut scope, func) {
        Ok(()) => {}
        Err(e) => return Err(e),
    }
    check_body(alloc, seen, &mut scope, func)
}

fn check_funcs(alloc: Global, funcs: &[Func]) -> Result<(), Refused>
    ensures { ChecksFuncs result funcs.now }
{
    let mut seen = Seen {
        values: BTreeSet::new(alloc),
        ops: BTreeSet::new(alloc),
    };
    for func in funcs {
        match check_func(alloc, &mut seen, func) {
            Ok(()) => {}
            Err(e) => return Err(e),
        }
    }
    Ok(())
}

/// Verifies a module: it answers the module itself where no rule fails, and else the first operation in tree order at
/// which a rule fails, with the lowest such rule there. A rule on a signature stands at the function's first operation.
pub fn verify(alloc: Global, m: Module) -> Result<Checked, Refused>
    ensures { AnswersVerify m result }
{
    match check_funcs(alloc, m.funcs.as_slice()) {
        Ok(()) => Ok(Checked::from_verified(m)),
        Err(e) => Err(e),
    }
}
