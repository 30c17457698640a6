//! A pass over an owned module that makes exchanges.

ghost use Rattle.std.specs.Prelude.{◌≡◌, ℕ, ◌==◌, ◌∷◌, [], map, length, None, Some, IfOk, OnOk, if◌then◌else◌};
ghost use Rattle.mlir_meaning.specs.Renaming.{renamed, renamed_op};
ghost use Rattle.mlir_verify.specs.Rules.{IsVerified};
ghost use Rattle.step_passes.specs.Naming.{name_in};
ghost use Rattle.step_passes.specs.OnePass.{Names, put, passed_module};
ghost use Rattle.step_passes.specs.Pending.{pending_at, under, IsOnly, changed, Replaces, PassesOps, PassesFunc};

use crate::exchange::Exchange;
use crate::kinds::{move_kind, move_op};
use crate::moves::{NewNames, add_name, own_names};
use crate::pending::{Pending, all_pending};
use mlir_base::{List, Memory};
use mlir_ir::{Func, Module, Op, OpId, Ty, ValueId};
use std::alloc::Global;

fn reused(names: &NewNames, op: Op) -> Op
    ensures { result ≡ renamed_op (λ n. n) (name_in names.now) (λ n. n) op }
{
    let mut op = op;
    move_op(names, &mut op);
    op
}

fn name_each(results: &mut [(ValueId, Ty)], value: u32)
    ensures { results.new ≡ map (under value) results.old }
{
    for r in results.iter_mut() {
        r.0 = ValueId(value);
    }
}

/// Results under this number.
fn named(results: List<(ValueId, Ty)>, value: u32) -> List<(ValueId, Ty)>
    ensures { result ≡ map (under value) results }
{
    let mut all = results.into_vec();
    name_each(all.as_mut_slice(), value);
    List::from_vec(all)
}

/// The number of a result that is the only one.
fn only(results: &[(ValueId, Ty)]) -> Option<u32>
    ensures { IsOnly results.now result }
{
    match results {
        [r] => Some(r.0.0),
        _ => None,
    }
}

/// The operation that an exchange forms.
fn formed(names: &NewNames, x: Exchange, results: List<(ValueId, Ty)>) -> Op
    ensures { result ≡ record { id = record { 0 = x.op }; results = map (under x.value) results; kind = renamed (λ n. n) (name_in names.now) (λ n. n) x.kind } }
{
    Op {
        id: OpId(x.op),
        results: named(results, x.value),
        kind: move_kind(names, x.kind),
    }
}

/// What stands in place of an operation that is to be exchanged.
fn exchanged(names: &NewNames, x: Exchange, op: Op) -> Op
    ensures { result ≡ (put (Some x) (name_in names.now) op op.results).0 }
{
    match only(op.results.as_slice()) {
        Some(_) => formed(names, x, op.results),
        None => reused(names, op),
    }
}

/// What stands in an operation's place.
fn placed(names: &NewNames, x: Option<Exchange>, op: Op) -> Op
    ensures { result ≡ (put x (name_in names.now) op op.results).0 }
{
    match x {
        Some(x) => exchanged(names, x, op),
        None => reused(names, op),
    }
}

/// The result whose uses have another number behind an operation, and that number.
fn change(x: &Option<Exchange>, op: &Op) -> Option<(u32, u32)>
    ensures { (g : Names) → changed result g ≡ (put x.now g op.now op.now.results).1 }
{
    match x {
        Some(x) => match only(op.results.as_slice()) {
            Some(from) => Some((from, x.value)),
            None => None,
        },
        None => None,
    }
}

fn rename(names: &mut NewNames, change: Option<(u32, u32)>) -> Result<(), Memory>
    ensures { OnOk result (name_in names.new ≡ changed change (name_in names.old)) }
{
    match change {
        Some((from, to)) => add_name(names, from, to),
        None => Ok(()),
    }
}

/// What stands in an operation's place, and the change of names behind it. Its exchange is left no more.
fn replace(left: &mut Pending, names: &NewNames, op: Op) -> (Op, Option<(u32, u32)>)
    ensures replaced { Replaces (pending_at left.old op.id.0) (name_in names.now) op result }
    ensures others { (i : ℕ) → pending_at left.new i ≡ (if op.id.0 == i then None else pending_at left.old i) }
{
    let x = left.take(op.id);
    let change = change(&x, &op);
    (placed(names, x, op), change)
}

fn put_all(alloc: Global, left: &mut Pending, body: List<Op>) -> Result<List<Op>, Memory>
    ensures passed { IfOk result (λ new. PassesOps left.old body left.new new) }
    ensures many { IfOk result (λ new. length new ≡ length body) }
{
    let mut names = own_names(alloc);
    let mut all = List::new(alloc);
    for op in body.into_vec() {
        let (new, change) = replace(left, &names, op);
        all.push(new)?;
        rename(&mut names, change)?;
    }
    Ok(all)
}

fn pass_func(alloc: Global, left: &mut Pending, f: Func) -> Result<Func, Memory>
    ensures { IfOk result (λ new. PassesFunc left.old f left.new new) }
{
    let Func {
        name,
        params,
        results,
        body,
    } = f;
    let body = put_all(alloc, left, body)?;
    Ok(Func {
        name,
        params,
        results,
        body,
    })
}

/// The module after these exchanges. Names begin anew in each function.
pub(crate) fn carry_out(
    alloc: Global,
    m: Module,
    exchanges: List<Exchange>,
) -> Result<Module, Memory>
    requires { IsVerified m }
    ensures { IfOk result (λ n. n ≡ passed_module exchanges m) }
{
    let mut left = all_pending(alloc, exchanges)?;
    let mut all = List::new(alloc);
    for f in m.funcs.into_vec() {
        let new = pass_func(alloc, &mut left, f)?;
        all.push(new)?;
    }
    Ok(Module { funcs: all })
}
