//! One fusion after the other, until no pair is left.

ghost use Rattle.std.specs.Prelude.{◌≡◌, ◌-◌, ◌==◌, cond, IfOk, OnOk};
ghost use Rattle.mlir_ir.specs.declared.tree.ValueId.{ValueId as Value};
ghost use Rattle.verified_runs.specs.Passes.{FuncPasses};
ghost use Rattle.fuse_elementwise.specs.Spots.{IsCounted, IsSearched};
ghost use Rattle.fuse_elementwise.specs.Turns.{AnswersFunc, NextIs, TurnIs};
ghost use Rattle.use_counts.specs.Counts.{count_in};

use crate::finding::first_pair;
use crate::next::next_at;
use crate::putting::put;
use crate::turn::{Change, Next, Stopped, Turn};
use mlir_base::Memory;
use mlir_ir::Func;
use std::alloc::Global;
use use_counts::{UseCounts, counted};

/// What is next in a function, where no operation before a place is the consumer of a pair.
fn next(alloc: Global, counts: &UseCounts, f: &Func, from: usize) -> Result<Next, Memory>
    requires counted { IsCounted (count_in counts.now) f.now.body }
    requires passes { FuncPasses f.now }
    requires searched { IsSearched f.now from }
    ensures { IfOk result (NextIs f.now) }
{
    match first_pair(alloc, counts, f, from) {
        Ok(Some(found)) => next_at(alloc, counts, f, found),
        Ok(None) => Ok(Next::Done),
        Err(e) => Err(e),
    }
}

fn turn(f: Func, next: Next) -> Result<Turn, Stopped>
    requires { NextIs f next }
    ensures { TurnIs f result }
{
    match next {
        Next::Done => Ok(Turn::Stays(f)),
        Next::Traps(id) => Err(Stopped::MayTrap(id)),
        Next::Large => Err(Stopped::LargeNumber),
        Next::Becomes(found, kind, change) => match put(f, found.producer, found.consumer, kind) {
            Ok(g) => Ok(Turn::Goes(g, change)),
            Err(_) => Err(Stopped::Memory),
        },
    }
}

/// The function with its first pair fused, where no operation before a place is the consumer of one.
fn step(alloc: Global, counts: &UseCounts, f: Func, from: usize) -> Result<Turn, Stopped>
    requires counted { IsCounted (count_in counts.now) f.body }
    requires passes { FuncPasses f }
    requires searched { IsSearched f from }
    ensures { TurnIs f result }
{
    match next(alloc, counts, &f, from) {
        Ok(next) => turn(f, next),
        Err(_) => Err(Stopped::Memory),
    }
}

/// Takes the uses away that a change takes.
fn lose(counts: &mut UseCounts, change: Change) -> Result<(), Memory>
    ensures { OnOk result ((v : Value) → count_in counts.new v.0 ≡ (count_in counts.old v.0 - cond (change.outs.0 == v.0) 1 0) - cond (change.gone.0 == v.0) 1 0) }
{
    counts.remove(change.outs)?;
    counts.remove(change.gone)
}

/// The function with its pairs fused until none is left. Uses are counted once. The search goes on where the last pair was
/// found, but for the rare pair that `reopens` tells.
fn fuse_counted(alloc: Global, f: Func, counts: UseCounts) -> Result<Func, Stopped>
    requires passes { FuncPasses f }
    requires counted { IsCounted (count_in counts) f.body }
    ensures { AnswersFunc f result }
{
    let count = f.body.len();
    let mut now = f;
    let mut counts = counts;
    let mut from = 0;
    for k in 0..count {
        match step(alloc, &counts, now, from) {
            Ok(Turn::Stays(g)) => return Ok(g),
            Ok(Turn::Goes(g, change)) => {
                now = g;
                from = change.from;
                match lose(&mut counts, change) {
                    Ok(()) => {}
                    Err(_) => return Err(Stopped::Memory),
                }
            }
            Err(e) => return Err(e),
        }
    }
    Ok(now)
}

/// The function with its pairs fused until none is left.
pub(crate) fn fuse_func(alloc: Global, f: Func) -> Result<Func, Stopped>
    requires { FuncPasses f }
    ensures { AnswersFunc f result }
{
    match counted(alloc, f.body.as_slice()) {
        Ok(counts) => fuse_counted(alloc, f, counts),
        Err(_) => Err(Stopped::Memory),
    }
}
