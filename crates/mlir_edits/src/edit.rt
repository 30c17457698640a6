ghost use Rattle.std.specs.Prelude.{◌≡◌, ◌<◌, ◌≤◌, ◌+◌, ◌++◌, take, drop, length, [], OnOk, IfOk, IsSome};
ghost use Rattle.mlir_meaning.specs.States.{names_of};
ghost use Rattle.mlir_meaning.specs.Renaming.{reused_ops};
ghost use Rattle.verified_runs.specs.Edits.{renumbered, moved};
ghost use Rattle.mlir_edits.specs.Places.{op_at};
ghost use Rattle.mlir_edits.specs.Replaced.{replaced, replaced_func, replaced_at, leaves_body};

use crate::kinds::move_ops;
use crate::moves::Moves;
use crate::place::Place;
use mlir_base::{List, Memory};
use mlir_copy::copy_type;
use mlir_ir::{Func, Module, Op, Ty, ValueId};
use std::alloc::Global;

/// Results of the same types under numbers from `n` on.
pub fn renumbered(
    alloc: Global,
    n: u32,
    results: &[(ValueId, Ty)],
) -> Result<List<(ValueId, Ty)>, Memory>
    ensures { IfOk result (λ l. l ≡ renumbered n results.now) }
{
    let mut all = List::new(alloc);
    let mut next = n as u64;
    for r in results {
        // Memory ends long before the numbers of 32 bits do.
        if next > u32::MAX as u64 {
            return Err(Memory);
        }
        let ty = copy_type(alloc, &r.1)?;
        all.push((ValueId(next as u32), ty))?;
        next += 1;
    }
    Ok(all)
}

/// Renames the uses from a position on.
fn move_from(moves: &Moves, ops: &mut [Op], position: usize)
    requires { position ≤ length ops.old }
    ensures { ops.new ≡ take position ops.old ++ reused_ops (moved (names_of moves.now.from.now) moves.now.to.now) (drop position ops.old) }
{
    let (_, later) = ops.split_at_mut(position);
    move_ops(moves, later);
}

/// Puts items in at a position.
fn put(ops: &mut Vec<Op>, position: usize, new: Vec<Op>) -> Result<(), Memory>
    requires { position ≤ length ops.old.items }
    ensures { OnOk result (ops.new.items ≡ take position ops.old.items ++ new.items ++ drop position ops.old.items) }
{
    let after = ops.len() - position;
    let mut more = new;
    match ops.append(&mut more) {
        Ok(()) => {}
        Err(_) => return Err(Memory),
    }
    let (_, rest) = ops.as_mut_slice().split_at_mut(position);
    rest.rotate_left(after);
    Ok(())
}

/// The body with new operations in the place of one.
fn replace(
    body: List<Op>,
    position: usize,
    new: List<Op>,
    values: &[ValueId],
) -> Result<List<Op>, Memory>
    requires { position < length body }
    ensures { IfOk result (λ b. b ≡ replaced position (record { ops = new; values = values.now }) body) }
{
    let mut ops = body.into_vec();
    let old = ops.remove(position);
    let moves = Moves {
        from: old.results.as_slice(),
        to: values,
    };
    move_from(&moves, ops.as_mut_slice(), position);
    put(&mut ops, position, new.into_vec())?;
    Ok(List::from_vec(ops))
}

fn replace_in(f: Func, position: usize, new: List<Op>, values: &[ValueId]) -> Result<Func, Memory>
    requires there { position < length f.body }
    requires left { 0 < length (replaced position (record { ops = new; values = values.now }) f.body) }
    ensures { IfOk result (λ g. g ≡ replaced_func position (record { ops = new; values = values.now }) f) }
{
    let Func {
        name,
        params,
        results,
        body,
    } = f;
    let body = replace(body, position, new, values)?;
    Ok(Func {
        name,
        params,
        results,
        body,
    })
}

/// The module with new operations in the place of one, where its body isn't empty then. Later uses of its results in its body
/// become uses of `values`, one for each result.
pub fn replace_at(
    m: Module,
    place: Place,
    new: List<Op>,
    values: &[ValueId],
) -> Result<Module, Memory>
    requires there { IsSome (op_at place m.funcs) }
    requires left { leaves_body place (record { ops = new; values = values.now }) m.funcs }
    ensures { IfOk result (λ n. n ≡ replaced_at place (record { ops = new; values = values.now }) m) }
{
    let mut funcs = m.funcs.into_vec();
    let f = funcs.remove(place.func);
    let g = replace_in(f, place.op, new, values)?;
    match funcs.insert(place.func, g) {
        Ok(()) => Ok(Module {
            funcs: List::from_vec(funcs),
        }),
        Err(_) => Err(Memory),
    }
}
