ghost use Rattle.std.specs.Prelude.{◌≡◌, ℕ};
ghost use Rattle.mlir_meaning.specs.Renaming.{value, values, index, indices, optional, arguments_renamed};
ghost use Rattle.mlir_meaning.specs.States.{names_of};
ghost use Rattle.verified_runs.specs.Edits.{moved};
ghost use Rattle.mlir_edits.specs.Moves.{through};

use mlir_base::List;
use mlir_ir::{Idx, Ty, ValueId};

/// Which values' uses become uses of which others.
#[derive(Clone, Copy)]
pub(crate) struct Moves<'a> {
    pub from: &'a [(ValueId, Ty)],
    pub to: &'a [ValueId],
}

fn moved(from: &[(ValueId, Ty)], to: &[ValueId], w: u32) -> u32
    ensures { result ≡ moved (names_of from.now) to.now w }
{
    for (k, r) in from.iter().enumerate() {
        match to.get(k) {
            Some(v) => {
                if w == r.0.0 {
                    return v.0;
                }
            }
            None => return w,
        }
    }
    w
}

pub(crate) fn move_value(moves: &Moves, v: ValueId) -> ValueId
    ensures { result ≡ value (through moves.now) v }
{
    ValueId(moved(moves.from, moves.to, v.0))
}

pub(crate) fn move_optional(moves: &Moves, v: Option<ValueId>) -> Option<ValueId>
    ensures { result ≡ optional (through moves.now) v }
{
    match v {
        Some(v) => Some(move_value(moves, v)),
        None => None,
    }
}

fn move_each(moves: &Moves, items: &mut [ValueId])
    ensures { items.new ≡ values (through moves.now) items.old }
{
    for v in items.iter_mut() {
        *v = move_value(moves, *v);
    }
}

pub(crate) fn move_values(moves: &Moves, list: List<ValueId>) -> List<ValueId>
    ensures { result ≡ values (through moves.now) list }
{
    let mut items = list.into_vec();
    move_each(moves, items.as_mut_slice());
    List::from_vec(items)
}

fn move_index(moves: &Moves, i: Idx) -> Idx
    ensures { result ≡ index (through moves.now) i }
{
    match i {
        Idx::Literal(n) => Idx::Literal(n),
        Idx::Value(v) => Idx::Value(move_value(moves, v)),
    }
}

fn move_each_index(moves: &Moves, items: &mut [Idx])
    ensures { items.new ≡ indices (through moves.now) items.old }
{
    for i in items.iter_mut() {
        *i = move_index(moves, *i);
    }
}

pub(crate) fn move_indices(moves: &Moves, list: List<Idx>) -> List<Idx>
    ensures { result ≡ indices (through moves.now) list }
{
    let mut items = list.into_vec();
    move_each_index(moves, items.as_mut_slice());
    List::from_vec(items)
}

fn move_each_start(moves: &Moves, items: &mut [(ValueId, Ty, ValueId)])
    ensures { items.new ≡ arguments_renamed (λ n. n) (through moves.now) (λ n. n) items.old }
{
    for c in items.iter_mut() {
        c.2 = move_value(moves, c.2);
    }
}

pub(crate) fn move_starts(
    moves: &Moves,
    list: List<(ValueId, Ty, ValueId)>,
) -> List<(ValueId, Ty, ValueId)>
    ensures { result ≡ arguments_renamed (λ n. n) (through moves.now) (λ n. n) list }
{
    let mut items = list.into_vec();
    move_each_start(moves, items.as_mut_slice());
    List::from_vec(items)
}
