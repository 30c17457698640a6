ghost use Rattle.std.specs.Prelude.{◌≡◌, ℕ, OnOk};
ghost use Rattle.mlir_meaning.specs.Renaming.{value, values, index, indices, optional, arguments_renamed};
ghost use Rattle.step_passes.specs.OnePass.{with_name};
ghost use Rattle.step_passes.specs.Naming.{name_in};

use mlir_base::{List, Memory};
use mlir_ir::{Idx, Ty, ValueId};
use std::alloc::Global;
use std::collections::BTreeMap;

/// The numbers that uses of values have, where they aren't their own.
#[derive(Drop)]
pub(crate) struct NewNames {
    map: BTreeMap<u32, u32>,
}

/// All values have their own numbers.
pub(crate) fn own_names(alloc: Global) -> NewNames
    ensures { (w : ℕ) → name_in result w ≡ w }
{
    NewNames {
        map: BTreeMap::new(alloc),
    }
}

/// Uses of the first value are uses of the second.
pub(crate) fn add_name(names: &mut NewNames, from: u32, to: u32) -> Result<(), Memory>
    ensures { OnOk result ((w : ℕ) → name_in names.new w ≡ with_name from to (name_in names.old) w) }
{
    match names.map.insert(from, to) {
        Ok(_) => Ok(()),
        Err(_) => Err(Memory),
    }
}

pub(crate) fn move_value(moves: &NewNames, v: ValueId) -> ValueId
    ensures { result ≡ value (name_in moves.now) v }
{
    match moves.map.get(&v.0) {
        Some(w) => ValueId(*w),
        None => v,
    }
}

pub(crate) fn move_optional(moves: &NewNames, v: Option<ValueId>) -> Option<ValueId>
    ensures { result ≡ optional (name_in moves.now) v }
{
    match v {
        Some(v) => Some(move_value(moves, v)),
        None => None,
    }
}

fn move_each(moves: &NewNames, items: &mut [ValueId])
    ensures { items.new ≡ values (name_in moves.now) items.old }
{
    for v in items.iter_mut() {
        *v = move_value(moves, *v);
    }
}

pub(crate) fn move_values(moves: &NewNames, list: List<ValueId>) -> List<ValueId>
    ensures { result ≡ values (name_in moves.now) list }
{
    let mut items = list.into_vec();
    move_each(moves, items.as_mut_slice());
    List::from_vec(items)
}

fn move_index(moves: &NewNames, i: Idx) -> Idx
    ensures { result ≡ index (name_in moves.now) i }
{
    match i {
        Idx::Literal(n) => Idx::Literal(n),
        Idx::Value(v) => Idx::Value(move_value(moves, v)),
    }
}

fn move_each_index(moves: &NewNames, items: &mut [Idx])
    ensures { items.new ≡ indices (name_in moves.now) items.old }
{
    for i in items.iter_mut() {
        *i = move_index(moves, *i);
    }
}

pub(crate) fn move_indices(moves: &NewNames, list: List<Idx>) -> List<Idx>
    ensures { result ≡ indices (name_in moves.now) list }
{
    let mut items = list.into_vec();
    move_each_index(moves, items.as_mut_slice());
    List::from_vec(items)
}

fn move_each_start(moves: &NewNames, items: &mut [(ValueId, Ty, ValueId)])
    ensures { items.new ≡ arguments_renamed (λ n. n) (name_in moves.now) (λ n. n) items.old }
{
    for c in items.iter_mut() {
        c.2 = move_value(moves, c.2);
    }
}

pub(crate) fn move_starts(
    moves: &NewNames,
    list: List<(ValueId, Ty, ValueId)>,
) -> List<(ValueId, Ty, ValueId)>
    ensures { result ≡ arguments_renamed (λ n. n) (name_in moves.now) (λ n. n) list }
{
    let mut items = list.into_vec();
    move_each_start(moves, items.as_mut_slice());
    List::from_vec(items)
}
