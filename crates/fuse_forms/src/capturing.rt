//! The values that two generics capture, each once.

ghost use Rattle.std.specs.Prelude.{◌≡◌, ◌++◌, [], map, slice_index_or, IfOk, OnOk};
ghost use Rattle.mlir_meaning.specs.Points.{place_of};
ghost use Rattle.pair_laws.specs.Pairs.{numbers_of, once, with_value};
ghost use Rattle.fuse_forms.specs.Captures.{value, values_of};

use mlir_base::{List, Memory};
use mlir_ir::ValueId;
use payload_forms::FirstUses;
use std::alloc::Global;

fn note(order: &mut FirstUses, v: ValueId) -> Result<(), Memory>
    ensures { OnOk result (values_of order.new ≡ with_value (values_of order.old) v) }
{
    if order.has(v.0) {
        Ok(())
    } else {
        order.add(v.0)
    }
}

fn note_all(order: &mut FirstUses, values: &[ValueId]) -> Result<(), Memory>
    ensures { OnOk result (values_of order.new ≡ once (values_of order.old) values.now) }
{
    for v in values {
        note(order, *v)?;
    }
    Ok(())
}

/// The values of both, each once, in order of first use.
pub(crate) fn once(
    alloc: Global,
    producer: &[ValueId],
    consumer: &[ValueId],
) -> Result<FirstUses, Memory>
    ensures { IfOk result (λ o. o ≡ numbers_of (once [] (producer.now ++ consumer.now))) }
{
    let mut order = FirstUses::new(alloc);
    note_all(&mut order, producer)?;
    note_all(&mut order, consumer)?;
    Ok(order)
}

/// Where these values stand among all.
pub(crate) fn places_in(
    alloc: Global,
    all: &FirstUses,
    values: &[ValueId],
) -> Result<List<u32>, Memory>
    ensures { IfOk result (λ l. l ≡ map (λ v. place_of v.0 0 all.now) values.now) }
{
    let mut places = List::new(alloc);
    for v in values {
        let place = all.place_of(v.0);
        if place > u32::MAX as usize {
            return Err(Memory);
        }
        places.push(place as u32)?;
    }
    Ok(places)
}

fn number_at(numbers: &[u32], place: u32) -> u32
    ensures { result ≡ slice_index_or numbers.now place 0 }
{
    match numbers.get(place as usize) {
        Some(n) => *n,
        None => 0,
    }
}

/// The values at these places among all.
pub(crate) fn values_at(alloc: Global, all: &[u32], places: &[u32]) -> Result<List<ValueId>, Memory>
    ensures { IfOk result (λ l. l ≡ map (λ k. value (slice_index_or all.now k 0)) places.now) }
{
    let mut values = List::new(alloc);
    for place in places {
        values.push(ValueId(number_at(all, *place)))?;
    }
    Ok(values)
}
