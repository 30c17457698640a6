ghost use Rattle.std.specs.Prelude.{◌≡◌, ◌++◌, ◌∷◌, [], IfOk, OnOk};
ghost use Rattle.std.specs.List.{list_all};
ghost use Rattle.mlir_meaning.specs.Grids.{count_up, same_point};
ghost use Rattle.structured_steps.specs.Interchange.{turned, origin, stands_once, is_order, is_reduction, iterator_at, reductions_in, keeps_reductions};

use mlir_base::{List, Memory};
use mlir_ir::Iter;
use std::alloc::Global;

/// The new dimension of an old one; the length where the order hasn't it.
pub(crate) fn turned(order: &[u32], d: usize) -> usize
    ensures { result ≡ turned order.now d }
{
    for (place, old) in order.iter().enumerate() {
        if *old as usize == d {
            return place;
        }
    }
    order.len()
}

/// The old dimension of a new one.
pub(crate) fn origin(order: &[u32], k: usize) -> usize
    ensures { result ≡ origin order.now k }
{
    match order.get(k) {
        Some(old) => *old as usize,
        None => 0,
    }
}

fn stands_once(order: &[u32], n: usize, k: usize) -> bool
    ensures { result ≡ stands_once order.now n k }
{
    let place = turned(order, k);
    let old = origin(order, k);
    place < n && origin(order, place) == k && (old < n && turned(order, old) == k)
}

fn all_stand_once(order: &[u32], n: usize) -> bool
    ensures { result ≡ list_all (stands_once order.now n) (count_up 0 n) }
{
    for k in 0..n {
        if !stands_once(order, n, k) {
            return false;
        }
    }
    true
}

/// Whether the order is a permutation of so many dimensions.
pub(crate) fn is_order(order: &[u32], n: usize) -> bool
    ensures { result ≡ is_order order.now n }
{
    order.len() == n && all_stand_once(order, n)
}

fn is_reduction(iterators: &[Iter], d: usize) -> bool
    ensures { result ≡ is_reduction (iterator_at iterators.now d) }
{
    match iterators.get(d) {
        Some(Iter::Reduction) => true,
        _ => false,
    }
}

/// Adds a dimension where it is a reduction.
fn push_reduction(all: &mut List<u64>, iterators: &[Iter], d: u64) -> Result<(), Memory>
    ensures { OnOk result (all.new ≡ all.old ++ reductions_in iterators.now (d ∷ [])) }
{
    if is_reduction(iterators, d as usize) {
        all.push(d)
    } else {
        Ok(())
    }
}

/// The reduction dimensions of an order.
fn reductions(alloc: Global, iterators: &[Iter], order: &[u32]) -> Result<List<u64>, Memory>
    ensures { IfOk result (λ l. l ≡ reductions_in iterators.now order.now) }
{
    let mut all = List::new(alloc);
    for d in order {
        push_reduction(&mut all, iterators, *d as u64)?;
    }
    Ok(all)
}

/// The reduction dimensions of the first dimensions.
fn first_reductions(alloc: Global, iterators: &[Iter], n: usize) -> Result<List<u64>, Memory>
    ensures { IfOk result (λ l. l ≡ reductions_in iterators.now (count_up 0 n)) }
{
    let mut all = List::new(alloc);
    for d in 0..n {
        push_reduction(&mut all, iterators, d as u64)?;
    }
    Ok(all)
}

fn is_same(a: &[u64], b: &[u64]) -> bool
    ensures { result ≡ same_point a.now b.now }
{
    if a.len() != b.len() {
        return false;
    }
    for (k, d) in a.iter().enumerate() {
        if *d != b[k] {
            return false;
        }
    }
    true
}

/// Whether the reduction dimensions keep their order among themselves.
pub(crate) fn keeps_reductions(
    alloc: Global,
    order: &[u32],
    iterators: &[Iter],
) -> Result<bool, Memory>
    ensures { IfOk result (λ b. b ≡ keeps_reductions order.now iterators.now) }
{
    let now = reductions(alloc, iterators, order)?;
    let before = first_reductions(alloc, iterators, order.len())?;
    Ok(is_same(now.as_slice(), before.as_slice()))
}
