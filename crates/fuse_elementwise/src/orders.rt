//! Permutations of dimensions.

ghost use Rattle.std.specs.Prelude.{◌≡◌};
ghost use Rattle.std.specs.List.{list_all};
ghost use Rattle.mlir_meaning.specs.Grids.{count_up};
ghost use Rattle.point_laws.specs.Orders.{turned, origin, stands_once, is_order};

/// The new dimension of an old one; the length where the order hasn't it.
fn turned(order: &[u32], d: usize) -> usize
    ensures { result ≡ turned order.now d }
{
    for (place, old) in order.iter().enumerate() {
        if *old as usize == d {
            return place;
        }
    }
    order.len()
}

/// The old dimension of a new one.
fn origin(order: &[u32], k: usize) -> usize
    ensures { result ≡ origin order.now k }
{
    match order.get(k) {
        Some(old) => *old as usize,
        None => 0,
    }
}

fn stands_once(order: &[u32], n: usize, k: usize) -> bool
    ensures { result ≡ stands_once order.now n k }
{
    let place = turned(order, k);
    let old = origin(order, k);
    place < n && origin(order, place) == k && (old < n && turned(order, old) == k)
}

fn all_stand_once(order: &[u32], n: usize) -> bool
    ensures { result ≡ list_all (stands_once order.now n) (count_up 0 n) }
{
    for k in 0..n {
        if !stands_once(order, n, k) {
            return false;
        }
    }
    true
}

/// Whether the order is a permutation of so many dimensions.
pub(crate) fn is_order(order: &[u32], n: usize) -> bool
    ensures { result ≡ is_order order.now n }
{
    order.len() == n && all_stand_once(order, n)
}
