//! The maps of a producer's operands, over the consumer's dimensions.

ghost use Rattle.std.specs.Prelude.{◌≡◌, ◌<◌, ◌++◌, map, length, IfOk, OnOk};
ghost use Rattle.affine_maps.specs.Compose.{composed, result_at};
ghost use Rattle.affine_maps.specs.Map.{IsMap};
ghost use Rattle.mlir_meaning.specs.Grids.{Each, count_up};
ghost use Rattle.named_forms.specs.Fit.{IsFit};
ghost use Rattle.payload_forms.specs.Joined.{spliced};
ghost use Rattle.point_laws.specs.Orders.{turned};
ghost use Rattle.fuse_laws.specs.Fused.{pulled};
ghost use Rattle.fuse_forms.specs.Forms.{Adds};

use affine_maps::{AffineMap, Expr, compose};
use mlir_base::{List, Memory};
use std::alloc::Global;

/// An equal expression.
pub fn copy_expr(alloc: Global, expr: &Expr) -> Result<Expr, Memory>
    ensures { IfOk result (λ e. e ≡ expr.now) }
{
    let mut terms = List::new(alloc);
    for term in expr.terms.as_slice() {
        terms.push(*term)?;
    }
    Ok(Expr {
        constant: expr.constant,
        terms,
    })
}

/// The expression of a result, and 0 where there is none.
fn result_at(alloc: Global, results: &[Expr], k: u64) -> Result<Expr, Memory>
    ensures { IfOk result (λ e. e ≡ result_at results.now k) }
{
    match results.get(k as usize) {
        Some(expr) => copy_expr(alloc, expr),
        None => Ok(Expr {
            constant: 0,
            terms: List::new(alloc),
        }),
    }
}

/// The place of the dimension among these, and their number where it isn't there.
fn turned(ds: &[u32], d: u64) -> u64
    ensures { result ≡ turned ds.now d }
{
    for (place, n) in ds.iter().enumerate() {
        if *n as u64 == d {
            return place as u64;
        }
    }
    ds.len() as u64
}

/// The producer's dimensions in the consumer's: the inverse of the producer's output map, which takes dimensions
/// `ds`, after the consumer's map of the operand.
pub fn pulled(alloc: Global, ds: &[u32], m: &AffineMap) -> Result<AffineMap, Memory>
    ensures { IfOk result (λ r. r ≡ pulled ds.now m.now) }
{
    let results = pulled_results(alloc, ds, m.results().as_slice())?;
    match AffineMap::new(m.dims(), results) {
        Some(inner) => Ok(inner),
        None => unreachable!(),
    }
}

fn pulled_results(alloc: Global, ds: &[u32], results: &[Expr]) -> Result<List<Expr>, Memory>
    ensures { IfOk result (λ l. l ≡ map (λ d. result_at results.now (turned ds.now d)) (count_up 0 (length ds.now))) }
{
    let mut all = List::new(alloc);
    for d in 0..ds.len() as u64 {
        all.push(result_at(alloc, results, turned(ds, d))?)?;
    }
    Ok(all)
}

fn copy_map(alloc: Global, map: &AffineMap) -> Result<AffineMap, Memory>
    ensures { IfOk result (λ m. m ≡ map.now) }
{
    let mut results = List::new(alloc);
    for expr in map.results().as_slice() {
        results.push(copy_expr(alloc, expr)?)?;
    }
    match AffineMap::new(map.dims(), results) {
        Some(copy) => Ok(copy),
        None => unreachable!(),
    }
}

/// Adds the compositions of these maps with an inner one. False where one of them is no map.
fn push_composed(
    alloc: Global,
    all: &mut List<AffineMap>,
    maps: &[AffineMap],
    inner: &AffineMap,
) -> Result<bool, Memory>
    requires { Each (λ m. length inner.now.results ≡ m.dims) maps.now }
    ensures { Adds result all.old all.new (map (λ m. composed m inner.now) maps.now) }
{
    for m in maps {
        match compose(alloc, m, inner) {
            Ok(Some(whole)) => match all.push(whole) {
                Ok(()) => {}
                Err(e) => return Err(e),
            },
            Ok(None) => return Ok(false),
            Err(e) => return Err(e),
        }
    }
    Ok(true)
}

fn push_copies(alloc: Global, all: &mut List<AffineMap>, maps: &[AffineMap]) -> Result<(), Memory>
    ensures { OnOk result (all.new ≡ all.old ++ maps.now) }
{
    for map in maps {
        all.push(copy_map(alloc, map)?)?;
    }
    Ok(())
}

fn copies(alloc: Global, maps: &[AffineMap]) -> Result<List<AffineMap>, Memory>
    ensures { IfOk result (λ l. l ≡ maps.now) }
{
    let mut all = List::new(alloc);
    push_copies(alloc, &mut all, maps)?;
    Ok(all)
}

fn spliced_maps(
    alloc: Global,
    at: usize,
    producer: &[AffineMap],
    inner: &AffineMap,
    consumer: &[AffineMap],
) -> Result<Option<List<AffineMap>>, Memory>
    requires at { at < length consumer.now }
    requires dims { Each (λ m. length inner.now.results ≡ m.dims) producer.now }
    ensures { IfOk result (λ r. IsFit (Each IsMap) r (spliced at (map (λ m. composed m inner.now) producer.now) consumer.now)) }
{
    let mut all = List::new(alloc);
    push_copies(alloc, &mut all, &consumer[..at])?;
    if !push_composed(alloc, &mut all, producer, inner)? {
        return Ok(None);
    }
    push_copies(alloc, &mut all, &consumer[at + 1..])?;
    Ok(Some(all))
}

/// The maps of the fused generic: those of the producer's inputs after `inner`, in the place of the consumer's map
/// `k`. `None` where one of them is no map.
pub(crate) fn fused_maps(
    alloc: Global,
    k: u32,
    producer: &[AffineMap],
    inner: &AffineMap,
    consumer: &[AffineMap],
) -> Result<Option<List<AffineMap>>, Memory>
    requires { Each (λ m. length inner.now.results ≡ m.dims) producer.now }
    ensures { IfOk result (λ r. IsFit (Each IsMap) r (spliced k (map (λ m. composed m inner.now) producer.now) consumer.now)) }
{
    let at = k as usize;
    if at < consumer.len() {
        spliced_maps(alloc, at, producer, inner, consumer)
    } else {
        let all = copies(alloc, consumer)?;
        Ok(Some(all))
    }
}
