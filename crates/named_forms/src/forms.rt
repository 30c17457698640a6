ghost use Rattle.std.specs.Prelude.{◌≡◌, ◌∷◌, [], ◌++◌, replicate, map, IfOk, OnOk};
ghost use Rattle.affine_maps.specs.Map.{dimension, dimensions, identity_of, IsMap};
ghost use Rattle.payload_ops.specs.Payload.{IsPayload};
ghost use Rattle.mlir_ir.specs.declared.tree.Iter.TheVariants.{Parallel};
ghost use Rattle.mlir_meaning.specs.Grids.{count_up};
ghost use Rattle.mlir_meaning.specs.Points.{has, kept, place_of, select_map};
ghost use Rattle.mlir_meaning.specs.Structured.{copying, fill_form, transpose_form, broadcast_form};
ghost use Rattle.named_forms.specs.Fit.{IsFit, FormFits};

use affine_maps::{AffineMap, Expr};
use mlir_base::{ElemTy, List, Memory, Width};
use mlir_ir::Iter;
use payload_ops::{Arg, Payload, payload};
use std::alloc::Global;
use std::marker::Model;

/// The maps, the iterators and the payload of a generic.
#[derive(Drop)]
pub struct Form {
    pub maps: List<AffineMap>,
    pub iterators: List<Iter>,
    pub payload: Payload,
}

impl Model for Form {
    ghost use Rattle.mlir_meaning.specs.Structured.{Form as FormShape};

    ghost Value = { FormShape };

    ghost view = { λ f. record { maps = f.maps; iterators = f.iterators; payload = f.payload } };
}

/// The dimension alone.
fn dimension(alloc: Global, k: u64) -> Result<Expr, Memory>
    ensures { IfOk result (λ e. e ≡ dimension k) }
{
    if k > u32::MAX as u64 {
        return Err(Memory);
    }
    let mut terms = List::new(alloc);
    terms.push((k as u32, 1i64))?;
    Ok(Expr { constant: 0, terms })
}

fn selected(alloc: Global, ds: &[u64]) -> Result<List<Expr>, Memory>
    ensures { IfOk result (λ r. r ≡ map dimension ds.now) }
{
    let mut all = List::new(alloc);
    for d in ds {
        all.push(dimension(alloc, *d)?)?;
    }
    Ok(all)
}

fn map_of(dims: u64, results: List<Expr>) -> Result<Option<AffineMap>, Memory>
    ensures { IfOk result (λ r. IsFit IsMap r (record { dims = dims; results = results })) }
{
    if dims > u32::MAX as u64 {
        return Err(Memory);
    }
    Ok(AffineMap::new(dims as u32, results))
}

/// The map to these dimensions.
pub(crate) fn select_map(alloc: Global, dims: u64, ds: &[u64]) -> Result<Option<AffineMap>, Memory>
    ensures { IfOk result (λ r. IsFit IsMap r (select_map dims ds.now)) }
{
    let results = selected(alloc, ds)?;
    map_of(dims, results)
}

fn dimensions(alloc: Global, n: u64) -> Result<List<Expr>, Memory>
    ensures { IfOk result (λ r. r ≡ dimensions n) }
{
    let mut all = List::new(alloc);
    for k in 0..n {
        all.push(dimension(alloc, k)?)?;
    }
    Ok(all)
}

/// The map to all dimensions in order.
fn identity_map(alloc: Global, n: u64) -> Result<Option<AffineMap>, Memory>
    ensures { IfOk result (λ r. IsFit IsMap r (identity_of n)) }
{
    let results = dimensions(alloc, n)?;
    map_of(n, results)
}

/// The place of the first axis of this number, and the length where it isn't there.
fn place_of(axis: u64, order: &[u32]) -> u64
    ensures { result ≡ place_of axis 0 order.now }
{
    for (place, n) in order.iter().enumerate() {
        if *n as u64 == axis {
            return place as u64;
        }
    }
    order.len() as u64
}

/// The place in the order of each axis below `n`.
fn places_of(alloc: Global, order: &[u32], n: u64) -> Result<List<u64>, Memory>
    ensures { IfOk result (λ r. r ≡ map (λ axis. place_of axis 0 order.now) (count_up 0 n)) }
{
    let mut all = List::new(alloc);
    for k in 0..n {
        all.push(place_of(k, order))?;
    }
    Ok(all)
}

fn has(named: &[u32], axis: u64) -> bool
    ensures { result ≡ has named.now axis }
{
    for n in named {
        if *n as u64 == axis {
            return true;
        }
    }
    false
}

/// Adds an axis that isn't named.
fn push_kept(axes: &mut List<u64>, named: &[u32], axis: u64) -> Result<(), Memory>
    ensures { OnOk result (axes.new ≡ axes.old ++ kept named.now axis (axis ∷ [])) }
{
    if has(named, axis) {
        Ok(())
    } else {
        axes.push(axis)
    }
}

/// The axes below `n` that aren't named.
fn kept_axes(alloc: Global, named: &[u32], n: u64) -> Result<List<u64>, Memory>
    ensures { IfOk result (λ r. r ≡ kept named.now 0 (count_up 0 n)) }
{
    let mut all = List::new(alloc);
    for k in 0..n {
        push_kept(&mut all, named, k)?;
    }
    Ok(all)
}

fn parallel(alloc: Global, n: u64) -> Result<List<Iter>, Memory>
    ensures { IfOk result (λ r. r ≡ replicate n Parallel) }
{
    let mut all = List::new(alloc);
    for _k in 0..n {
        all.push(Iter::Parallel)?;
    }
    Ok(all)
}

/// A payload of one input, of the output's width, that yields it.
fn copying(alloc: Global, width: Width) -> Result<Option<Payload>, Memory>
    ensures { IfOk result (λ r. IsFit IsPayload r (copying width)) }
{
    let mut ins = List::new(alloc);
    ins.push(ElemTy::Int(width))?;
    Ok(payload(ins, ElemTy::Int(width), List::new(alloc), Arg::Input(0)))
}

/// A form that copies its input, at these dimensions, to each point of so many dimensions.
fn copying_form(alloc: Global, width: Width, rank: u64, ds: &[u64]) -> Result<Option<Form>, Memory>
    ensures { IfOk result (λ r. IsFit FormFits r (record { maps = select_map rank ds.now ∷ identity_of rank ∷ []; iterators = replicate rank Parallel; payload = copying width })) }
{
    let Some(first) = select_map(alloc, rank, ds)? else {
        return Ok(None);
    };
    let Some(second) = identity_map(alloc, rank)? else {
        return Ok(None);
    };
    let Some(payload) = copying(alloc, width)? else {
        return Ok(None);
    };
    let mut maps = List::new(alloc);
    maps.push(first)?;
    maps.push(second)?;
    let iterators = parallel(alloc, rank)?;
    Ok(Some(Form {
        maps,
        iterators,
        payload,
    }))
}

/// `linalg.fill` as a generic, or `None` where its parts don't fit.
#[tactic(auto, unfolding(mlir_meaning::specs::Structured::fill_form))]
pub fn fill_form(alloc: Global, width: Width, rank: u64) -> Result<Option<Form>, Memory>
    ensures { IfOk result (λ r. IsFit FormFits r (fill_form width rank)) }
{
    copying_form(alloc, width, rank, &[])
}

/// `linalg.transpose` as a generic, or `None` where its parts don't fit.
#[tactic(auto, unfolding(mlir_meaning::specs::Structured::transpose_form))]
pub fn transpose_form(alloc: Global, width: Width, order: &[u32]) -> Result<Option<Form>, Memory>
    ensures { IfOk result (λ r. IsFit FormFits r (transpose_form width order.now)) }
{
    let rank = order.len() as u64;
    let places = places_of(alloc, order, rank)?;
    copying_form(alloc, width, rank, places.as_slice())
}

/// `linalg.broadcast` as a generic, or `None` where its parts don't fit.
#[tactic(auto, unfolding(mlir_meaning::specs::Structured::broadcast_form))]
pub fn broadcast_form(
    alloc: Global,
    width: Width,
    rank: u64,
    added: &[u32],
) -> Result<Option<Form>, Memory>
    ensures { IfOk result (λ r. IsFit FormFits r (broadcast_form width rank added.now)) }
{
    let axes = kept_axes(alloc, added, rank)?;
    copying_form(alloc, width, rank, axes.as_slice())
}
