//! Types, as they are read.

ghost use Rattle.std.specs.Prelude.{◌≡◌, ◌<◌, ◌≤◌, ◌*◌, ◌^◌, IfOk, Some, nat_le};
ghost use Rattle.mlir_base.specs.Types.{is_elem};
ghost use Rattle.mlir_lex.specs.Chain.{Agree, each};
ghost use Rattle.mlir_scope.specs.Types.{extent_at, counted, elements, least_elements, shape_type, type_at, is_extent, are_extents, is_shape, same_type, same_elem, elem_of};

use mlir_base::{ElemTy, List, Memory, Which};
use mlir_ir::{Extent, Ty};
use mlir_lex::{Fault, Refused};
use std::alloc::Global;
use text_format::{RankedShape, Token, element_of, ranked_of};

/// An extent that a text writes.
fn extent_at(at: u32, extent: text_format::Extent) -> Result<Extent, Refused>
    ensures { Agree result (extent_at at extent) }
{
    match extent {
        text_format::Extent::Fixed(n) => Ok(Extent::Fixed(n)),
        text_format::Extent::TooLarge => Err(Refused::At(Fault::Limit(Which::Extent, at))),
    }
}

/// The extents that a text writes.
fn extents_at(
    alloc: Global,
    at: u32,
    written: &[text_format::Extent],
) -> Result<List<Extent>, Refused>
    ensures { Agree result (each (extent_at at) written.now) }
{
    let mut found = List::new(alloc);
    for extent in written {
        let kept = extent_at(at, *extent)?;
        found.push(kept)?;
    }
    Ok(found)
}

/// As an axis counts in the number of elements: by its extent, and by 0 where that isn't fixed.
pub fn counted(extent: Extent) -> u64
    ensures exact { result ≡ counted extent }
    ensures small { result < 2 ^ 32 }
{
    match extent {
        Extent::Fixed(n) => n as u64,
        Extent::Any => 0,
    }
}

/// The number of elements with one more axis.
fn with_axis(product: u64, extent: Extent) -> u64
    requires { product ≤ 4194305 }
    ensures exact { result ≡ least_elements (product * counted extent) }
    ensures small { result ≤ 4194305 }
{
    let count = counted(extent);
    let more = product * count;
    if more <= 4194304 { more } else { 4194305 }
}

/// Whether a tensor of these extents has few enough elements.
fn has_few_elements(extents: &[Extent]) -> bool
    ensures { result ≡ nat_le (elements extents.now) 4194304 }
{
    let mut product = 1u64;
    for extent in extents {
        product = with_axis(product, *extent);
    }
    product <= 4194304
}

/// The type of a tensor of this shape.
fn shape_type(alloc: Global, at: u32, shape: &RankedShape) -> Result<Ty, Refused>
    ensures { Agree result (shape_type at (Some shape.now)) }
{
    if shape.extents.as_slice().len() > 8 {
        return Err(Refused::At(Fault::Limit(Which::Rank, at)));
    }
    let extents = extents_at(alloc, at, shape.extents.as_slice())?;
    if !has_few_elements(extents.as_slice()) {
        return Err(Refused::At(Fault::Limit(Which::Elements, at)));
    }
    Ok(Ty::Tensor {
        extents,
        elem: shape.width,
    })
}

/// The type that a token writes.
pub fn type_at(alloc: Global, token: &Token) -> Result<Ty, Refused>
    ensures { Agree result (type_at token.now) }
{
    match ranked_of(alloc, token.text())? {
        None => Err(Refused::At(Fault::Syntax(token.start()))),
        Some(shape) => shape_type(alloc, token.start(), &shape),
    }
}

pub fn copy_list<T: Copy + Drop>(alloc: Global, items: &[T]) -> Result<List<T>, Memory>
    ensures { IfOk result (λ l. l ≡ items.now) }
{
    let mut copy = List::new(alloc);
    for item in items {
        copy.push(*item)?;
    }
    Ok(copy)
}

/// A type like this one.
///
/// # Errors
/// Want of memory alone.
pub fn copy_type(alloc: Global, ty: &Ty) -> Result<Ty, Memory>
    ensures { IfOk result (λ t. t ≡ ty.now) }
{
    match ty {
        Ty::Scalar(elem) => Ok(Ty::Scalar(*elem)),
        Ty::Tensor { extents, elem } => {
            let extents = copy_list(alloc, extents.as_slice())?;
            Ok(Ty::Tensor {
                extents,
                elem: *elem,
            })
        }
        Ty::Vector { extents, elem } => {
            let extents = copy_list(alloc, extents.as_slice())?;
            Ok(Ty::Vector {
                extents,
                elem: *elem,
            })
        }
    }
}

fn is_extent(written: text_format::Extent, extent: Extent) -> bool
    ensures { result ≡ is_extent written extent }
{
    match (written, extent) {
        (text_format::Extent::Fixed(n), Extent::Fixed(m)) => n == m,
        _ => false,
    }
}

fn are_extents(written: &[text_format::Extent], extents: &[Extent]) -> bool
    ensures { result ≡ are_extents written.now extents.now }
{
    let mut wanted = extents;
    let mut rest = written;
    while let [extent, more @ ..] = rest {
        match wanted {
            [known, others @ ..] => {
                if !is_extent(*extent, *known) {
                    return false;
                }
                rest = more;
                wanted = others;
            }
            [] => return false,
        }
    }
    wanted.is_empty()
}

fn is_shape(shape: &Option<RankedShape>, ty: &Ty) -> bool
    ensures { result ≡ is_shape shape.now ty.now }
{
    match shape {
        None => false,
        Some(shape) => match ty {
            Ty::Tensor { extents, elem } => {
                are_extents(shape.extents.as_slice(), extents.as_slice())
                    && shape.width.bits() == elem.bits()
            }
            _ => false,
        },
    }
}

/// The type that a token writes is this one.
pub fn same_type(alloc: Global, ty: &Ty, token: &Token) -> Result<(), Refused>
    ensures { Agree result (same_type ty.now token.now) }
{
    let shape = ranked_of(alloc, token.text())?;
    if is_shape(&shape, ty) {
        Ok(())
    } else {
        Err(Refused::At(Fault::TypeDiffers(token.start())))
    }
}

fn is_elem(found: &ElemTy, wanted: &ElemTy) -> bool
    ensures { result ≡ is_elem found.now wanted.now }
{
    match (found, wanted) {
        (ElemTy::Int(v), ElemTy::Int(w)) => v.bits() == w.bits(),
        (ElemTy::Index, ElemTy::Index) => true,
        _ => false,
    }
}

/// The element type that a token writes is this one.
///
/// # Errors
/// `TypeDiffers` at a token that writes another, or none.
pub fn same_elem(elem: &ElemTy, token: &Token) -> Result<(), Refused>
    ensures { Agree result (same_elem elem.now token.now) }
{
    let same = match element_of(token.text()) {
        Some(found) => is_elem(&found, elem),
        None => false,
    };
    if same {
        Ok(())
    } else {
        Err(Refused::At(Fault::TypeDiffers(token.start())))
    }
}

/// The type of a tensor's elements, or the scalar type itself.
pub fn elem_of(ty: &Ty) -> ElemTy
    ensures { result ≡ elem_of ty.now }
{
    match ty {
        Ty::Scalar(elem) => *elem,
        Ty::Tensor { elem, .. } => ElemTy::Int(*elem),
        Ty::Vector { elem, .. } => ElemTy::Int(*elem),
    }
}
