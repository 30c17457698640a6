ghost use Rattle.std.specs.Prelude.{◌≡◌, IfOk};

use mlir_base::{List, Memory};
use mlir_ir::{Ty, ValueId};
use std::alloc::Global;

/// The same items in a list of its own.
pub fn copy_list<T: Copy + Drop>(alloc: Global, items: &[T]) -> Result<List<T>, Memory>
    ensures { IfOk result (λ l. l ≡ items.now) }
{
    let mut copy = List::new(alloc);
    for item in items {
        copy.push(*item)?;
    }
    Ok(copy)
}

/// An equal type.
pub fn copy_type(alloc: Global, ty: &Ty) -> Result<Ty, Memory>
    ensures { IfOk result (λ t. t ≡ ty.now) }
{
    match ty {
        Ty::Scalar(elem) => Ok(Ty::Scalar(*elem)),
        Ty::Tensor { extents, elem } => {
            let extents = copy_list(alloc, extents.as_slice())?;
            Ok(Ty::Tensor {
                extents,
                elem: *elem,
            })
        }
        Ty::Vector { extents, elem } => {
            let extents = copy_list(alloc, extents.as_slice())?;
            Ok(Ty::Vector {
                extents,
                elem: *elem,
            })
        }
    }
}

pub(crate) fn copy_types(alloc: Global, types: &[Ty]) -> Result<List<Ty>, Memory>
    ensures { IfOk result (λ l. l ≡ types.now) }
{
    let mut copies = List::new(alloc);
    for ty in types {
        let copy = copy_type(alloc, ty)?;
        copies.push(copy)?;
    }
    Ok(copies)
}

pub(crate) fn copy_definitions(
    alloc: Global,
    definitions: &[(ValueId, Ty)],
) -> Result<List<(ValueId, Ty)>, Memory>
    ensures { IfOk result (λ l. l ≡ definitions.now) }
{
    let mut copies = List::new(alloc);
    for d in definitions {
        let ty = copy_type(alloc, &d.1)?;
        copies.push((d.0, ty))?;
    }
    Ok(copies)
}

pub(crate) fn copy_carried(
    alloc: Global,
    carried: &[(ValueId, Ty, ValueId)],
) -> Result<List<(ValueId, Ty, ValueId)>, Memory>
    ensures { IfOk result (λ l. l ≡ carried.now) }
{
    let mut copies = List::new(alloc);
    for c in carried {
        let ty = copy_type(alloc, &c.1)?;
        copies.push((c.0, ty, c.2))?;
    }
    Ok(copies)
}
