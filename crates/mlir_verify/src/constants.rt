ghost use Rattle.std.specs.Prelude.{◌≡◌, ◌^◌, ◌==◌, ◌&&◌, nat_lt, length, option_copied};
ghost use Rattle.mlir_verify.specs.Constants.{are_cells, has_cells};
ghost use Rattle.mlir_verify.specs.Tensors.{elements};

use crate::tensors::elements;
use mlir_base::{ElemTy, Width};
use mlir_ir::{Extent, Ty};

fn is_cell(elem: Width, cell: u64) -> bool
    ensures { result ≡ nat_lt cell (2 ^ elem) }
{
    (cell as u128) < 1u128 << elem.bits()
}

fn are_cells(elem: Width, cells: &[u64]) -> bool
    ensures { result ≡ are_cells elem cells.now }
{
    cells.iter().all(|c| is_cell(elem, *c))
}

fn are_as_many(extents: &[Extent], cells: &[u64]) -> bool
    ensures { result ≡ length cells.now == elements extents.now }
{
    cells.len() as u64 == elements(extents)
}

/// Whether there are as many cells as the type has elements, each a value of their width.
pub(crate) fn has_cells(ty: Option<&Ty>, cells: &[u64]) -> bool
    ensures { result ≡ has_cells (option_copied ty.entry) cells.now }
{
    match ty {
        Some(Ty::Scalar(ElemTy::Int(w))) => cells.len() == 1 && are_cells(*w, cells),
        Some(Ty::Tensor { extents, elem }) => {
            are_as_many(extents.as_slice(), cells) && are_cells(*elem, cells)
        }
        _ => false,
    }
}
