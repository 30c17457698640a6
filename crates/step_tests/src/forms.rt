//! Named structured operations as generics: how many maps, iterators and steps each has.

use mlir_base::{Memory, Width};
use named_forms::{
    Form, batch_matmul_form, broadcast_form, fill_form, matmul_form, transpose_form,
};
use std::alloc::Global;

fn is_of(form: Option<Form>, maps: usize, iterators: usize, steps: usize) -> bool {
    match form {
        Some(f) => {
            f.maps.len() == maps
                && f.iterators.len() == iterators
                && f.payload.steps().len() == steps
        }
        None => false,
    }
}

fn has_forms(alloc: Global, narrow: Width, wide: Width) -> Result<bool, Memory> {
    let fill = is_of(fill_form(alloc, wide, 2)?, 2, 2, 0);
    let transpose = is_of(transpose_form(alloc, wide, &[1, 0])?, 2, 2, 0);
    let broadcast = is_of(broadcast_form(alloc, wide, 2, &[0])?, 2, 2, 0);
    let plain = is_of(matmul_form(alloc, wide, wide)?, 3, 3, 2);
    let widened = is_of(batch_matmul_form(alloc, narrow, wide)?, 3, 4, 4);
    Ok(fill && transpose && broadcast && plain && widened)
}

#[test]
fn named_operations_have_forms(rt: HostRuntime) -> Result<(), Memory> {
    let narrow = Width::new(8).ok_or(Memory)?;
    let wide = Width::new(32).ok_or(Memory)?;
    assert!(rt; has_forms(rt.alloc(), narrow, wide)?);
    Ok(())
}
