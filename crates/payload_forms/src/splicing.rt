ghost use Rattle.std.specs.Prelude.{◌≡◌, ◌<◌, ◌++◌, length, IfOk, OnOk};
ghost use Rattle.payload_forms.specs.Joined.{spliced};

use mlir_base::{List, Memory};
use std::alloc::Global;

fn push_all<T: Copy + Drop>(all: &mut List<T>, items: &[T]) -> Result<(), Memory>
    ensures { OnOk result (all.new ≡ all.old ++ items.now) }
{
    for item in items {
        all.push(*item)?;
    }
    Ok(())
}

fn copied<T: Copy + Drop>(alloc: Global, items: &[T]) -> Result<List<T>, Memory>
    ensures { IfOk result (λ l. l ≡ items.now) }
{
    let mut all = List::new(alloc);
    push_all(&mut all, items)?;
    Ok(all)
}

fn spliced_at<T: Copy + Drop>(
    alloc: Global,
    at: usize,
    others: &[T],
    items: &[T],
) -> Result<List<T>, Memory>
    requires { at < length items.now }
    ensures { IfOk result (λ l. l ≡ spliced at others.now items.now) }
{
    let mut all = List::new(alloc);
    push_all(&mut all, &items[..at])?;
    push_all(&mut all, others)?;
    push_all(&mut all, &items[at + 1..])?;
    Ok(all)
}

/// The items, with others in the place of item `at`. They stay as they are where there is no such item.
pub fn spliced<T: Copy + Drop>(
    alloc: Global,
    at: u32,
    others: &[T],
    items: &[T],
) -> Result<List<T>, Memory>
    ensures { IfOk result (λ l. l ≡ spliced at others.now items.now) }
{
    let at = at as usize;
    if at < items.len() {
        spliced_at(alloc, at, others, items)
    } else {
        copied(alloc, items)
    }
}
