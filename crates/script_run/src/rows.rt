//! What result handles name.

ghost use Rattle.std.specs.Prelude.{◌≡◌, [], ◌∷◌, ◌++◌, Some, None, length, map, IfOk, OnOk, unwrap_or};
ghost use Rattle.script_run.specs.Steps.{result_rows};

use mlir_base::{List, Memory};
use script_read::HandleId;
use std::alloc::Global;
use transform_handles::Target;

/// The targets, the first time.
fn once(alloc: Global, given: &mut Option<List<Target>>) -> List<Target>
    ensures value { result ≡ unwrap_or given.old [] }
    ensures after { given.new ≡ None }
{
    match given.take() {
        Some(targets) => targets,
        None => List::new(alloc),
    }
}

/// The first result handle names the targets, and others none.
pub(crate) fn one_row(
    alloc: Global,
    results: &[HandleId],
    targets: List<Target>,
) -> Result<Vec<(u32, Option<List<Target>>)>, Memory>
    ensures { IfOk result (λ rows. rows.items ≡ result_rows results.now (targets ∷ [])) }
{
    let mut rows = Vec::new(alloc);
    let mut given = Some(targets);
    for h in results {
        let named = once(alloc, &mut given);
        match rows.push((h.0, Some(named))) {
            Ok(()) => {}
            Err(_) => return Err(Memory),
        }
    }
    Ok(rows)
}

fn add_single(
    alloc: Global,
    rows: &mut Vec<(u32, Option<List<Target>>)>,
    h: HandleId,
    t: Target,
) -> Result<(), Memory>
    ensures { OnOk result (rows.new.items ≡ rows.old.items ++ (h.0, Some (t ∷ [])) ∷ []) }
{
    let mut targets = List::new(alloc);
    match targets.push(t) {
        Ok(()) => {}
        Err(e) => return Err(e),
    }
    match rows.push((h.0, Some(targets))) {
        Ok(()) => Ok(()),
        Err(_) => Err(Memory),
    }
}

/// One target to each result handle.
pub(crate) fn split_rows(
    alloc: Global,
    results: &[HandleId],
    targets: &[Target],
) -> Result<Vec<(u32, Option<List<Target>>)>, Memory>
    requires { length targets.now ≡ length results.now }
    ensures { IfOk result (λ rows. rows.items ≡ result_rows results.now (map (λ t. t ∷ []) targets.now)) }
{
    let mut rows = Vec::new(alloc);
    for (k, h) in results.iter().enumerate() {
        match add_single(alloc, &mut rows, *h, targets[k]) {
            Ok(()) => {}
            Err(e) => return Err(e),
        }
    }
    Ok(rows)
}
