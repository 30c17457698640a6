ghost use Rattle.std.specs.Prelude.{◌≡◌, option_copied};
ghost use Rattle.mlir_ir.specs.Count.{first};
ghost use Rattle.mlir_verify.specs.Place.{type_among};
ghost use Rattle.mlir_edits.specs.Places.{scope_before};
ghost use Rattle.verified_runs.specs.Passes.{scope_after};

use mlir_ir::{Func, Op, Ty, ValueId};

/// The type that a value has among definitions, of which a later one counts.
fn type_among(definitions: &[(ValueId, Ty)], v: ValueId) -> Option<&Ty>
    ensures { option_copied result ≡ type_among definitions.now v.0 }
{
    let mut found = None;
    for d in definitions {
        if d.0.0 == v.0 {
            found = Some(&d.1);
        }
    }
    found
}

/// The second where it is there.
fn newer<'a>(known: Option<&'a Ty>, new: Option<&'a Ty>) -> Option<&'a Ty>
    ensures { option_copied result ≡ first (option_copied new.entry) (option_copied known.entry) }
{
    match new {
        Some(ty) => Some(ty),
        None => known,
    }
}

/// The type of a value that is in scope after these operations.
fn type_after<'a>(params: &'a [(ValueId, Ty)], ops: &'a [Op], v: ValueId) -> Option<&'a Ty>
    ensures { option_copied result ≡ type_among (scope_after params.now ops.now) v.0 }
{
    let mut found = type_among(params, v);
    for op in ops {
        found = newer(found, type_among(op.results.as_slice(), v));
    }
    found
}

/// The type of a value that is in scope at a position of a function's body.
pub fn type_before(f: &Func, position: usize, v: ValueId) -> Option<&Ty>
    ensures { option_copied result ≡ type_among (scope_before f.now position) v.0 }
{
    let body = f.body.as_slice();
    let end = position.min(body.len());
    type_after(f.params.as_slice(), &body[..end], v)
}
