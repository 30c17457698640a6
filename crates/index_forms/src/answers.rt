ghost use Rattle.std.specs.Prelude.{◌≡◌, ◌≤◌, length, IfOk};
ghost use Rattle.index_forms.specs.Forms.{normal, Falls};
ghost use Rattle.index_forms.specs.Bounds.{upper_of, lower_of};
ghost use Rattle.index_forms.specs.Agreement.{IsAbove, IsBelow};

use crate::bounds::{plain_lower, plain_upper};
use crate::facts::Facts;
use crate::form::LinForm;
use crate::normal::normal;
use mlir_base::Memory;
use std::alloc::Global;

/// An upper bound of a form, whatever values agree with the facts. `None` exactly where no choice of
/// the elimination gives a bound within plus and minus 2^62, or where its tree has more than 4,096
/// forms.
pub fn upper(alloc: Global, facts: &Facts, f: &LinForm) -> Result<Option<i64>, Memory>
    requires known { Falls (length facts.now) (normal f.now).terms }
    ensures bound { IfOk result (λ b. b ≡ upper_of facts.now (normal f.now)) }
    ensures sound { IfOk result (λ b. IsAbove facts.now f.now b) }
{
    match normal(f, alloc)? {
        Some(form) => plain_upper(facts.as_slice(), form, alloc),
        None => Ok(None),
    }
}

/// A lower bound of a form, the mirror image of `upper`.
pub fn lower(alloc: Global, facts: &Facts, f: &LinForm) -> Result<Option<i64>, Memory>
    requires known { Falls (length facts.now) (normal f.now).terms }
    ensures bound { IfOk result (λ b. b ≡ lower_of facts.now (normal f.now)) }
    ensures sound { IfOk result (λ b. IsBelow facts.now f.now b) }
{
    match normal(f, alloc)? {
        Some(form) => plain_lower(facts.as_slice(), &form, alloc),
        None => Ok(None),
    }
}
