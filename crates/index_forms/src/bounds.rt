ghost use Rattle.std.specs.Prelude.{◌≡◌, length, IfOk, IsTrue, pos, ◌-ℤ◌};
ghost use Rattle.index_forms.specs.Forms.{Falls};
ghost use Rattle.index_forms.specs.Limit.{within, checked};
ghost use Rattle.index_forms.specs.Facts.{AreFacts};
ghost use Rattle.index_forms.specs.Bounds.{upper_of, lower_of, negated};
ghost use Rattle.index_forms.specs.Agreement.{IsAbove, IsBelow};

use crate::form::{Fact, LinForm, moved};
use crate::stack::{Turn, down, up};
use mlir_base::{List, Memory};
use std::alloc::Global;

/// An upper bound of a normal form: the elimination meets at most 4,096 forms.
pub(crate) fn plain_upper(facts: &[Fact], f: LinForm, alloc: Global) -> Result<Option<i64>, Memory>
    requires known { AreFacts facts.now }
    requires falls { Falls (length facts.now) f.terms }
    requires within { IsTrue (within f) }
    ensures bound { IfOk result (λ b. b ≡ upper_of facts.now f) }
    ensures sound { IfOk result (λ b. IsAbove facts.now f b) }
{
    let mut stack = Vec::new(alloc);
    let mut left = 4096u32;
    let mut turn = Turn::Form(Some(f));
    loop {
        turn = match turn {
            Turn::Form(form) => {
                if left == 0 {
                    return Ok(None);
                }
                left -= 1;
                down(facts, form, &mut stack, alloc)?
            }
            Turn::Bound(bound) => match stack.pop() {
                Some(frame) => up(facts, frame, bound, &mut stack, alloc)?,
                None => return Ok(bound),
            },
        };
    }
}

/// The form with each number's sign turned.
fn negative(f: &LinForm, alloc: Global) -> Result<LinForm, Memory>
    requires { IsTrue (within f.now) }
    ensures { IfOk result (λ g. g ≡ negated f.now) }
{
    let mut terms = List::new(alloc);
    for t in f.terms.as_slice() {
        terms.push((t.0, -t.1))?;
    }
    Ok(LinForm {
        constant: -f.constant,
        terms,
    })
}

/// The bound with its sign turned.
fn turned_bound(bound: i64) -> Option<i64>
    ensures { result ≡ checked (pos 0 -ℤ bound) }
{
    moved(0, -1, bound)
}

/// A lower bound of a normal form.
pub(crate) fn plain_lower(facts: &[Fact], f: &LinForm, alloc: Global) -> Result<Option<i64>, Memory>
    requires known { AreFacts facts.now }
    requires falls { Falls (length facts.now) f.now.terms }
    requires within { IsTrue (within f.now) }
    ensures bound { IfOk result (λ b. b ≡ lower_of facts.now f.now) }
    ensures sound { IfOk result (λ b. IsBelow facts.now f.now b) }
{
    let turned = negative(f, alloc)?;
    match plain_upper(facts, turned, alloc)? {
        Some(bound) => Ok(turned_bound(bound)),
        None => Ok(None),
    }
}
