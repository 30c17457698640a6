ghost use Rattle.std.specs.Prelude.{suc, ◌≡◌, ◌<◌, ◌+◌, length, slice_index_or, IfOk, IsTrue, int_lt, pos, ◌<ℤ◌, ◌+ℤ◌, ◌-ℤ◌, ◌*ℤ◌, int_div, if◌then◌else◌};
ghost use Rattle.index_forms.specs.Forms.{Falls, form, number, is_number};
ghost use Rattle.index_forms.specs.Limit.{within, in_limit, IsForm};
ghost use Rattle.index_forms.specs.Facts.{IsFact};
ghost use Rattle.index_forms.specs.Bounds.{choices, loop_end};
ghost use Rattle.index_forms.specs.Stack.{replaced};

use crate::form::{Fact, LinForm, plus_scaled};
use mlir_base::Memory;
use std::alloc::Global;

/// The last of `lower`, `lower + step` and so on below `upper`.
fn last_of(lower: i64, upper: i64, step: i64) -> i64
    requires lower { IsTrue (in_limit lower) }
    requires upper { IsTrue (in_limit upper) }
    requires some { lower <ℤ upper }
    requires step { pos 0 <ℤ step }
    ensures { result ≡ lower +ℤ int_div (upper -ℤ lower -ℤ pos 1) step *ℤ step }
{
    let most = upper - 1 - lower;
    lower + most / step * step
}

/// The number of the form that takes the place of a loop's variable.
fn turned(lower: &LinForm, upper: &LinForm, step: i64) -> i64
    requires step { pos 0 <ℤ step }
    requires lower { IsTrue (within lower.now) }
    requires upper { IsTrue (within upper.now) }
    ensures { result ≡ (loop_end lower.now upper.now step).constant }
{
    if no_terms(lower) && no_terms(upper) && lower.constant < upper.constant {
        last_of(lower.constant, upper.constant, step)
    } else {
        upper.constant - 1
    }
}

/// Tells whether a normal form is a number.
fn no_terms(f: &LinForm) -> bool
    ensures { result ≡ is_number f.now }
{
    f.terms.as_slice().len() == 0
}

/// What takes the place of an extent.
fn reach(most: i64, by: i64) -> i64
    ensures { result ≡ (if int_lt (pos 0) by then most else pos 0) }
{
    if by > 0 { most } else { 0 }
}

/// How many forms may take the place of an atom.
pub(crate) fn count(fact: &Fact, by: i64) -> usize
    ensures { result ≡ length (choices fact.now by) }
{
    match fact {
        Fact::Loop { .. } => 1,
        Fact::Least { terms } => terms.len(),
        Fact::Extent { .. } => 1,
    }
}

/// The form with another, `number + others`, in the place of its first atom. `None` where a number leaves
/// the limit.
fn with_first(
    f: &LinForm,
    number: i64,
    others: &[(u32, i64)],
    alloc: Global,
) -> Result<Option<LinForm>, Memory>
    requires form { IsForm (suc (slice_index_or f.now.terms 0 (0, pos 0)).0) f.now }
    requires some { 0 < length f.now.terms }
    requires others { Falls (slice_index_or f.now.terms 0 (0, pos 0)).0 others.now }
    ensures { IfOk result (λ r. r ≡ replaced f.now.constant f.now.terms (form number others.now)) }
{
    let terms = f.terms.as_slice();
    let by = terms[0].1;
    plus_scaled(f.constant, &terms[1..], by, number, others, alloc)
}

/// The form with what is known of its first atom in its place, by the choice of this number.
pub(crate) fn child(
    fact: &Fact,
    f: &LinForm,
    by: i64,
    choice: usize,
    alloc: Global,
) -> Result<Option<LinForm>, Memory>
    requires fact { IsFact (slice_index_or f.now.terms 0 (0, pos 0)).0 fact.now }
    requires form { IsForm (suc (slice_index_or f.now.terms 0 (0, pos 0)).0) f.now }
    requires some { 0 < length f.now.terms }
    requires choice { choice < length (choices fact.now by) }
    ensures { IfOk result (λ r. r ≡ replaced f.now.constant f.now.terms (slice_index_or (choices fact.now by) choice (number (pos 0)))) }
{
    match fact {
        Fact::Loop { lower, upper, step } => {
            if by > 0 {
                let end = turned(lower, upper, *step);
                with_first(f, end, upper.terms.as_slice(), alloc)
            } else {
                with_first(f, lower.constant, lower.terms.as_slice(), alloc)
            }
        }
        Fact::Least { terms } => {
            let g = &terms.as_slice()[choice];
            with_first(f, g.constant, g.terms.as_slice(), alloc)
        }
        Fact::Extent { most } => with_first(f, reach(*most, by), &[], alloc),
    }
}
