//! Linear forms in a multiple.

ghost use Rattle.std.specs.Prelude.{◌≡◌, ◌&&◌, max, ℕ, true, if◌then◌else◌, IfOk, MatchOption, ◌^◌, ◌≤◌, ◌<◌, ◌*◌, ◌*ℤ◌, nat_le, unsigned_abs};
ghost use Rattle.mlir_base.specs.Numbers.{is_in_range};
ghost use Rattle.affine_text.specs.Collected.{is_zero, constant_form, dimension_form, has_terms, negative_form};
ghost use Rattle.affine_text.specs.Multiples.{greatest_of, is_collected, value_of, IsMultiple, multiple_of, TimesGives};

use crate::reading::fault::NoProduct;
use affine_maps::Expr;
use mlir_base::{List, Memory};
use std::alloc::Global;

/// A constant alone.
pub fn constant_form(alloc: Global, constant: i64) -> Expr
    ensures { result ≡ constant_form constant }
{
    Expr {
        constant,
        terms: List::new(alloc),
    }
}

/// A dimension alone.
pub fn dimension_form(alloc: Global, dimension: u32) -> Result<Expr, Memory>
    ensures { IfOk result (λ e. e ≡ dimension_form dimension) }
{
    let mut terms = List::new(alloc);
    terms.push((dimension, 1i64))?;
    Ok(Expr { constant: 0, terms })
}

fn greater(a: u64, b: u64) -> u64
    ensures { result ≡ max a b }
{
    if a < b { b } else { a }
}

/// The greatest magnitude of a form's numbers.
fn greatest_of(form: &Expr) -> u64
    ensures { result ≡ greatest_of form.now }
{
    let mut greatest = form.constant.unsigned_abs();
    for term in form.terms.as_slice() {
        greatest = greater(greatest, term.1.unsigned_abs());
    }
    greatest
}

pub fn is_zero(number: i64) -> bool
    ensures { result ≡ is_zero number }
{
    number.unsigned_abs() == 0
}

pub fn product(a: i64, b: i64) -> i64
    requires a { unsigned_abs a ≤ 2 ^ 31 }
    requires b { unsigned_abs b ≤ 2 ^ 31 }
    ensures { result ≡ a *ℤ b }
{
    a * b
}

fn is_within(by: i64, greatest: u64) -> bool
    requires some { 0 < greatest }
    requires few { greatest ≤ 2 ^ 31 }
    ensures { result ≡ nat_le (unsigned_abs by * greatest) (2 ^ 31) }
{
    let magnitude = by.unsigned_abs();
    magnitude <= 1 << 31 && magnitude * greatest <= 1 << 31
}

/// A form in its multiple `by`. A form without terms is 1, so that `by` is all of it; `greatest` is
/// the greatest magnitude of the form's numbers. So a product is multiplied by a number without
/// going over its terms.
#[derive(Drop)]
pub struct Multiple {
    pub by: i64,
    pub form: Expr,
    pub greatest: u64,
}

impl Multiple {
    pub fn of_number(alloc: Global, number: i64) -> Multiple
        requires { is_in_range number ≡ true }
        ensures value { value_of result ≡ constant_form number }
        ensures holds { IsMultiple result }
    {
        Multiple {
            by: number,
            form: constant_form(alloc, 1),
            greatest: 1,
        }
    }

    pub fn of_dimension(alloc: Global, dimension: u32) -> Result<Multiple, Memory>
        ensures value { IfOk result (λ m. value_of m ≡ dimension_form dimension) }
        ensures holds { IfOk result (λ m. IsMultiple m) }
    {
        let form = dimension_form(alloc, dimension)?;
        Ok(Multiple {
            by: 1,
            form,
            greatest: 1,
        })
    }

    pub fn of_form(alloc: Global, form: Expr) -> Multiple
        requires { is_collected form ≡ true }
        ensures value { value_of result ≡ form }
        ensures holds { IsMultiple result }
    {
        if form.terms.is_empty() {
            return Multiple::of_number(alloc, form.constant);
        }
        let greatest = greatest_of(&form);
        Multiple {
            by: 1,
            form,
            greatest,
        }
    }

    fn with_by(self, by: i64) -> Multiple
        ensures { result ≡ multiple_of by self }
    {
        Multiple {
            by,
            form: self.form,
            greatest: self.greatest,
        }
    }

    /// The form with its sign turned.
    pub fn negated(self) -> Multiple
        requires { IsMultiple self }
        ensures value { value_of result ≡ negative_form (value_of self) }
        ensures holds { IsMultiple result }
    {
        let by = product(-1, self.by);
        self.with_by(by)
    }

    fn has_terms(&self) -> bool
        ensures { result ≡ has_terms (value_of self.now) }
    {
        !is_zero(self.by) && !self.form.terms.is_empty()
    }

    fn both_have_terms(&self, other: &Multiple) -> bool
        ensures { result ≡ has_terms (value_of other.now) && has_terms (value_of self.now) }
    {
        other.has_terms() && self.has_terms()
    }

    /// The other where it replaces this one.
    fn or_other(self, other: Multiple, replaces: bool) -> Multiple
        ensures { result ≡ (if replaces then other else self) }
    {
        if replaces { other } else { self }
    }

    pub fn times(self, other: Multiple) -> Result<Multiple, NoProduct>
        requires left { IsMultiple self }
        requires right { IsMultiple other }
        ensures { TimesGives self other result }
    {
        if self.both_have_terms(&other) {
            return Err(NoProduct::Form);
        }
        let replaces = other.has_terms();
        let by = product(self.by, other.by);
        let kept = self.or_other(other, replaces);
        if is_within(by, kept.greatest) {
            Ok(kept.with_by(by))
        } else {
            Err(NoProduct::Range)
        }
    }
}
