ghost use Rattle.std.specs.Prelude.{◌≡◌, ◌≤◌, ◌^◌, ◌++◌, ◌+ℤ◌, ◌-ℤ◌, ◌*ℤ◌, pos, slice_get, unsigned_abs, IsTrue, IfOk, OnOk, option_copied};
ghost use Rattle.std.specs.List.{list_all};
ghost use Rattle.affine_maps.specs.Map.{terms_fit};
ghost use Rattle.affine_maps.specs.Value.{weighted_sum};
ghost use Rattle.mlir_base.specs.Numbers.{is_in_range};
ghost use Rattle.operand_slices.specs.Slices.{number_at, terms_of, terms_at, is_near};

use mlir_base::{List, Memory};
use mlir_ir::Idx;
use std::alloc::Global;

/// The number of a dimension's entry, where it is a literal.
fn number_at(entries: &[Idx], d: u32) -> i64
    requires { IsTrue (list_all is_near entries.now) }
    ensures value { result ≡ number_at entries.now d }
    ensures small { unsigned_abs result ≤ 2 ^ 21 }
{
    match entries.get(d as usize) {
        Some(Idx::Literal(n)) => *n,
        Some(Idx::Value(_)) => 0,
        None => 0,
    }
}

/// The number of a dimension's entry, made less.
fn number_less(entries: &[Idx], d: u32, less: u32) -> i64
    requires near { IsTrue (list_all is_near entries.now) }
    requires less { less ≤ 1 }
    ensures value { result ≡ number_at entries.now d -ℤ pos less }
    ensures small { unsigned_abs result ≤ 2 ^ 22 }
{
    number_at(entries, d) - less as i64
}

/// The number of a term at entries, each made less.
fn term_value(term: (u32, i64), entries: &[Idx], less: u32) -> i64
    requires coefficient { IsTrue (is_in_range term.1) }
    requires near { IsTrue (list_all is_near entries.now) }
    requires less { less ≤ 1 }
    ensures value { result ≡ term.1 *ℤ (number_at entries.now term.0 -ℤ pos less) }
    ensures small { unsigned_abs result ≤ 2 ^ 53 }
{
    let at = number_less(entries, term.0, less);
    term.1 * at
}

/// The number of an expression at entries, each made less.
pub(crate) fn sum_at(
    dims: u32,
    constant: i64,
    terms: &[(u32, i64)],
    entries: &[Idx],
    less: u32,
) -> i64
    requires few { dims ≤ 12 }
    requires constant { unsigned_abs constant ≤ 2 ^ 31 }
    requires fits { IsTrue (terms_fit dims terms.now 0) }
    requires near { IsTrue (list_all is_near entries.now) }
    requires less { less ≤ 1 }
    ensures { result ≡ constant +ℤ weighted_sum terms.now (λ d. number_at entries.now d -ℤ pos less) }
{
    let mut sum = constant;
    for term in terms {
        let value = term_value(*term, entries, less);
        sum += value;
    }
    sum
}

/// Adds an entry's term last, where it is a value.
fn add_term(terms: &mut List<(u32, i64)>, by: i64, entry: Option<&Idx>) -> Result<(), Memory>
    ensures { OnOk result (terms.new ≡ terms.old ++ terms_of by (option_copied entry.entry)) }
{
    match entry {
        Some(Idx::Value(v)) => terms.push((v.0, by)),
        Some(Idx::Literal(_)) => Ok(()),
        None => Ok(()),
    }
}

/// Adds a term at entries last.
fn add_at(terms: &mut List<(u32, i64)>, term: (u32, i64), entries: &[Idx]) -> Result<(), Memory>
    ensures { OnOk result (terms.new ≡ terms.old ++ terms_of term.1 (slice_get entries.now term.0)) }
{
    add_term(terms, term.1, entries.get(term.0 as usize))
}

/// The terms of an entry.
pub(crate) fn terms_of(
    alloc: Global,
    by: i64,
    entry: Option<&Idx>,
) -> Result<List<(u32, i64)>, Memory>
    ensures { IfOk result (λ l. l ≡ terms_of by (option_copied entry.entry)) }
{
    let mut all = List::new(alloc);
    add_term(&mut all, by, entry)?;
    Ok(all)
}

/// The values of an expression at entries, with their coefficients.
pub(crate) fn terms_at(
    alloc: Global,
    terms: &[(u32, i64)],
    entries: &[Idx],
) -> Result<List<(u32, i64)>, Memory>
    ensures { IfOk result (λ l. l ≡ terms_at terms.now entries.now) }
{
    let mut all = List::new(alloc);
    for term in terms {
        add_at(&mut all, *term, entries)?;
    }
    Ok(all)
}
