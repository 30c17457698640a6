//! Numbers, and values or numbers, in lists.

ghost use Rattle.std.specs.Prelude.{◌≡◌, ◌∷◌, [], IfOk};
ghost use Rattle.mlir_lex.specs.Chain.{Agree, each};
ghost use Rattle.form_resolve.specs.Entries.{entry_place, is_axis, number_at, axis, index, is_number, next_axis, next_index, listed, behind, one_repeated, more_repeated, entries_repeated, repeated};

use form_table::{Entry, Next};
use mlir_base::{List, Memory};
use mlir_ir::Idx;
use mlir_lex::{Fault, Refused};
use mlir_scope::{Names, digits_value, value_id};
use std::alloc::Global;
use text_format::Token;

pub(crate) fn copy_token<'a>(token: &Token<'a>) -> Token<'a>
    ensures { result ≡ token.now }
{
    Token::new(token.kind(), token.start(), token.text())
}

/// Where an entry begins.
pub(crate) fn entry_place(entry: &Entry) -> u32
    ensures { result ≡ entry_place entry.now }
{
    match entry {
        Entry::Token(token) => token.start(),
        Entry::Number(None, digits) => digits.start(),
        Entry::Number(Some(minus), _) => minus.start(),
        Entry::Map(map) => map.keyword.start(),
    }
}

fn is_axis(negative: bool, number: u64) -> bool
    ensures { result ≡ is_axis negative number }
{
    if negative {
        number == 0
    } else {
        number <= 1048576
    }
}

fn read_number(negative: bool, at: u32, digits: &Token) -> Result<u32, Refused>
    ensures { Agree result (number_at negative at digits.now) }
{
    let Some(number) = digits_value(digits.text()) else {
        return Err(Refused::At(Fault::Number(at, at)));
    };
    if !is_axis(negative, number) {
        return Err(Refused::At(Fault::Number(at, at)));
    }
    Ok(number as u32)
}

/// An axis, or an entry of an order.
fn read_axis(entry: &Entry) -> Result<u32, Refused>
    ensures { Agree result (axis entry.now) }
{
    match entry {
        Entry::Number(None, digits) => read_number(false, digits.start(), digits),
        Entry::Number(Some(minus), digits) => read_number(true, minus.start(), digits),
        _ => Err(Refused::At(Fault::Syntax(u32::MAX))),
    }
}

/// A list of one item.
pub(crate) fn list_of<T: Drop>(alloc: Global, item: T) -> Result<List<T>, Memory>
    ensures { IfOk result (λ l. l ≡ item ∷ []) }
{
    let mut list = List::new(alloc);
    list.push(item)?;
    Ok(list)
}

/// The axes behind these.
fn more_axes(axes: List<u32>, more: &[Next]) -> Result<List<u32>, Refused>
    ensures { Agree result (behind axes (each next_axis more.now)) }
{
    let mut found = axes;
    for next in more {
        let number = read_axis(&next.entry)?;
        found.push(number)?;
    }
    Ok(found)
}

/// The axes of a list, in order.
pub(crate) fn read_axes(
    alloc: Global,
    first: &Option<Entry>,
    more: &[Next],
) -> Result<List<u32>, Refused>
    ensures { Agree result (listed axis first.now more.now) }
{
    match first {
        None => more_axes(List::new(alloc), more),
        Some(entry) => {
            let number = read_axis(entry)?;
            let found = list_of(alloc, number)?;
            more_axes(found, more)
        }
    }
}

/// A value, or a number.
fn read_index(names: &Names, entry: &Entry) -> Result<Idx, Refused>
    ensures { Agree result (index names.now entry.now) }
{
    match entry {
        Entry::Token(token) => {
            let value = value_id(names, token)?;
            Ok(Idx::Value(value))
        }
        _ => {
            let number = read_axis(entry)?;
            Ok(Idx::Literal(number as i64))
        }
    }
}

/// The values and numbers behind these.
fn more_indices(indices: List<Idx>, names: &Names, more: &[Next]) -> Result<List<Idx>, Refused>
    ensures { Agree result (behind indices (each (next_index names.now) more.now)) }
{
    let mut found = indices;
    for next in more {
        let index = read_index(names, &next.entry)?;
        found.push(index)?;
    }
    Ok(found)
}

/// The values and numbers of a list, in order.
pub(crate) fn read_indices(
    alloc: Global,
    names: &Names,
    first: &Option<Entry>,
    more: &[Next],
) -> Result<List<Idx>, Refused>
    ensures { Agree result (listed (index names.now) first.now more.now) }
{
    match first {
        None => more_indices(List::new(alloc), names, more),
        Some(entry) => {
            let index = read_index(names, entry)?;
            let found = list_of(alloc, index)?;
            more_indices(found, names, more)
        }
    }
}

fn check_number(wanted: u32, entry: &Entry) -> Result<(), Refused>
    ensures { Agree result (is_number wanted entry.now) }
{
    let number = read_axis(entry)?;
    if number == wanted {
        Ok(())
    } else {
        Err(Refused::At(Fault::Unsupported(entry_place(entry))))
    }
}

/// One of so many entries, which must be this number. Answers how many are left.
fn check_one(wanted: u32, left: usize, at: u32, entry: &Entry) -> Result<usize, Refused>
    ensures { Agree result (one_repeated wanted left at entry.now) }
{
    if left == 0 {
        return Err(Refused::At(Fault::Syntax(at)));
    }
    check_number(wanted, entry)?;
    Ok(left - 1)
}

fn check_more(wanted: u32, count: usize, more: &[Next]) -> Result<usize, Refused>
    ensures { Agree result (more_repeated wanted count more.now) }
{
    let mut left = count;
    for next in more {
        left = check_one(wanted, left, next.comma.start(), &next.entry)?;
    }
    Ok(left)
}

fn check_entries(
    wanted: u32,
    count: usize,
    first: &Option<Entry>,
    more: &[Next],
) -> Result<usize, Refused>
    ensures { Agree result (entries_repeated wanted count first.now more.now) }
{
    match first {
        None => check_more(wanted, count, more),
        Some(entry) => {
            let left = check_one(wanted, count, entry_place(entry), entry)?;
            check_more(wanted, left, more)
        }
    }
}

/// So many entries of a list are this number.
pub(crate) fn check_repeated(
    wanted: u32,
    count: usize,
    first: &Option<Entry>,
    more: &[Next],
    close: &Token,
) -> Result<(), Refused>
    ensures { Agree result (repeated wanted count first.now more.now close.now) }
{
    let left = check_entries(wanted, count, first, more)?;
    if left == 0 {
        Ok(())
    } else {
        Err(Refused::At(Fault::Syntax(close.start())))
    }
}
