//! Values that are used, and types that are written for them.

ghost use Rattle.std.specs.Prelude.{◌≡◌, drop};
ghost use Rattle.mlir_lex.specs.Chain.{Agree, Leaves};
ghost use Rattle.form_resolve.specs.Entries.{use_of, next_use, more_uses, type_entry, more_types, typed_at, type_of_at, output_type};

use crate::entries::copy_token;
use form_table::{Entry, Next};
use mlir_base::{ElemTy, List};
use mlir_ir::{Ty, ValueId};
use mlir_lex::{Fault, Refused};
use mlir_scope::{Names, operand, type_of, typed_as};
use std::alloc::Global;
use text_format::Token;

/// One more value that is used.
pub(crate) fn use_value<'a>(
    names: &Names,
    used: &mut List<Token<'a>>,
    token: &Token<'a>,
) -> Result<(ValueId, ElemTy), Refused>
    ensures { Leaves used.new result (use_of names.now used.old token.now) }
{
    let value = operand(names, used.len(), token)?;
    used.push(copy_token(token))?;
    Ok(value)
}

fn use_entry<'a>(
    names: &Names,
    used: &mut List<Token<'a>>,
    entry: &Entry<'a>,
) -> Result<(ValueId, ElemTy), Refused>
    ensures { Leaves used.new result (next_use names.now used.old entry.now) }
{
    match entry {
        Entry::Token(token) => use_value(names, used, token),
        _ => Err(Refused::At(Fault::Syntax(u32::MAX))),
    }
}

/// The values that are used behind another, in order.
pub(crate) fn use_more<'a>(
    alloc: Global,
    names: &Names,
    used: &mut List<Token<'a>>,
    more: &[Next<'a>],
) -> Result<List<(ValueId, ElemTy)>, Refused>
    ensures { Leaves used.new result (more_uses names.now used.old more.now) }
{
    let mut found = List::new(alloc);
    for next in more {
        let value = use_entry(names, used, &next.entry)?;
        found.push(value)?;
    }
    Ok(found)
}

/// The type is that of the used value of this number.
pub(crate) fn check_type(
    alloc: Global,
    names: &Names,
    used: &[Token],
    number: usize,
    ty: &Token,
) -> Result<(), Refused>
    ensures { Agree result (typed_at names.now (drop number used.now) ty.now) }
{
    if number < used.len() {
        typed_as(alloc, names, &used[number], ty)
    } else {
        Err(Refused::At(Fault::Syntax(u32::MAX)))
    }
}

fn read_type(alloc: Global, names: &Names, used: &[Token], number: usize) -> Result<Ty, Refused>
    ensures { Agree result (type_of_at names.now (drop number used.now)) }
{
    if number < used.len() {
        type_of(alloc, names, &used[number])
    } else {
        Err(Refused::At(Fault::Syntax(u32::MAX)))
    }
}

/// The type is that of the last used value.
pub(crate) fn read_output_type(
    alloc: Global,
    names: &Names,
    used: &[Token],
    ty: &Token,
) -> Result<Ty, Refused>
    ensures { Agree result (output_type names.now used.now ty.now) }
{
    let last = used.len().saturating_sub(1);
    check_type(alloc, names, used, last, ty)?;
    read_type(alloc, names, used, last)
}

fn check_type_entry(
    alloc: Global,
    names: &Names,
    name: &Token,
    entry: &Entry,
) -> Result<(), Refused>
    ensures { Agree result (type_entry names.now name.now entry.now) }
{
    match entry {
        Entry::Token(ty) => typed_as(alloc, names, name, ty),
        _ => Err(Refused::At(Fault::Syntax(u32::MAX))),
    }
}

/// The types of the used values from this number on, one for each. Answers how many are missing.
pub(crate) fn check_types(
    alloc: Global,
    names: &Names,
    used: &[Token],
    number: usize,
    more: &[Next],
) -> Result<usize, Refused>
    ensures { Agree result (more_types names.now (drop number used.now) more.now) }
{
    let mut at = number;
    for next in more {
        if at >= used.len() {
            return Err(Refused::At(Fault::Syntax(next.comma.start())));
        }
        check_type_entry(alloc, names, &used[at], &next.entry)?;
        at += 1;
    }
    Ok(used.len().saturating_sub(at))
}
