//! How handles are defined and used.

ghost use Rattle.std.specs.Prelude.{◌≡◌, None, Ok, option_copied};
ghost use Rattle.mlir_lex.specs.Chain.{Agree, Becomes};
ghost use Rattle.script_read.specs.Scope.{fresh, define, define_each, with_group, part_of, stands_for, handle};
ghost use Rattle.script_read.specs.Names.{find};

use crate::names::{Meaning, Names, Scope, parted};
use crate::numbers::number_of;
use crate::script::HandleId;
use mlir_lex::{Fault, Refused};
use script_syntax::NextResult;
use text_format::Token;

/// No name of this text is in scope.
pub fn fresh(names: &Names, token: &Token) -> Result<(), Refused>
    ensures { Agree result (fresh names.now token.now) }
{
    match names.find(token.text()) {
        Some(_) => Err(Refused::At(Fault::Twice(token.start()))),
        None => Ok(()),
    }
}

/// The next handle has this name. No text of at most 4,194,304 bytes has so many handles that their numbers run out.
pub fn define<'a>(scope: &mut Scope<'a>, name: &Token<'a>) -> Result<(), Refused>
    ensures { Becomes scope.new result (define scope.old name.now) }
{
    fresh(&scope.env, name)?;
    let Some(next) = scope.next.checked_add(1) else {
        return Err(Refused::Memory);
    };
    scope.env.define(name.text(), Meaning::One(scope.next))?;
    scope.next = next;
    Ok(())
}

/// The next handles have these names.
pub fn define_each<'a>(scope: &mut Scope<'a>, names: &[NextResult<'a>]) -> Result<(), Refused>
    ensures { Becomes scope.new result (define_each scope.old names.now) }
{
    for next in names {
        define(scope, &next.name)?;
    }
    Ok(())
}

/// The next handles, so many, have this name, which is new.
pub fn define_group<'a>(scope: &mut Scope<'a>, name: &Token<'a>, count: u32) -> Result<(), Refused>
    requires { find scope.old.env name.now.text ≡ None }
    ensures { Becomes scope.new result (Ok (with_group scope.old name.now.text count)) }
{
    let Some(next) = scope.next.checked_add(count) else {
        return Err(Refused::Memory);
    };
    scope
        .env
        .define(name.text(), Meaning::Group(scope.next, next))?;
    scope.next = next;
    Ok(())
}

/// A result of a group of handles: the one of this number.
#[tactic(auto, using(crate::proofs::Words::word_is, crate::proofs::Words::no_part))]
fn part_of(first: u32, end: u32, digits: &[u8]) -> Option<HandleId>
    ensures { result ≡ part_of first end digits.now }
{
    match number_of(digits) {
        Some(number) => {
            let place = first as u128 + number as u128;
            if place < end as u128 {
                Some(HandleId(place as u32))
            } else {
                None
            }
        }
        None => None,
    }
}

/// The handle that a name stands for.
fn stands_for(meaning: Option<&Meaning>, digits: Option<&[u8]>) -> Option<HandleId>
    ensures { result ≡ stands_for (option_copied meaning.entry) (option_copied digits.entry) }
{
    match (meaning, digits) {
        (Some(Meaning::One(number)), None) => Some(HandleId(*number)),
        (Some(Meaning::Group(first, end)), Some(digits)) => part_of(*first, *end, digits),
        _ => None,
    }
}

/// The handle that a name stands for in a step whose first result has the number `next`.
pub fn handle(names: &Names, next: u32, token: &Token) -> Result<HandleId, Refused>
    ensures { Agree result (handle names.now next token.now) }
{
    let (name, digits) = parted(token.text());
    match stands_for(names.find(name), digits) {
        Some(handle) => {
            if handle.0 < next {
                Ok(handle)
            } else {
                Err(Refused::At(Fault::UnknownName(token.start())))
            }
        }
        None => Err(Refused::At(Fault::UnknownName(token.start()))),
    }
}
