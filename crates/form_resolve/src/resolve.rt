//! What the parts of an operation stand for: one loop over the form.

ghost use Rattle.std.specs.Prelude.{◌≡◌};
ghost use Rattle.mlir_lex.specs.Chain.{Agree};
ghost use Rattle.form_resolve.specs.Forms.{silent};
ghost use Rattle.form_resolve.specs.Resolving.{token_stands, entry_stands, held_stand, listed_stand, more_stand, kept_stands, stands, Stood, resolved, nothing_seen, Goes};

use crate::entries::{check_repeated, entry_place, read_axes, read_indices};
use crate::held::{read_iterators, read_maps};
use crate::uses::{check_type, check_types, read_output_type, use_more, use_value};
use crate::value::{Seen, Value};
use form_table::{Element, Entry, Next, Part, Role, Want};
use mlir_base::List;
use mlir_lex::{Fault, Refused};
use mlir_scope::{Aliases, Names, type_at};
use std::alloc::Global;
use text_format::{Class, Token};

/// How many wants are left out behind one that has no part.
fn silent(want: &Want) -> Option<usize>
    ensures { result ≡ silent want.now }
{
    match *want {
        Want::Fixed(_) | Want::Space => Some(0),
        Want::Jump(left_out) => Some(left_out),
        _ => None,
    }
}

/// What a token stands for, by its role.
#[tactic(auto, unfolding(crate::specs::Resolving::token_stands))]
fn take_token<'a>(
    alloc: Global,
    names: &Names,
    role: Role,
    seen: &mut Seen<'a>,
    token: &Token<'a>,
) -> Result<(Option<Value>, usize), Refused>
    ensures { Stood seen.new result (token_stands names.now role seen.old token.now) }
{
    match role {
        Role::Used => {
            let (value, elem) = use_value(names, &mut seen.used, token)?;
            Ok((Some(Value::Id(value, elem)), 0))
        }
        Role::TypeOf(number) => {
            check_type(alloc, names, seen.used.as_slice(), number, token)?;
            Ok((None, 0))
        }
        Role::ResultType => {
            let ty = type_at(alloc, token)?;
            Ok((Some(Value::Typed(ty)), 0))
        }
        Role::OutputType => {
            let ty = read_output_type(alloc, names, seen.used.as_slice(), token)?;
            Ok((Some(Value::Typed(ty)), 0))
        }
        Role::Held | Role::Repeated(_) => Err(Refused::At(Fault::Syntax(u32::MAX))),
    }
}

/// What an entry that stands alone stands for.
fn take_entry<'a>(
    alloc: Global,
    names: &Names,
    role: Role,
    seen: &mut Seen<'a>,
    entry: &Entry<'a>,
) -> Result<(Option<Value>, usize), Refused>
    ensures { Stood seen.new result (entry_stands names.now role seen.old entry.now) }
{
    match (entry, role) {
        (Entry::Token(token), _) => take_token(alloc, names, role, seen, token),
        (Entry::Number(..), Role::Held) => Ok((Some(Value::Literal), 0)),
        _ => Err(Refused::At(Fault::Syntax(u32::MAX))),
    }
}

/// The entries of a list that the operation holds.
#[tactic(auto, unfolding(crate::specs::Resolving::held_stand))]
fn take_held<'a>(
    alloc: Global,
    aliases: &Aliases,
    names: &Names,
    element: Element,
    seen: &mut Seen<'a>,
    first: &Option<Entry<'a>>,
    more: &[Next<'a>],
) -> Result<(Option<Value>, usize), Refused>
    ensures { Stood seen.new result (held_stand aliases.now names.now element seen.old first.now more.now) }
{
    match element {
        Element::Literal => {
            let numbers = read_axes(alloc, first, more)?;
            seen.count = numbers.len();
            Ok((Some(Value::Numbers(numbers)), 0))
        }
        Element::Index => {
            let indices = read_indices(alloc, names, first, more)?;
            seen.count = indices.len();
            Ok((Some(Value::Indices(indices)), 0))
        }
        Element::Map => {
            let maps = read_maps(alloc, aliases, first, more)?;
            seen.count = maps.len();
            Ok((Some(Value::Maps(maps)), 0))
        }
        Element::Leaf(Class::Iterator) => {
            let iterators = read_iterators(alloc, first, more)?;
            seen.count = iterators.len();
            Ok((Some(Value::Iterators(iterators)), 0))
        }
        Element::Leaf(_) => Err(Refused::At(Fault::Syntax(u32::MAX))),
    }
}

/// The entries of a list, by its role.
fn take_listed<'a>(
    alloc: Global,
    aliases: &Aliases,
    names: &Names,
    element: Element,
    role: Role,
    seen: &mut Seen<'a>,
    first: &Option<Entry<'a>>,
    more: &[Next<'a>],
    close: &Token<'a>,
) -> Result<(Option<Value>, usize), Refused>
    ensures { Stood seen.new result (listed_stand aliases.now names.now element role seen.old first.now more.now close.now) }
{
    match role {
        Role::Held => take_held(alloc, aliases, names, element, seen, first, more),
        Role::Repeated(wanted) => {
            check_repeated(wanted, seen.count, first, more, close)?;
            Ok((None, 0))
        }
        _ => Err(Refused::At(Fault::Syntax(u32::MAX))),
    }
}

/// The entries behind another, by their role.
fn take_more<'a>(
    alloc: Global,
    names: &Names,
    role: Role,
    seen: &mut Seen<'a>,
    more: &[Next<'a>],
) -> Result<(Option<Value>, usize), Refused>
    ensures { Stood seen.new result (more_stand names.now role seen.old more.now) }
{
    match role {
        Role::Used => {
            let values = use_more(alloc, names, &mut seen.used, more)?;
            Ok((Some(Value::MoreIds(values)), 0))
        }
        Role::TypeOf(number) => {
            let missing = check_types(alloc, names, seen.used.as_slice(), number, more)?;
            seen.missing = missing;
            Ok((None, 0))
        }
        _ => Err(Refused::At(Fault::Syntax(u32::MAX))),
    }
}

/// A kept token, where types may be missing.
fn take_kept<'a>(seen: &mut Seen<'a>, entry: &Entry<'a>) -> Result<(Option<Value>, usize), Refused>
    ensures { Stood seen.new result (kept_stands seen.old entry.now) }
{
    if seen.missing == 0 {
        Ok((None, 0))
    } else {
        Err(Refused::At(Fault::Syntax(entry_place(entry))))
    }
}

/// What a part stands for, and how many wants are left out behind it.
#[tactic(auto, unfolding(crate::specs::Resolving::stands))]
fn take_part<'a>(
    alloc: Global,
    aliases: &Aliases,
    names: &Names,
    want: &Want,
    seen: &mut Seen<'a>,
    part: &Part<'a>,
) -> Result<(Option<Value>, usize), Refused>
    ensures { Stood seen.new result (stands aliases.now names.now want.now seen.old part.now) }
{
    match (want, part) {
        (Want::One(_, role), Part::One(entry)) => take_entry(alloc, names, *role, seen, entry),
        (Want::Kept(_), Part::One(entry)) => take_kept(seen, entry),
        (Want::Listed(element, _, role), Part::Listed(first, more, close)) => take_listed(
            alloc,
            aliases,
            names,
            *element,
            *role,
            seen,
            first,
            more.as_slice(),
            close,
        ),
        (Want::More(_, role), Part::More(more)) => {
            take_more(alloc, names, *role, seen, more.as_slice())
        }
        (Want::Dense, Part::Dense(_)) => Ok((Some(Value::Literal), 0)),
        (Want::Maybe(_, left_out), Part::There(there)) => {
            if *there {
                Ok((Some(Value::There(true)), 0))
            } else {
                Ok((Some(Value::There(false)), *left_out))
            }
        }
        _ => Err(Refused::At(Fault::Syntax(u32::MAX))),
    }
}

/// Resolves what stands for a want, unless it is left out: answers how many are left out behind it, and how many parts
/// were taken.
fn resolve_next<'a>(
    alloc: Global,
    aliases: &Aliases,
    names: &Names,
    want: &Want,
    left_out: usize,
    seen: &mut Seen<'a>,
    values: &mut List<Value>,
    parts: &[Part<'a>],
    taken: usize,
) -> Result<(usize, usize), Refused>
    ensures { Goes aliases.now names.now want.now left_out seen.old values.old parts.now taken seen.new values.new result }
{
    if left_out > 0 {
        return Ok((left_out - 1, taken));
    }
    if let Some(skipped) = silent(want) {
        return Ok((skipped, taken));
    }
    if taken >= parts.len() {
        return Err(Refused::At(Fault::Syntax(u32::MAX)));
    }
    match take_part(alloc, aliases, names, want, seen, &parts[taken]) {
        Ok((value, skipped)) => match value {
            Some(value) => {
                values.push(value)?;
                Ok((skipped, taken + 1))
            }
            None => Ok((skipped, taken + 1)),
        },
        Err(refused) => Err(refused),
    }
}

/// What the parts of a text stand for, by the wants of its form.
///
/// # Errors
/// The first fault in the order of the tokens, or want of memory.
pub fn resolve_parts(
    alloc: Global,
    aliases: &Aliases,
    names: &Names,
    wants: &[Want],
    parts: &[Part],
) -> Result<List<Value>, Refused>
    ensures { Agree result (resolved aliases.now names.now wants.now 0 nothing_seen parts.now) }
{
    let mut values = List::new(alloc);
    let mut seen = Seen {
        used: List::new(alloc),
        count: 0,
        missing: 0,
    };
    let mut left_out = 0usize;
    let mut taken = 0usize;
    for want in wants {
        match resolve_next(
            alloc,
            aliases,
            names,
            want,
            left_out,
            &mut seen,
            &mut values,
            parts,
            taken,
        ) {
            Ok((skipped, next)) => {
                left_out = skipped;
                taken = next;
            }
            Err(refused) => return Err(refused),
        }
    }
    if taken >= parts.len() {
        Ok(values)
    } else {
        Err(Refused::At(Fault::Syntax(u32::MAX)))
    }
}
