//! How the parts of an operation are written: one loop over the form.

ghost use Rattle.std.specs.Prelude.{◌≡◌, ◌++◌, OnOk, drop};
ghost use Rattle.text_format.specs.Numerals.{numeral};
ghost use Rattle.form_table.specs.Writing.{gap_behind};
ghost use Rattle.form_table.specs.Texts.{number_text, word_text, more_text, listed_text, dense_text, pointed, first_field, text_at, Puts, bytes_at, Lays};

use crate::field::{Field, Spelling, Word};
use crate::want::Want;
use itoa::Buffer;
use mlir_base::Memory;
use text_format::Lexeme;

fn write_digits(out: &mut Vec<u8>, number: u64) -> Result<(), Memory>
    ensures { OnOk result (out.new.items ≡ out.old.items ++ numeral number) }
{
    let mut buffer = Buffer::new();
    out.extend_from_slice(buffer.format(number).as_bytes())?;
    Ok(())
}

fn write_number(out: &mut Vec<u8>, negative: bool, number: u64) -> Result<(), Memory>
    ensures { OnOk result (out.new.items ≡ out.old.items ++ number_text negative number) }
{
    if negative {
        out.extend_from_slice(b"-")?;
        write_digits(out, number)
    } else {
        write_digits(out, number)
    }
}

fn write_word(out: &mut Vec<u8>, word: &Word) -> Result<(), Memory>
    ensures { OnOk result (out.new.items ≡ out.old.items ++ word_text word.now) }
{
    match word {
        Word::Text(spelling) => {
            out.extend_from_slice(spelling.text())?;
            Ok(())
        }
        Word::Number(negative, number) => write_number(out, *negative, *number),
    }
}

/// Each behind a comma.
fn write_more(out: &mut Vec<u8>, words: &[Word]) -> Result<(), Memory>
    ensures { OnOk result (out.new.items ≡ out.old.items ++ more_text words.now) }
{
    for word in words {
        out.extend_from_slice(b", ")?;
        write_word(out, word)?;
    }
    Ok(())
}

/// Between commas, and the closing token.
fn write_listed(out: &mut Vec<u8>, words: &[Word], close: Lexeme) -> Result<(), Memory>
    ensures { OnOk result (out.new.items ≡ out.old.items ++ listed_text close words.now) }
{
    match words {
        [] => {
            out.extend_from_slice(close.text())?;
            Ok(())
        }
        [first, more @ ..] => {
            write_word(out, first)?;
            write_more(out, more)?;
            out.extend_from_slice(close.text())?;
            Ok(())
        }
    }
}

/// A blank stands behind a comma.
fn gap_behind(text: &[u8]) -> &'static [u8]
    ensures { result.now ≡ gap_behind text.now }
{
    if text == b",".as_slice() { b" " } else { b"" }
}

fn write_dense(out: &mut Vec<u8>, tokens: &[Spelling]) -> Result<(), Memory>
    ensures { OnOk result (out.new.items ≡ out.old.items ++ dense_text tokens.now) }
{
    for token in tokens {
        out.extend_from_slice(token.text())?;
        out.extend_from_slice(gap_behind(token.text()))?;
    }
    Ok(())
}

/// Writes what stands for a want. Answers how many wants are left out behind it, and how many fields it has taken;
/// `None`: the field isn't one for the want.
#[tactic(auto, unfolding(crate::specs::Texts::text_at))]
fn write_want(
    out: &mut Vec<u8>,
    want: &Want,
    field: Option<&Field>,
) -> Result<Option<(usize, usize)>, Memory>
    ensures { Puts out.old.items out.new.items result (text_at want.now (pointed field.entry)) }
{
    match (want, field) {
        (Want::Fixed(lexeme), _) | (Want::Kept(lexeme), _) => {
            out.extend_from_slice(lexeme.text())?;
            Ok(Some((0, 0)))
        }
        (Want::Space, _) => {
            out.extend_from_slice(b" ")?;
            Ok(Some((0, 0)))
        }
        (Want::Jump(left_out), _) => Ok(Some((*left_out, 0))),
        (Want::One(_, _), Some(Field::One(word))) => {
            write_word(out, word)?;
            Ok(Some((0, 1)))
        }
        (Want::Listed(_, close, _), Some(Field::Several(words))) => {
            write_listed(out, words.as_slice(), *close)?;
            Ok(Some((0, 1)))
        }
        (Want::More(_, _), Some(Field::Several(words))) => {
            write_more(out, words.as_slice())?;
            Ok(Some((0, 1)))
        }
        (Want::Dense, Some(Field::Dense(tokens))) => {
            write_dense(out, tokens.as_slice())?;
            Ok(Some((0, 1)))
        }
        (Want::Maybe(_, left_out), Some(Field::There(there))) => {
            if *there {
                Ok(Some((0, 1)))
            } else {
                Ok(Some((*left_out, 1)))
            }
        }
        _ => {
            out.extend_from_slice(b"?")?;
            Ok(None)
        }
    }
}

/// The field that comes next.
fn field_at<'a, 'b>(fields: &'a [Field<'b>], taken: usize) -> Option<&'a Field<'b>>
    ensures { pointed result ≡ first_field (drop taken fields.now) }
{
    if taken < fields.len() {
        Some(&fields[taken])
    } else {
        None
    }
}

/// Writes what stands for a want, unless it is left out. Answers how many are left out behind it, and how many fields
/// were taken; `None`: all is written.
fn write_next(
    out: &mut Vec<u8>,
    want: &Want,
    left_out: usize,
    fields: &[Field],
    taken: usize,
) -> Result<Option<(usize, usize)>, Memory>
    ensures { Lays want.now left_out fields.now taken out.old.items out.new.items result }
{
    if left_out > 0 {
        return Ok(Some((left_out - 1, taken)));
    }
    match write_want(out, want, field_at(fields, taken))? {
        Some((skipped, used)) => match taken.checked_add(used) {
            Some(next) => Ok(Some((skipped, next))),
            None => Err(Memory),
        },
        None => Ok(None),
    }
}

/// Writes the parts of an operation that has these fields.
pub fn write_parts(out: &mut Vec<u8>, wants: &[Want], fields: &[Field]) -> Result<(), Memory>
    ensures { OnOk result (out.new.items ≡ out.old.items ++ bytes_at wants.now 0 fields.now) }
{
    let mut left_out = 0usize;
    let mut taken = 0usize;
    for want in wants {
        match write_next(out, want, left_out, fields, taken)? {
            Some((skipped, next)) => {
                left_out = skipped;
                taken = next;
            }
            None => return Ok(()),
        }
    }
    Ok(())
}
