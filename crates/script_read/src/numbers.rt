//! The numbers of a script.

ghost use Rattle.std.specs.Prelude.{◌≡◌, ◌≤◌, IsTrue};
ghost use Rattle.mlir_lex.specs.Chain.{Agree};
ghost use Rattle.script_read.specs.Numbers.{number_of, word_of, start_of, is_size, size_of, sizes_of, signed_by, is_literal, pad_value_of};

use mlir_base::{List, Width, all_ones, sign_bit};
use mlir_lex::{Fault, Refused};
use script_syntax::{PadValue, Signed};
use std::alloc::Global;
use text_format::{Token, width_of};

/// The number that digits spell, where it is below 2^64.
pub fn number_of(text: &[u8]) -> Option<u64>
    ensures { result ≡ word_of (number_of text.now) }
{
    let mut number = 0u64;
    for digit in text {
        let longer = number as u128 * 10 + digit.saturating_sub(b'0') as u128;
        if longer > u64::MAX as u128 {
            return None;
        }
        number = longer as u64;
    }
    Some(number)
}

/// The place of a signed number: that of its sign.
fn start_of(number: &Signed) -> u32
    ensures { result ≡ start_of number.now }
{
    match &number.minus {
        Some(minus) => minus.start(),
        None => number.digits.start(),
    }
}

fn is_size(minus: &Option<Token>, number: u64) -> bool
    ensures exact { result ≡ is_size minus.now number }
    ensures small { IsTrue result → number ≤ 1048576 }
{
    match minus {
        Some(_) => number == 0,
        None => number <= 1048576,
    }
}

/// A size, a dimension, an entry of an order, or a multiple: from 0 to 1,048,576.
#[tactic(auto, using(crate::proofs::Words::word_is, crate::proofs::Words::no_size))]
fn read_size(number: &Signed) -> Result<u32, Refused>
    ensures { Agree result (size_of number.now) }
{
    let at = start_of(number);
    match number_of(number.digits.text()) {
        Some(value) => {
            if is_size(&number.minus, value) {
                Ok(value as u32)
            } else {
                Err(Refused::At(Fault::Number(at, at)))
            }
        }
        None => Err(Refused::At(Fault::Number(at, at))),
    }
}

/// Sizes, in order.
pub fn read_sizes(alloc: Global, numbers: &[Signed]) -> Result<List<u32>, Refused>
    ensures { Agree result (sizes_of numbers.now) }
{
    let mut found = List::new(alloc);
    for number in numbers {
        let size = read_size(number)?;
        found.push(size)?;
    }
    Ok(found)
}

/// Whether a literal of the width may be this number, behind a minus or not.
fn is_literal(width: Width, minus: &Option<Token>, number: u64) -> bool
    ensures { result ≡ is_literal width minus.now number }
{
    match minus {
        Some(_) => number <= sign_bit(width),
        None => number <= all_ones(width),
    }
}

fn signed_by(minus: &Option<Token>, number: u64) -> i128
    ensures { result ≡ signed_by minus.now number }
{
    match minus {
        Some(_) => -(number as i128),
        None => number as i128,
    }
}

/// A padding value, in the range of its type, and the type's width.
#[tactic(auto, using(crate::proofs::Words::word_is, crate::proofs::Words::no_literal))]
pub fn read_pad_value(value: &PadValue) -> Result<(i128, Width), Refused>
    ensures { Agree result (pad_value_of value.now) }
{
    let Some(width) = width_of(value.ty.text()) else {
        return Err(Refused::At(Fault::Syntax(value.ty.start())));
    };
    let at = start_of(&value.value);
    let by = value.ty.start();
    match number_of(value.value.digits.text()) {
        Some(number) => {
            if is_literal(width, &value.value.minus, number) {
                Ok((signed_by(&value.value.minus, number), width))
            } else {
                Err(Refused::At(Fault::Number(at, by)))
            }
        }
        None => Err(Refused::At(Fault::Number(at, by))),
    }
}
