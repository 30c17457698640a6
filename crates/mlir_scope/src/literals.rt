//! Integer literals.

ghost use Rattle.std.specs.Prelude.{◌≡◌, ◌≤◌};
ghost use Rattle.mlir_syntax.specs.declared.tree.literals.ScalarLiteral.TheVariants.{Number as Written};
ghost use Rattle.mlir_lex.specs.Chain.{Agree};
ghost use Rattle.mlir_scope.specs.Literals.{digits_value, is_negative, sign_place, signed_by, most_of, elem_at, truth_of, literal_of, IsSmall};

use mlir_base::{ElemTy, Width};
use mlir_lex::{Fault, Refused};
use mlir_syntax::{ScalarLiteral, Sign, TypedNumber};
use payload_ops::wrap;
use text_format::{Token, element_of};

/// The number that decimal digits spell. `None`: it is 2^64 or more.
pub fn digits_value(digits: &[u8]) -> Option<u64>
    ensures { IsSmall (digits_value digits.now) result }
{
    let mut value = 0u64;
    for digit in digits {
        let Some(tens) = value.checked_mul(10) else {
            return None;
        };
        let Some(next) = tens.checked_add(digit.saturating_sub(b'0') as u64) else {
            return None;
        };
        value = next;
    }
    Some(value)
}

/// Whether the number has a minus.
pub fn is_negative(sign: &Option<Sign>) -> bool
    ensures { result ≡ is_negative sign.now }
{
    sign.is_some()
}

/// Where a signed number begins.
pub fn sign_place(sign: &Option<Sign>, digits: &Token) -> u32
    ensures { result ≡ sign_place sign.now digits.now }
{
    match sign {
        None => digits.start(),
        Some(sign) => sign.minus.start(),
    }
}

/// The number of this sign and magnitude.
pub fn signed_by(negative: bool, magnitude: u64) -> i128
    ensures { result ≡ signed_by negative magnitude }
{
    if negative {
        -(magnitude as i128)
    } else {
        magnitude as i128
    }
}

/// The greatest magnitude of a literal of the type.
pub fn most_of(negative: bool, elem: &ElemTy) -> u64
    ensures { result ≡ most_of negative elem.now }
{
    match elem {
        ElemTy::Int(width) => {
            if negative {
                1 << (width.bits() - 1)
            } else {
                u64::MAX >> (64 - width.bits())
            }
        }
        ElemTy::Index => 2147483648,
    }
}

/// The element type that a token writes.
///
/// # Errors
/// `Syntax` at a token that writes none.
pub fn elem_at(token: &Token) -> Result<ElemTy, Refused>
    ensures { Agree result (elem_at token.now) }
{
    match element_of(token.text()) {
        Some(elem) => Ok(elem),
        None => Err(Refused::At(Fault::Syntax(token.start()))),
    }
}

fn truth_of(text: &[u8]) -> u64
    ensures { result ≡ truth_of text.now }
{
    if text == b"true".as_slice() { 1 } else { 0 }
}

/// The width of truth values.
pub fn one_bit() -> Width
    ensures { result ≡ 1 }
{
    match Width::new(1) {
        Some(width) => width,
        None => unreachable!(),
    }
}

/// The type and the value of a number.
fn read_typed(literal: &TypedNumber) -> Result<(ElemTy, u64), Refused>
    ensures { Agree result (literal_of (Written literal.now)) }
{
    let elem = elem_at(&literal.ty)?;
    let negative = is_negative(&literal.number.sign);
    let most = most_of(negative, &elem);
    let at = sign_place(&literal.number.sign, &literal.number.digits);
    let by = literal.ty.start();
    let Some(magnitude) = digits_value(literal.number.digits.text()) else {
        return Err(Refused::At(Fault::Number(at, by)));
    };
    if magnitude > most {
        return Err(Refused::At(Fault::Number(at, by)));
    }
    let value = wrap(elem.width(), signed_by(negative, magnitude));
    Ok((elem, value))
}

/// The type and the value of a literal.
///
/// # Errors
/// `Syntax` at a type that is no element type, and `Number` at a number that its type doesn't hold.
pub fn read_literal(literal: &ScalarLiteral) -> Result<(ElemTy, u64), Refused>
    ensures { Agree result (literal_of literal.now) }
{
    match literal {
        ScalarLiteral::Boolean(word) => Ok((ElemTy::Int(one_bit()), truth_of(word.text()))),
        ScalarLiteral::Number(number) => read_typed(number),
    }
}
