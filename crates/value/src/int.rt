// Arithmetic on two registers as signed integers. Sums, differences and products modulo 2^64 are the same for
// signed and unsigned ones, and the number types have them.
ghost use Rattle.std.specs.Prelude.{◌≡◌, ◌*◌, ◌%◌, ◌^◌, bit_and, int_lt};
ghost use Rattle.value.specs.Int.{signed, overflows, operands_of, quotient_of, remainder_of};

use crate::{SIGN, Value};

// Why a division has no result.
#[derive(Clone, Copy, Debug, PartialEq, Eq)]
pub enum DivisionError {
    ByZero,
    Overflow,
}

// The low 64 bits of a * b: the number type's, under the name that both hashes and the machine's product call.
pub fn wrapping_mul(a: u64, b: u64) -> u64
    ensures { result ≡ (a * b) % 2 ^ 64 }
{
    a.wrapping_mul(b)
}

// -2^63 by -1: the quotient 2^63 is no i64, and in Rust the remainder panics with it.
fn quotient_overflows(a: u64, b: u64) -> bool
    ensures { result ≡ overflows a b }
{
    a == SIGN && b == u64::MAX
}

// The dividend and the divisor of a division that has a result.
fn operands(a: u64, b: u64) -> Result<(i64, i64), DivisionError>
    ensures { result ≡ operands_of a b }
{
    if b == 0 {
        return Err(DivisionError::ByZero);
    }
    if quotient_overflows(a, b) {
        return Err(DivisionError::Overflow);
    }
    Ok((Value(a).as_int(), Value(b).as_int()))
}

// Toward zero.
pub fn div(a: u64, b: u64) -> Result<u64, DivisionError>
    ensures { result ≡ quotient_of a b }
{
    let (x, y) = operands(a, b)?;
    Ok(Value::from(x / y).0)
}

// With the sign of the dividend.
pub fn rem(a: u64, b: u64) -> Result<u64, DivisionError>
    ensures { result ≡ remainder_of a b }
{
    let (x, y) = operands(a, b)?;
    Ok(Value::from(x % y).0)
}

// A line each, as those of `double` are, and why is said there.
pub fn lt(a: u64, b: u64) -> bool
    ensures { result ≡ int_lt (signed a) (signed b) }
{
    Value(a).as_int() < Value(b).as_int()
}

pub fn gt(a: u64, b: u64) -> bool
    ensures { result ≡ int_lt (signed b) (signed a) }
{
    lt(b, a)
}

pub fn and(a: u64, b: u64) -> u64
    ensures { result ≡ bit_and a b }
{
    a & b
}
