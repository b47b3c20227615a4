// Arithmetic on two registers as binary64 numbers: each operation is rounded once, and a NaN result is
// written as `Value::NAN`. A comparison with a NaN is false. The four operations differ in their operator alone, and so do the two
// comparisons here and those of `int`; each is a line, and a function that took the operator as a closure would be no shorter.
ghost use Rattle.std.specs.Prelude.{◌≡◌};
ghost use Rattle.std.specs.Float.Ieee as Ieee;
ghost use Rattle.value.specs.Double.{double, on};

use crate::Value;

pub fn add(a: u64, b: u64) -> u64
    ensures { result ≡ on Ieee.add a b }
{
    Value::from(Value(a).as_f64() + Value(b).as_f64()).0
}

pub fn sub(a: u64, b: u64) -> u64
    ensures { result ≡ on Ieee.sub a b }
{
    Value::from(Value(a).as_f64() - Value(b).as_f64()).0
}

pub fn mul(a: u64, b: u64) -> u64
    ensures { result ≡ on Ieee.mul a b }
{
    Value::from(Value(a).as_f64() * Value(b).as_f64()).0
}

pub fn div(a: u64, b: u64) -> u64
    ensures { result ≡ on Ieee.div a b }
{
    Value::from(Value(a).as_f64() / Value(b).as_f64()).0
}

pub fn lt(a: u64, b: u64) -> bool
    ensures { result ≡ Ieee.lt (double a) (double b) }
{
    Value(a).as_f64() < Value(b).as_f64()
}

pub fn gt(a: u64, b: u64) -> bool
    ensures { result ≡ Ieee.lt (double b) (double a) }
{
    lt(b, a)
}
