// A register's word. The same 64 bits are read as a truth, as a signed integer or as a binary64 number;
// the instruction says which.
#![tactic(auto)]

ghost use Rattle.std.specs.Prelude.{◌≡◌, ◌==◌};
ghost use Rattle.std.specs.Bool.{beq};
ghost use Rattle.value.specs.Int.{signed, pattern};
ghost use Rattle.value.specs.Double.{double, bits};
ghost use Rattle.value.specs.Cast.{truth, bit, cast_to_bool, cast_to_double, cast_to_int};

pub mod double;
pub mod int;

// The sign bit, in both readings: from here on a pattern's integer is below 0.
const SIGN: u64 = 0x8000_0000_0000_0000;

// IEEE 754, 3.4, of binary64: a pattern is a sign S, a biased exponent E of w = 11 bits and a trailing
// significand T of p - 1 = 52 bits. This is the weight of E.
const EXPONENT: u64 = 0x10_0000_0000_0000;

// E of an infinity or a NaN, 2^w - 1.
const ALL_ONES: u64 = 2047;

// E of 1.
const BIAS: u64 = 1023;

// E of 2^63: 1,086.
const TWO_63: u64 = BIAS + 63;

#[derive(Clone, Copy, Debug, PartialEq, Eq)]
pub struct Value(pub u64);

impl Value {
    pub const UNDEF: Value = Value(0);

    // What is written for a NaN, whichever NaN it is.
    pub const NAN: Value = Value(0x7ff8_0000_0000_0000);

    // The ends of an i64, -2^63 and 2^63 - 1.
    const MIN: Value = Value(SIGN);

    const MAX: Value = Value(SIGN - 1);

    // `as_bool`, `as_int` and `as_f64` are the Rust's names, and no `From`: each reads the bits and may read what was not written so.
    pub fn as_bool(self) -> bool
        ensures { result ≡ truth self.0 }
    {
        self.0 != 0
    }

    pub fn as_int(self) -> i64
        ensures { result ≡ signed self.0 }
    {
        self.0.cast_signed()
    }

    pub fn as_f64(self) -> f64
        ensures { result ≡ double self.0 }
    {
        std::num::f64_from_bits_with_nan(self.0)
    }

    // CastToBool
    pub fn int_to_bool(self) -> Value
        ensures { result.0 ≡ cast_to_bool self.0 }
    {
        Value::from(self.0 != 0)
    }

    // CastToDouble: the nearest number, and of two that are as near the even one.
    pub fn int_to_f64(self) -> Value
        ensures { result.0 ≡ cast_to_double self.0 }
    {
        Value::from(std::num::nearest_i64_to_f64(self.as_int()))
    }

    // CastToInt: toward zero, to the nearer end where the number is outside an i64, and 0 for a NaN. By cases
    // on E, in the order of IEEE 754, 3.4.
    pub fn f64_to_int(self) -> Value
        ensures { result.0 ≡ cast_to_int self.0 }
    {
        let sign = self.0 / SIGN;
        let exponent = self.0 % SIGN / EXPONENT;
        let trailing = self.0 % EXPONENT;
        if exponent >= TWO_63 {
            // a) "If E = 2^w - 1 and T ≠ 0, then r is qNaN or sNaN and v is NaN regardless of S"
            if (exponent == ALL_ONES) & (trailing != 0) {
                return Value(0);
            }
            // b) "If E = 2^w - 1 and T = 0, then r and v = (-1)^S × (+∞)", and c), below, from 1,086 on, where
            // 2^(E-bias) is 2^63 or more: the end of the range by sign
            if sign == 0 {
                return Value::MAX;
            }
            // -2^63 is that end itself
            if (exponent == TWO_63) & (trailing == 0) {
                return Value::MIN;
            }
            return Value::MIN;
        }
        // c) "If 1 ≤ E ≤ 2^w - 2, then .. v = (-1)^S × 2^(E-bias) × (1 + 2^(1-p) × T)". From 1,023 to 1,085: of
        // 2^63 × (1 + 2^(1-p) × T), here the significand, 63 - (E-bias) digits are behind the point, and cut
        if exponent >= BIAS {
            let significand = SIGN + (trailing << 11);
            let size = significand >> (63 - (exponent - BIAS));
            if sign == 1 {
                return Value(size.wrapping_neg());
            }
            return Value(size);
        }
        // Below 1,023 that is below 1 in size, and so are
        // d) "If E = 0 and T ≠ 0, then .. v = (-1)^S × 2^emin × (0 + 2^(1-p) × T)" and
        // e) "If E = 0 and T = 0, then .. v = (-1)^S × (+0)"
        Value(0)
    }

    // SEq compares values: a name is interned once.
    pub fn str_eq(self, other: Value) -> bool
        ensures { result ≡ (self.0 == other.0) }
    {
        self.0 == other.0
    }

    // BEq
    pub fn bool_eq(self, other: Value) -> bool
        ensures { result ≡ beq (truth self.0) (truth other.0) }
    {
        self.as_bool() == other.as_bool()
    }
}

impl From<bool> for Value {
    ghost from_gives = { λ b value. value.0 ≡ bit b };

    fn from(b: bool) -> Value {
        Value(u64::from(b))
    }
}

impl From<i64> for Value {
    ghost from_gives = { λ n value. value.0 ≡ pattern n };

    fn from(n: i64) -> Value {
        Value(n.cast_unsigned())
    }
}

impl From<f64> for Value {
    ghost from_gives = { λ x value. value.0 ≡ bits x };

    fn from(x: f64) -> Value {
        if x.is_nan() {
            Value::NAN
        } else {
            Value(x.to_bits())
        }
    }
}
