// The operands of a word, by the shapes in the picture at the head of the crate; or `Operand` (13), where a bit of its shape's mask is set.
// Each is for the loop of a run, and the compiler puts it into the arm that asks for it.
ghost use Rattle.std.specs.Prelude.{◌≡◌, ◌<◌};
ghost use Rattle.op.specs.Layout.{parts_of, passes, keys_of, kind_of};
ghost use Rattle.op.specs.Layout.{unused, register, switchKind, allocKind, alignment, anyByte, anyNumber};
ghost use Rattle.op.specs.Decode.{checked_of};

use crate::word::{
    BARE, CONDITION, FUNCTION, JUMP, JUMP_IF, JUMP_IMMEDIATE, JUMP_TWO, LOOKUP, ONE_AND_NUMBER,
    SWITCH, THREE, TWO, TWO_AND_NUMBER, bytes, checked, fits, fits_alloc, upper_signed,
};
use crate::{Keys, Reg};
use anomaly::Refusal;
use gc::AllocType;

fn keys(byte: usize) -> Keys
    ensures { result ≡ keys_of byte }
{
    if byte == 0 { Keys::Str } else { Keys::Int }
}

// Of the two bits that its mask leaves.
fn kind(byte: usize) -> AllocType
    requires { byte < 4 }
    ensures { result ≡ kind_of byte }
{
    AllocType::try_from(byte as u64).unwrap()
}

#[inline(always)]
pub fn three(w: u64) -> Result<(Reg, Reg, Reg), Refusal>
    ensures { result
        ≡ checked_of (passes register register register unused (parts_of w)) ((parts_of w).one, (parts_of w).two, (parts_of w).three) }
{
    checked(fits(w, THREE))?;
    Ok((
        Reg::new(bytes::<1, 1>(w)),
        Reg::new(bytes::<2, 1>(w)),
        Reg::new(bytes::<3, 1>(w)),
    ))
}

// `signed` and `number` are two readings of bytes 4 to 7, and a function for both, here and of one register, would be no plainer: by a
// flag its contract is a choice between these two, by a closure it speaks of what the closure gives, and each caller names its own anyway.
#[inline(always)]
pub fn two_and_signed(w: u64) -> Result<(Reg, Reg, u64), Refusal>
    ensures { result
        ≡ checked_of (passes register register unused anyNumber (parts_of w)) ((parts_of w).one, (parts_of w).two, (parts_of w).signed) }
{
    checked(fits(w, TWO_AND_NUMBER))?;
    Ok((
        Reg::new(bytes::<1, 1>(w)),
        Reg::new(bytes::<2, 1>(w)),
        upper_signed(w),
    ))
}

#[inline(always)]
pub fn two_and_number(w: u64) -> Result<(Reg, Reg, u64), Refusal>
    ensures { result
        ≡ checked_of (passes register register unused anyNumber (parts_of w)) ((parts_of w).one, (parts_of w).two, (parts_of w).number) }
{
    checked(fits(w, TWO_AND_NUMBER))?;
    Ok((
        Reg::new(bytes::<1, 1>(w)),
        Reg::new(bytes::<2, 1>(w)),
        bytes::<4, 4>(w) as u64,
    ))
}

#[inline(always)]
pub fn two(w: u64) -> Result<(Reg, Reg), Refusal>
    ensures { result ≡ checked_of (passes register register unused unused (parts_of w)) ((parts_of w).one, (parts_of w).two) }
{
    checked(fits(w, TWO))?;
    Ok((Reg::new(bytes::<1, 1>(w)), Reg::new(bytes::<2, 1>(w))))
}

#[inline(always)]
pub fn one_and_signed(w: u64) -> Result<(Reg, u64), Refusal>
    ensures { result ≡ checked_of (passes register unused unused anyNumber (parts_of w)) ((parts_of w).one, (parts_of w).signed) }
{
    checked(fits(w, ONE_AND_NUMBER))?;
    Ok((Reg::new(bytes::<1, 1>(w)), upper_signed(w)))
}

#[inline(always)]
pub fn one_and_number(w: u64) -> Result<(Reg, usize), Refusal>
    ensures { result ≡ checked_of (passes register unused unused anyNumber (parts_of w)) ((parts_of w).one, (parts_of w).number) }
{
    checked(fits(w, ONE_AND_NUMBER))?;
    Ok((Reg::new(bytes::<1, 1>(w)), bytes::<4, 4>(w)))
}

#[inline(always)]
pub fn jump(w: u64) -> Result<usize, Refusal>
    ensures { result ≡ checked_of (passes unused anyByte anyByte unused (parts_of w)) (parts_of w).target }
{
    checked(fits(w, JUMP))?;
    Ok(bytes::<2, 2>(w))
}

#[inline(always)]
pub fn jump_if(w: u64) -> Result<(Reg, usize), Refusal>
    ensures { result ≡ checked_of (passes register anyByte anyByte unused (parts_of w)) ((parts_of w).one, (parts_of w).target) }
{
    checked(fits(w, JUMP_IF))?;
    Ok((Reg::new(bytes::<1, 1>(w)), bytes::<2, 2>(w)))
}

#[inline(always)]
pub fn jump_immediate(w: u64) -> Result<(Reg, u64, usize), Refusal>
    ensures { result
        ≡ checked_of (passes register anyByte anyByte anyNumber (parts_of w)) ((parts_of w).one, (parts_of w).signed, (parts_of w).target) }
{
    checked(fits(w, JUMP_IMMEDIATE))?;
    Ok((
        Reg::new(bytes::<1, 1>(w)),
        upper_signed(w),
        bytes::<2, 2>(w),
    ))
}

#[inline(always)]
pub fn jump_two(w: u64) -> Result<(Reg, Reg, usize), Refusal>
    ensures { result
        ≡ checked_of (passes register anyByte anyByte register (parts_of w)) ((parts_of w).one, (parts_of w).number, (parts_of w).target) }
{
    checked(fits(w, JUMP_TWO))?;
    Ok((
        Reg::new(bytes::<1, 1>(w)),
        Reg::new(bytes::<4, 4>(w)),
        bytes::<2, 2>(w),
    ))
}

#[inline(always)]
pub fn switch(w: u64) -> Result<(Keys, Reg, usize), Refusal>
    ensures { result
        ≡ checked_of (passes switchKind register unused anyNumber (parts_of w)) (keys_of (parts_of w).one, (parts_of w).two, (parts_of w).number) }
{
    checked(fits(w, SWITCH))?;
    Ok((
        keys(bytes::<1, 1>(w)),
        Reg::new(bytes::<2, 1>(w)),
        bytes::<4, 4>(w),
    ))
}

#[inline(always)]
pub fn lookup(w: u64) -> Result<(Keys, Reg, Reg, usize), Refusal>
    ensures { result
        ≡ checked_of (passes register register switchKind anyNumber (parts_of w))
        (keys_of (parts_of w).three, (parts_of w).one, (parts_of w).two, (parts_of w).number) }
{
    checked(fits(w, LOOKUP))?;
    Ok((
        keys(bytes::<3, 1>(w)),
        Reg::new(bytes::<1, 1>(w)),
        Reg::new(bytes::<2, 1>(w)),
        bytes::<4, 4>(w),
    ))
}

#[inline(always)]
pub fn function(w: u64) -> Result<usize, Refusal>
    ensures { result ≡ checked_of (passes unused unused unused anyNumber (parts_of w)) (parts_of w).number }
{
    checked(fits(w, FUNCTION))?;
    Ok(bytes::<4, 4>(w))
}

#[inline(always)]
pub fn alloc(w: u64) -> Result<(Reg, AllocType, u64, u64), Refusal>
    ensures { result
        ≡ checked_of (passes register allocKind alignment anyNumber (parts_of w))
        ((parts_of w).one, kind_of (parts_of w).two, (parts_of w).number, (parts_of w).three) }
{
    checked(fits_alloc(w))?;
    Ok((
        Reg::new(bytes::<1, 1>(w)),
        kind(bytes::<2, 1>(w)),
        bytes::<4, 4>(w) as u64,
        bytes::<3, 1>(w) as u64,
    ))
}

#[inline(always)]
pub fn condition(w: u64) -> Result<Reg, Refusal>
    ensures { result ≡ checked_of (passes register unused unused unused (parts_of w)) (parts_of w).one }
{
    checked(fits(w, CONDITION))?;
    Ok(Reg::new(bytes::<1, 1>(w)))
}

#[inline(always)]
pub fn bare(w: u64) -> Result<(), Refusal>
    ensures { result ≡ checked_of (passes unused unused unused unused (parts_of w)) tt }
{
    checked(fits(w, BARE))
}
