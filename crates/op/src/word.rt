// The parts of a word, and what must be zero in it.
ghost use Rattle.std.specs.Prelude.{◌≡◌, ◌==◌, ◌<◌, ◌/◌, ◌%◌, ◌^◌, bit_and};
ghost use Rattle.op.specs.Layout.{parts_of, passes, is_alignment};
ghost use Rattle.op.specs.Layout.{register, allocKind, alignment, anyNumber};
ghost use Rattle.op.specs.Decode.{checked_of};

use anomaly::Refusal;

// A mask for each shape in the picture at the head of the crate: the bits that are zero in its words. A byte of it is ff where
// the picture is empty, e0 for a register (below 32), fe for the kind of a table's keys (below 2), fc for the kind of a block
// (below 4), and 00 for the opcode and what may hold any byte. A register in bytes 4 to 7 is ffff_ffe0.
pub const THREE: u64 = 0xffff_ffff_e0e0_e000;

pub const TWO_AND_NUMBER: u64 = 0x0000_0000_ffe0_e000;

pub const TWO: u64 = 0xffff_ffff_ffe0_e000;

pub const ONE_AND_NUMBER: u64 = 0x0000_0000_ffff_e000;

pub const JUMP: u64 = 0xffff_ffff_0000_ff00;

pub const JUMP_IF: u64 = 0xffff_ffff_0000_e000;

pub const JUMP_IMMEDIATE: u64 = 0x0000_0000_0000_e000;

pub const JUMP_TWO: u64 = 0xffff_ffe0_0000_e000;

pub const SWITCH: u64 = 0x0000_0000_ffe0_fe00;

pub const LOOKUP: u64 = 0x0000_0000_fee0_e000;

pub const FUNCTION: u64 = 0x0000_0000_ffff_ff00;

pub const ALLOC: u64 = 0x0000_0000_00fc_e000;

pub const CONDITION: u64 = 0xffff_ffff_ffff_e000;

pub const BARE: u64 = 0xffff_ffff_ffff_ff00;

pub fn fits(w: u64, mask: u64) -> bool
    ensures { result ≡ (bit_and w mask == 0) }
{
    w & mask == 0
}

// `Operand` (13), where a test of a word fails.
#[inline(always)]
pub(crate) fn checked(passes: bool) -> Result<(), Refusal>
    ensures { result ≡ checked_of passes tt }
{
    passes.then_some(()).ok_or(Refusal::Operand)
}

// The number that stands in COUNT bytes from byte FROM on.
pub fn bytes<const FROM: u32, const COUNT: u32>(w: u64) -> usize
    requires { (FROM < 8) × (COUNT < 8) }
    ensures { result ≡ w / 256 ^ FROM % 256 ^ COUNT }
{
    ((w >> (8 * FROM)) % (1 << (8 * COUNT))) as usize
}

// As the 64-bit pattern of a signed number.
pub fn upper_signed(w: u64) -> u64
    ensures { result ≡ (parts_of w).signed }
{
    (w.cast_signed() >> 32).cast_unsigned()
}

pub fn is_alignment(n: usize) -> bool
    ensures { result ≡ is_alignment n }
{
    (n == 1) | (n == 2) | (n == 4) | (n == 8)
}

// No mask says what an alignment is.
pub fn fits_alloc(w: u64) -> bool
    ensures { result ≡ passes register allocKind alignment anyNumber (parts_of w) }
{
    fits(w, ALLOC) & is_alignment(bytes::<3, 1>(w))
}
