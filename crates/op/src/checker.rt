// Whether an image may hold a word. This is for every word of an image, before a run: it goes by a table of masks, and leaves
// `decode` (`decoder`) to the loop of the run.
ghost use Rattle.std.specs.Prelude.{◌≡◌, ◌%◌};
ghost use Rattle.op.specs.Layout.{parts_of};
ghost use Rattle.op.specs.Decode.{row_of};
ghost use Rattle.op.specs.Masks.{mask_of_row, rest_of};
ghost use Rattle.op.specs.Reach.{check_of, inside_of};

use crate::word::{
    ALLOC, BARE, CONDITION, FUNCTION, JUMP, JUMP_IF, JUMP_IMMEDIATE, JUMP_TWO, LOOKUP,
    ONE_AND_NUMBER, SWITCH, THREE, TWO, TWO_AND_NUMBER, bytes, checked, fits, is_alignment,
};
use crate::{Counts, OPCODES};
use anomaly::Refusal;

// No format has a bit of the opcode in its mask.
const ABSENT: u64 = 1;

// The mask of each opcode.
const MASK: [u64; OPCODES] = [
    THREE, // IAdd
    TWO_AND_NUMBER, // IAddI
    THREE, // ISub
    TWO_AND_NUMBER, // ISubI
    THREE, // IMul
    TWO_AND_NUMBER, // IMulI
    THREE, // IDiv
    TWO_AND_NUMBER, // IDivI
    THREE, // IMod
    TWO_AND_NUMBER, // IModI
    THREE, // IAnd
    TWO_AND_NUMBER, // IAndI
    THREE, // ILt
    THREE, // IGt
    THREE, // IEq
    TWO_AND_NUMBER, // IEqI
    TWO_AND_NUMBER, // IGtI
    TWO_AND_NUMBER, // ILtI
    THREE, // DAdd
    THREE, // DSub
    THREE, // DMul
    THREE, // DDiv
    THREE, // DLt
    THREE, // DGt
    THREE, // BEq
    THREE, // SEq
    TWO, // Mov
    ONE_AND_NUMBER, // LoadI
    ONE_AND_NUMBER, // LoadG
    JUMP, // Jmp
    JUMP_IF, // JmpT
    JUMP_IF, // JmpF
    JUMP_IMMEDIATE, // JmpEqI
    JUMP_IMMEDIATE, // JmpNeI
    JUMP_TWO, // JmpSEq
    JUMP_TWO, // JmpSNe
    SWITCH, // Switch
    LOOKUP, // Lookup
    FUNCTION, // Tail
    FUNCTION, // Call
    ABSENT, // Sys
    ABSENT, // Native
    ABSENT, // Push
    ABSENT, // Push2
    ABSENT, // Push3
    ABSENT, // Pop
    ABSENT, // Pop2
    ABSENT, // Pop3
    ABSENT, // StoreSlot
    ABSENT, // LoadSlot
    TWO, // CastToInt
    TWO, // CastToDouble
    TWO, // CastToBool
    ALLOC, // Alloc
    TWO_AND_NUMBER, // Store
    TWO_AND_NUMBER, // Load
    TWO_AND_NUMBER, // AddrOf
    BARE, // Ret
    CONDITION, // Assert
    BARE, // Halt
    BARE, // Nop
];

fn mask(opcode: usize) -> u64
    ensures { result ≡ mask_of_row (row_of opcode) }
{
    if opcode < OPCODES {
        MASK[opcode]
    } else {
        ABSENT
    }
}

fn inside(at: usize, count: usize, refusal: Refusal) -> Result<(), Refusal>
    ensures { result ≡ inside_of at count refusal }
{
    (at < count).then_some(()).ok_or(refusal)
}

// What its mask leaves of a word: an alignment, or whether what it names is below its count. The opcodes are a closed set: a table of
// functions or closures would hide from the compiler what it puts into the loop over an image's words.
#[tactic(auto, unfolding(crate::specs::Decode::rows, crate::specs::Masks::rest_of))]
fn rest(w: u64, n: Counts) -> Result<(), Refusal>
    ensures { result ≡ rest_of (row_of (w % 256)) n (parts_of w) }
{
    let opcode = w % 256;
    match opcode {
        // LoadG
        28 => inside(bytes::<4, 4>(w), n.globals, Refusal::Index),
        // Jmp to JmpSNe
        29..=35 => inside(bytes::<2, 2>(w), n.code, Refusal::Target),
        // Switch
        36 => inside(bytes::<4, 4>(w), n.switches, Refusal::Index),
        // Lookup
        37 => inside(bytes::<4, 4>(w), n.lookups, Refusal::Index),
        // Tail, Call
        38..=39 => inside(bytes::<4, 4>(w), n.code, Refusal::Target),
        // Alloc
        53 => checked(is_alignment(bytes::<3, 1>(w))),
        _ => Ok(()),
    }
}

pub fn check(w: u64, n: Counts) -> Result<(), Refusal>
    ensures { result ≡ check_of n w }
{
    let mask = mask((w % 256) as usize);
    if mask == ABSENT {
        return Err(Refusal::Opcode);
    }
    checked(fits(w, mask))?;
    rest(w, n)
}
