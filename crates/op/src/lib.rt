// The instructions of the machine, the words that they are written in, and which words an image may hold.
//
// A word is 64 bits. Byte 0 is the lowest and holds the opcode: the place of the instruction in `Op`, where the ten that are
// not carried (Sys, Native, Push to Pop3, StoreSlot, LoadSlot) keep their places, 40 to 49, after Call.
//
//    0        1        2         3         4 to 7
//  +--------+--------+---------+---------+--------+
//  | opcode | dst    | lhs     | rhs     |        |  IAdd ISub IMul IDiv IMod IAnd ILt IGt IEq, DAdd to DGt, BEq SEq
//  | opcode | dst    | lhs     |         | imm    |  IAddI ISubI IMulI IDivI IModI IAndI IEqI IGtI ILtI
//  | opcode | dst    | src     |         |        |  Mov CastToInt CastToDouble CastToBool
//  | opcode | dst    |         |         | value  |  LoadI
//  | opcode | dst    |         |         | idx    |  LoadG
//  | opcode |        | target            |        |  Jmp
//  | opcode | cond   | target            |        |  JmpT JmpF
//  | opcode | lhs    | target            | imm    |  JmpEqI JmpNeI
//  | opcode | lhs    | target            | rhs    |  JmpSEq JmpSNe: rhs is byte 4
//  | opcode | kind   | subject |         | table  |  Switch
//  | opcode | dst    | subject | kind    | table  |  Lookup
//  | opcode |        |         |         | func   |  Tail Call
//  | opcode | dst    | kind    | align   | size   |  Alloc
//  | opcode | base   | src     |         | offset |  Store
//  | opcode | dst    | base    |         | offset |  Load AddrOf
//  | opcode | cond   |         |         |        |  Assert
//  | opcode |        |         |         |        |  Ret Halt Nop
//  +--------+--------+---------+---------+--------+
//
// What is empty here is zero. `imm` and `value` are signed; `Op` has them 64 bits wide.
#![tactic(auto)]

mod checker;
pub mod format;
mod register;
pub mod word;

pub use checker::check;
use gc::AllocType;
pub use register::{NoRegister, REGISTER_COUNT, Reg};
pub use word::is_alignment;

// The opcodes from 0 on, with those that are not carried.
const OPCODES: usize = 61;

// What the keys of a table are: strings, whose addresses lie 4 apart, or integers.
#[derive(Clone, Copy, Debug, PartialEq, Eq)]
pub enum Keys {
    Str,
    Int,
}

#[derive(Clone, Copy, Debug, PartialEq, Eq)]
pub enum Op {
    // r[dst] = r[lhs] + r[rhs]
    IAdd {
        dst: Reg,
        lhs: Reg,
        rhs: Reg,
    },
    // r[dst] = r[lhs] + imm
    IAddI {
        dst: Reg,
        lhs: Reg,
        imm: u64,
    },
    // r[dst] = r[lhs] - r[rhs]
    ISub {
        dst: Reg,
        lhs: Reg,
        rhs: Reg,
    },
    // r[dst] = r[lhs] - imm
    ISubI {
        dst: Reg,
        lhs: Reg,
        imm: u64,
    },
    // r[dst] = r[lhs] * r[rhs]
    IMul {
        dst: Reg,
        lhs: Reg,
        rhs: Reg,
    },
    // r[dst] = r[lhs] * imm
    IMulI {
        dst: Reg,
        lhs: Reg,
        imm: u64,
    },
    // r[dst] = r[lhs] / r[rhs], toward zero
    IDiv {
        dst: Reg,
        lhs: Reg,
        rhs: Reg,
    },
    // r[dst] = r[lhs] / imm
    IDivI {
        dst: Reg,
        lhs: Reg,
        imm: u64,
    },
    // r[dst] = r[lhs] % r[rhs], with the sign of r[lhs]
    IMod {
        dst: Reg,
        lhs: Reg,
        rhs: Reg,
    },
    // r[dst] = r[lhs] % imm
    IModI {
        dst: Reg,
        lhs: Reg,
        imm: u64,
    },
    // r[dst] = r[lhs] & r[rhs]
    IAnd {
        dst: Reg,
        lhs: Reg,
        rhs: Reg,
    },
    // r[dst] = r[lhs] & imm
    IAndI {
        dst: Reg,
        lhs: Reg,
        imm: u64,
    },
    // r[dst] = r[lhs] < r[rhs]
    ILt {
        dst: Reg,
        lhs: Reg,
        rhs: Reg,
    },
    // r[dst] = r[lhs] > r[rhs]
    IGt {
        dst: Reg,
        lhs: Reg,
        rhs: Reg,
    },
    // r[dst] = r[lhs] == r[rhs]
    IEq {
        dst: Reg,
        lhs: Reg,
        rhs: Reg,
    },
    // r[dst] = r[lhs] == imm
    IEqI {
        dst: Reg,
        lhs: Reg,
        imm: u64,
    },
    // r[dst] = r[lhs] > imm
    IGtI {
        dst: Reg,
        lhs: Reg,
        imm: u64,
    },
    // r[dst] = r[lhs] < imm
    ILtI {
        dst: Reg,
        lhs: Reg,
        imm: u64,
    },
    // r[dst] = r[lhs] + r[rhs], as doubles
    DAdd {
        dst: Reg,
        lhs: Reg,
        rhs: Reg,
    },
    // r[dst] = r[lhs] - r[rhs], as doubles
    DSub {
        dst: Reg,
        lhs: Reg,
        rhs: Reg,
    },
    // r[dst] = r[lhs] * r[rhs], as doubles
    DMul {
        dst: Reg,
        lhs: Reg,
        rhs: Reg,
    },
    // r[dst] = r[lhs] / r[rhs], as doubles
    DDiv {
        dst: Reg,
        lhs: Reg,
        rhs: Reg,
    },
    // r[dst] = r[lhs] < r[rhs], as doubles
    DLt {
        dst: Reg,
        lhs: Reg,
        rhs: Reg,
    },
    // r[dst] = r[lhs] > r[rhs], as doubles
    DGt {
        dst: Reg,
        lhs: Reg,
        rhs: Reg,
    },
    // r[dst] = (r[lhs] != 0) == (r[rhs] != 0)
    BEq {
        dst: Reg,
        lhs: Reg,
        rhs: Reg,
    },
    // r[dst] = r[lhs] == r[rhs], by value and not by bytes
    SEq {
        dst: Reg,
        lhs: Reg,
        rhs: Reg,
    },
    // r[dst] = r[src]
    Mov {
        dst: Reg,
        src: Reg,
    },
    // r[dst] = value
    LoadI {
        dst: Reg,
        value: u64,
    },
    // r[dst] = globals[idx]
    LoadG {
        dst: Reg,
        idx: usize,
    },
    // pc = target
    Jmp {
        target: usize,
    },
    // if r[cond] != 0 { pc = target }
    JmpT {
        cond: Reg,
        target: usize,
    },
    // if r[cond] == 0 { pc = target }
    JmpF {
        cond: Reg,
        target: usize,
    },
    // if r[lhs] == imm { pc = target }
    JmpEqI {
        lhs: Reg,
        imm: u64,
        target: usize,
    },
    // if r[lhs] != imm { pc = target }
    JmpNeI {
        lhs: Reg,
        imm: u64,
        target: usize,
    },
    // if r[lhs] == r[rhs] { pc = target }, by value and not by bytes
    JmpSEq {
        lhs: Reg,
        rhs: Reg,
        target: usize,
    },
    // if r[lhs] != r[rhs] { pc = target }, by value
    JmpSNe {
        lhs: Reg,
        rhs: Reg,
        target: usize,
    },
    // pc = switches[table].targets[slot of r[subject]], or the next where it has no such slot
    Switch {
        kind: Keys,
        subject: Reg,
        table: usize,
    },
    // r[dst] = lookups[table].values[slot of r[subject]], or its default where it has no such slot
    Lookup {
        kind: Keys,
        dst: Reg,
        subject: Reg,
        table: usize,
    },
    // pc = func
    Tail {
        func: usize,
    },
    // push pc, pc = func
    Call {
        func: usize,
    },
    // r[dst] = r[src], from a double to an integer
    CastToInt {
        dst: Reg,
        src: Reg,
    },
    // r[dst] = r[src], from an integer to a double
    CastToDouble {
        dst: Reg,
        src: Reg,
    },
    // r[dst] = r[src] != 0
    CastToBool {
        dst: Reg,
        src: Reg,
    },
    // r[dst] = the address of a new block
    Alloc {
        kind: AllocType,
        dst: Reg,
        size: u64,
        align: u64,
    },
    // 8 bytes at r[base] + offset = r[src]
    Store {
        base: Reg,
        offset: u64,
        src: Reg,
    },
    // r[dst] = 8 bytes at r[base] + offset
    Load {
        dst: Reg,
        base: Reg,
        offset: u64,
    },
    // r[dst] = r[base] + offset
    AddrOf {
        dst: Reg,
        base: Reg,
        offset: u64,
    },
    // pc = the last pushed, plus 1
    Ret,
    // stop unless r[cond] != 0
    Assert {
        cond: Reg,
    },
    // end the run
    Halt,
    // nothing
    Nop,
}

impl Op {
    // The opcode that code ends with.
    pub const HALT: u64 = 59;
}

// How many words, globals and tables of each kind an image has.
#[derive(Clone, Copy, Debug, PartialEq, Eq)]
pub struct Counts {
    pub code: usize,
    pub globals: usize,
    pub switches: usize,
    pub lookups: usize,
}
