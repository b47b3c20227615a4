// From a word to its instruction. `decode` is for the loop of a run alone: the compiler then puts it into the loop. A second caller
// would make the loop slower.
#![tactic(auto)]

ghost use Rattle.std.specs.Prelude.{◌≡◌};
ghost use Rattle.op.specs.Decode.{decode_of};

use anomaly::Refusal;
use op::Op;
use op::format::{
    alloc, bare, condition, function, jump, jump_if, jump_immediate, jump_two, lookup,
    one_and_number, one_and_signed, switch, three, two, two_and_number, two_and_signed,
};

// One match, since the opcodes are a closed set: a table of functions or closures would hide from the compiler what it puts into the
// loop. Divided by ranges, a function each, it took 4 to 8 instructions a step more.
pub fn decode(w: u64) -> Result<Op, Refusal>
    ensures { result ≡ decode_of w }
{
    let opcode = w % 256;
    match opcode {
        0 => three(w).map(|(dst, lhs, rhs)| Op::IAdd { dst, lhs, rhs }),
        1 => two_and_signed(w).map(|(dst, lhs, imm)| Op::IAddI { dst, lhs, imm }),
        2 => three(w).map(|(dst, lhs, rhs)| Op::ISub { dst, lhs, rhs }),
        3 => two_and_signed(w).map(|(dst, lhs, imm)| Op::ISubI { dst, lhs, imm }),
        4 => three(w).map(|(dst, lhs, rhs)| Op::IMul { dst, lhs, rhs }),
        5 => two_and_signed(w).map(|(dst, lhs, imm)| Op::IMulI { dst, lhs, imm }),
        6 => three(w).map(|(dst, lhs, rhs)| Op::IDiv { dst, lhs, rhs }),
        7 => two_and_signed(w).map(|(dst, lhs, imm)| Op::IDivI { dst, lhs, imm }),
        8 => three(w).map(|(dst, lhs, rhs)| Op::IMod { dst, lhs, rhs }),
        9 => two_and_signed(w).map(|(dst, lhs, imm)| Op::IModI { dst, lhs, imm }),
        10 => three(w).map(|(dst, lhs, rhs)| Op::IAnd { dst, lhs, rhs }),
        11 => two_and_signed(w).map(|(dst, lhs, imm)| Op::IAndI { dst, lhs, imm }),
        12 => three(w).map(|(dst, lhs, rhs)| Op::ILt { dst, lhs, rhs }),
        13 => three(w).map(|(dst, lhs, rhs)| Op::IGt { dst, lhs, rhs }),
        14 => three(w).map(|(dst, lhs, rhs)| Op::IEq { dst, lhs, rhs }),
        15 => two_and_signed(w).map(|(dst, lhs, imm)| Op::IEqI { dst, lhs, imm }),
        16 => two_and_signed(w).map(|(dst, lhs, imm)| Op::IGtI { dst, lhs, imm }),
        17 => two_and_signed(w).map(|(dst, lhs, imm)| Op::ILtI { dst, lhs, imm }),
        18 => three(w).map(|(dst, lhs, rhs)| Op::DAdd { dst, lhs, rhs }),
        19 => three(w).map(|(dst, lhs, rhs)| Op::DSub { dst, lhs, rhs }),
        20 => three(w).map(|(dst, lhs, rhs)| Op::DMul { dst, lhs, rhs }),
        21 => three(w).map(|(dst, lhs, rhs)| Op::DDiv { dst, lhs, rhs }),
        22 => three(w).map(|(dst, lhs, rhs)| Op::DLt { dst, lhs, rhs }),
        23 => three(w).map(|(dst, lhs, rhs)| Op::DGt { dst, lhs, rhs }),
        24 => three(w).map(|(dst, lhs, rhs)| Op::BEq { dst, lhs, rhs }),
        25 => three(w).map(|(dst, lhs, rhs)| Op::SEq { dst, lhs, rhs }),
        26 => two(w).map(|(dst, src)| Op::Mov { dst, src }),
        27 => one_and_signed(w).map(|(dst, value)| Op::LoadI { dst, value }),
        28 => one_and_number(w).map(|(dst, idx)| Op::LoadG { dst, idx }),
        29 => jump(w).map(|target| Op::Jmp { target }),
        30 => jump_if(w).map(|(cond, target)| Op::JmpT { cond, target }),
        31 => jump_if(w).map(|(cond, target)| Op::JmpF { cond, target }),
        32 => jump_immediate(w).map(|(lhs, imm, target)| Op::JmpEqI { lhs, imm, target }),
        33 => jump_immediate(w).map(|(lhs, imm, target)| Op::JmpNeI { lhs, imm, target }),
        34 => jump_two(w).map(|(lhs, rhs, target)| Op::JmpSEq { lhs, rhs, target }),
        35 => jump_two(w).map(|(lhs, rhs, target)| Op::JmpSNe { lhs, rhs, target }),
        36 => switch(w).map(|(kind, subject, table)| Op::Switch {
            kind,
            subject,
            table,
        }),
        37 => lookup(w).map(|(kind, dst, subject, table)| Op::Lookup {
            kind,
            dst,
            subject,
            table,
        }),
        38 => function(w).map(|func| Op::Tail { func }),
        39 => function(w).map(|func| Op::Call { func }),
        50 => two(w).map(|(dst, src)| Op::CastToInt { dst, src }),
        51 => two(w).map(|(dst, src)| Op::CastToDouble { dst, src }),
        52 => two(w).map(|(dst, src)| Op::CastToBool { dst, src }),
        53 => alloc(w).map(|(dst, kind, size, align)| Op::Alloc {
            kind,
            dst,
            size,
            align,
        }),
        54 => two_and_number(w).map(|(base, src, offset)| Op::Store { base, src, offset }),
        55 => two_and_number(w).map(|(dst, base, offset)| Op::Load { dst, base, offset }),
        56 => two_and_number(w).map(|(dst, base, offset)| Op::AddrOf { dst, base, offset }),
        57 => bare(w).map(|()| Op::Ret),
        58 => condition(w).map(|cond| Op::Assert { cond }),
        59 => bare(w).map(|()| Op::Halt),
        60 => bare(w).map(|()| Op::Nop),
        _ => Err(Refusal::Opcode),
    }
}
