// The meaning of every `Op`, as the effect that it asks for. `word_effect` is for the loop of a run alone, and each function below it is tiny or
// has one call site: the compiler then puts them all into the loop.
#![tactic(auto)]

ghost use Rattle.std.specs.Prelude.{◌≡◌, if◌then◌else◌};
ghost use Rattle.anomaly.specs.declared.Anomaly.TheVariants.{AssertionFailed};
ghost use Rattle.op.specs.Decode.{decode_of};
ghost use Rattle.effects.specs.Effect.{divided, jump_if, effect_of, word_effect};
ghost use Rattle.effects.specs.declared.Effect.{Effect};
ghost use Rattle.effects.specs.declared.Stop.TheVariants as stop;

use anomaly::Anomaly;
use effects::{Effect, Stop, tables};
use op::{Op, Reg};
use program::Image;
use value::int::DivisionError;
use value::{Value, double, int};

#[tactic(auto, unfolding(effects::specs::Effect::divided))]
fn divided(dst: Reg, d: Result<u64, DivisionError>) -> Effect
    ensures { result ≡ divided dst d }
{
    match d {
        Ok(value) => Effect::Set { dst, value },
        Err(DivisionError::ByZero) => Effect::Stop(Stop::Anomaly(Anomaly::DivisionByZero)),
        Err(DivisionError::Overflow) => Effect::Stop(Stop::Anomaly(Anomaly::QuotientOverflow)),
    }
}

#[tactic(auto, unfolding(effects::specs::Effect::jump_if))]
fn jump_if(b: bool, target: usize) -> Effect
    ensures { result ≡ jump_if b target }
{
    if b {
        Effect::Goto { target }
    } else {
        Effect::Skip
    }
}

fn assert(b: bool) -> Effect
    ensures { result ≡ (if b then Effect.Skip else Effect.Stop (stop.Anomaly AssertionFailed)) }
{
    if b {
        Effect::Skip
    } else {
        Effect::Stop(Stop::Anomaly(Anomaly::AssertionFailed))
    }
}

// One match, since the instructions are a closed set: a table of functions or closures would hide from the compiler what it puts into the loop.
#[tactic(auto, using(effects::proofs::Asks::difference), unfolding(effects::specs::Effect::effect_of))]
fn effect_of(op: Op, regs: &[u64; 32], image: &Image) -> Effect
    ensures { result ≡ effect_of image.now regs.now op }
{
    match op {
        Op::IAdd { dst, lhs, rhs } => Effect::Set {
            dst,
            value: lhs.read(regs).wrapping_add(rhs.read(regs)),
        },
        Op::IAddI { dst, lhs, imm } => Effect::Set {
            dst,
            value: lhs.read(regs).wrapping_add(imm),
        },
        Op::ISub { dst, lhs, rhs } => Effect::Set {
            dst,
            value: lhs.read(regs).wrapping_sub(rhs.read(regs)),
        },
        Op::ISubI { dst, lhs, imm } => Effect::Set {
            dst,
            value: lhs.read(regs).wrapping_sub(imm),
        },
        Op::IMul { dst, lhs, rhs } => Effect::Set {
            dst,
            value: int::wrapping_mul(lhs.read(regs), rhs.read(regs)),
        },
        Op::IMulI { dst, lhs, imm } => Effect::Set {
            dst,
            value: int::wrapping_mul(lhs.read(regs), imm),
        },
        Op::IDiv { dst, lhs, rhs } => divided(dst, int::div(lhs.read(regs), rhs.read(regs))),
        Op::IDivI { dst, lhs, imm } => divided(dst, int::div(lhs.read(regs), imm)),
        Op::IMod { dst, lhs, rhs } => divided(dst, int::rem(lhs.read(regs), rhs.read(regs))),
        Op::IModI { dst, lhs, imm } => divided(dst, int::rem(lhs.read(regs), imm)),
        Op::IAnd { dst, lhs, rhs } => Effect::Set {
            dst,
            value: int::and(lhs.read(regs), rhs.read(regs)),
        },
        Op::IAndI { dst, lhs, imm } => Effect::Set {
            dst,
            value: int::and(lhs.read(regs), imm),
        },
        Op::ILt { dst, lhs, rhs } => Effect::Set {
            dst,
            value: Value::from(int::lt(lhs.read(regs), rhs.read(regs))).0,
        },
        Op::IGt { dst, lhs, rhs } => Effect::Set {
            dst,
            value: Value::from(int::gt(lhs.read(regs), rhs.read(regs))).0,
        },
        Op::IEq { dst, lhs, rhs } => Effect::Set {
            dst,
            value: Value::from(lhs.read(regs) == rhs.read(regs)).0,
        },
        Op::IEqI { dst, lhs, imm } => Effect::Set {
            dst,
            value: Value::from(lhs.read(regs) == imm).0,
        },
        Op::IGtI { dst, lhs, imm } => Effect::Set {
            dst,
            value: Value::from(int::gt(lhs.read(regs), imm)).0,
        },
        Op::ILtI { dst, lhs, imm } => Effect::Set {
            dst,
            value: Value::from(int::lt(lhs.read(regs), imm)).0,
        },
        Op::DAdd { dst, lhs, rhs } => Effect::Set {
            dst,
            value: double::add(lhs.read(regs), rhs.read(regs)),
        },
        Op::DSub { dst, lhs, rhs } => Effect::Set {
            dst,
            value: double::sub(lhs.read(regs), rhs.read(regs)),
        },
        Op::DMul { dst, lhs, rhs } => Effect::Set {
            dst,
            value: double::mul(lhs.read(regs), rhs.read(regs)),
        },
        Op::DDiv { dst, lhs, rhs } => Effect::Set {
            dst,
            value: double::div(lhs.read(regs), rhs.read(regs)),
        },
        Op::DLt { dst, lhs, rhs } => Effect::Set {
            dst,
            value: Value::from(double::lt(lhs.read(regs), rhs.read(regs))).0,
        },
        Op::DGt { dst, lhs, rhs } => Effect::Set {
            dst,
            value: Value::from(double::gt(lhs.read(regs), rhs.read(regs))).0,
        },
        Op::BEq { dst, lhs, rhs } => Effect::Set {
            dst,
            value: Value::from(Value(lhs.read(regs)).bool_eq(Value(rhs.read(regs)))).0,
        },
        Op::SEq { dst, lhs, rhs } => Effect::Set {
            dst,
            value: Value::from(Value(lhs.read(regs)).str_eq(Value(rhs.read(regs)))).0,
        },
        Op::Mov { dst, src } => Effect::Set {
            dst,
            value: src.read(regs),
        },
        Op::LoadI { dst, value } => Effect::Set { dst, value },
        Op::LoadG { dst, idx } => tables::load_global(dst, idx, image.globals()),
        Op::Jmp { target } => Effect::Goto { target },
        Op::JmpT { cond, target } => jump_if(Value(cond.read(regs)).as_bool(), target),
        Op::JmpF { cond, target } => jump_if(!Value(cond.read(regs)).as_bool(), target),
        Op::JmpEqI { lhs, imm, target } => jump_if(lhs.read(regs) == imm, target),
        Op::JmpNeI { lhs, imm, target } => jump_if(lhs.read(regs) != imm, target),
        Op::JmpSEq { lhs, rhs, target } => jump_if(
            Value(lhs.read(regs)).str_eq(Value(rhs.read(regs))),
            target,
        ),
        Op::JmpSNe { lhs, rhs, target } => jump_if(
            !Value(lhs.read(regs)).str_eq(Value(rhs.read(regs))),
            target,
        ),
        Op::Switch {
            kind,
            subject,
            table,
        } => tables::switch(kind, subject.read(regs), table, image.switches()),
        Op::Lookup {
            kind,
            dst,
            subject,
            table,
        } => tables::lookup(
            kind,
            dst,
            subject.read(regs),
            table,
            image.lookups(),
            image.defaults(),
        ),
        Op::Tail { func } => Effect::Goto { target: func },
        Op::Call { func } => Effect::Call { func },
        Op::CastToInt { dst, src } => Effect::Set {
            dst,
            value: Value(src.read(regs)).f64_to_int().0,
        },
        Op::CastToDouble { dst, src } => Effect::Set {
            dst,
            value: Value(src.read(regs)).int_to_f64().0,
        },
        Op::CastToBool { dst, src } => Effect::Set {
            dst,
            value: Value(src.read(regs)).int_to_bool().0,
        },
        Op::Alloc {
            kind,
            dst,
            size,
            align: _,
        } => Effect::Alloc { kind, dst, size },
        Op::Store { base, offset, src } => Effect::Store {
            base: base.read(regs),
            offset,
            value: src.read(regs),
        },
        Op::Load { dst, base, offset } => Effect::Load {
            dst,
            base: base.read(regs),
            offset,
        },
        Op::AddrOf { dst, base, offset } => Effect::Set {
            dst,
            value: base.read(regs).wrapping_add(offset),
        },
        Op::Ret => Effect::Ret,
        Op::Assert { cond } => assert(Value(cond.read(regs)).as_bool()),
        Op::Halt => Effect::Halt,
        Op::Nop => Effect::Skip,
    }
}

// The effect of a word. The loader has refused a word that is no instruction.
#[tactic(auto, unfolding(effects::specs::Effect::word_effect))]
pub fn word_effect(w: u64, regs: &[u64; 32], image: &Image) -> Effect
    ensures { result ≡ word_effect image.now regs.now (decode_of w) }
{
    // by `let .. else`, and no `?`: a form that document 01 names ('The shape each place takes')
    let decoded = decoder::decode(w);
    let Ok(op) = decoded else {
        return Effect::Stop(Stop::Refused(decoded.unwrap_err()));
    };
    effect_of(op, regs, image)
}
