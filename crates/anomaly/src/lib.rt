// What stops a run, what refuses a call, and how a run ends. Each has its number in document 01, 'Ends and numbers':
// the constants below, which stand once (a discriminant would say them again), and the definitions of specs/Table.antt. It is asked for by
// `number`, and not by `u64::from`: an end has a number, a `pc` and `steps`, and that would not say which; an anomaly and a refusal, which a
// run's answer has in the end's place, are asked in the same word, and another would be no plainer.
#![tactic(auto)]

ghost use Rattle.std.specs.Prelude.{◌≡◌};
ghost use Rattle.anomaly.specs.Table.{number_of_anomaly, number_of_refusal, number_of_end, pc_of_end, steps_of_end};
ghost use Rattle.anomaly.specs.Table.{NumbersAnomaly, NumbersRefusal};

// The width of a budget and of a count of steps.
pub type Steps = u32;

// A number that no anomaly, or no refusal, has.
#[derive(Clone, Copy, Debug, PartialEq, Eq)]
pub struct Unlisted(pub u64);

// Why an instruction stops a run.
#[derive(Clone, Copy, Debug, PartialEq, Eq)]
pub enum Anomaly {
    DivisionByZero,
    AllocationFailed,
    // Call at a depth that equals the frames.
    StackOverflow,
    AssertionFailed,
    // Load or Store not wholly in pushed pages, or at no multiple of 8.
    BadAddress,
    // -2^63 by -1, quotient or remainder.
    QuotientOverflow,
    // Ret at depth 0.
    FrameUnderflow,
}

impl Anomaly {
    pub const DIVISION_BY_ZERO: u64 = 1;

    pub const ALLOCATION_FAILED: u64 = 2;

    pub const STACK_OVERFLOW: u64 = 3;

    pub const ASSERTION_FAILED: u64 = 4;

    pub const BAD_ADDRESS: u64 = 6;

    pub const QUOTIENT_OVERFLOW: u64 = 7;

    pub const FRAME_UNDERFLOW: u64 = 8;

    pub fn number(self) -> u64
        ensures { result ≡ number_of_anomaly self }
    {
        match self {
            Anomaly::DivisionByZero => Anomaly::DIVISION_BY_ZERO,
            Anomaly::AllocationFailed => Anomaly::ALLOCATION_FAILED,
            Anomaly::StackOverflow => Anomaly::STACK_OVERFLOW,
            Anomaly::AssertionFailed => Anomaly::ASSERTION_FAILED,
            Anomaly::BadAddress => Anomaly::BAD_ADDRESS,
            Anomaly::QuotientOverflow => Anomaly::QUOTIENT_OVERFLOW,
            Anomaly::FrameUnderflow => Anomaly::FRAME_UNDERFLOW,
        }
    }
}

impl TryFrom<u64> for Anomaly {
    type Error = Unlisted;

    ghost try_from_gives = { NumbersAnomaly };

    fn try_from(number: u64) -> Result<Self, Unlisted> {
        match number {
            Anomaly::DIVISION_BY_ZERO => Ok(Anomaly::DivisionByZero),
            Anomaly::ALLOCATION_FAILED => Ok(Anomaly::AllocationFailed),
            Anomaly::STACK_OVERFLOW => Ok(Anomaly::StackOverflow),
            Anomaly::ASSERTION_FAILED => Ok(Anomaly::AssertionFailed),
            Anomaly::BAD_ADDRESS => Ok(Anomaly::BadAddress),
            Anomaly::QUOTIENT_OVERFLOW => Ok(Anomaly::QuotientOverflow),
            Anomaly::FRAME_UNDERFLOW => Ok(Anomaly::FrameUnderflow),
            _ => Err(Unlisted(number)),
        }
    }
}

// Why a call is refused.
#[derive(Clone, Copy, Debug, PartialEq, Eq)]
pub enum Refusal {
    // An allocation that the lent heap has no room for.
    Memory,
    // A lent state that can't belong to the buffers.
    State,
    // A size, or the base of the heap, outside the limits.
    Size,
    // Code that doesn't end in Halt.
    NoHalt,
    // An opcode that isn't carried.
    Opcode,
    // A register above 31, a wrong kind or alignment, or an unused byte that isn't zero.
    Operand,
    // A jump or a function past the code.
    Target,
    // A global or a table index past its count.
    Index,
    // A switch table's target past the code.
    TableTarget,
    // A small string over 8 bytes, or with padding that isn't zero.
    SmallString,
    // A table of names that must grow past the slots lent.
    TableFull,
    // A malformed line of an image, or too long an input.
    Text,
}

impl Refusal {
    pub const MEMORY: u64 = 2;

    pub const STATE: u64 = 9;

    pub const SIZE: u64 = 10;

    pub const NO_HALT: u64 = 11;

    pub const OPCODE: u64 = 12;

    pub const OPERAND: u64 = 13;

    pub const TARGET: u64 = 14;

    pub const INDEX: u64 = 15;

    pub const TABLE_TARGET: u64 = 16;

    pub const SMALL_STRING: u64 = 17;

    pub const TABLE_FULL: u64 = 18;

    pub const TEXT: u64 = 19;

    pub fn number(self) -> u64
        ensures { result ≡ number_of_refusal self }
    {
        match self {
            Refusal::Memory => Refusal::MEMORY,
            Refusal::State => Refusal::STATE,
            Refusal::Size => Refusal::SIZE,
            Refusal::NoHalt => Refusal::NO_HALT,
            Refusal::Opcode => Refusal::OPCODE,
            Refusal::Operand => Refusal::OPERAND,
            Refusal::Target => Refusal::TARGET,
            Refusal::Index => Refusal::INDEX,
            Refusal::TableTarget => Refusal::TABLE_TARGET,
            Refusal::SmallString => Refusal::SMALL_STRING,
            Refusal::TableFull => Refusal::TABLE_FULL,
            Refusal::Text => Refusal::TEXT,
        }
    }
}

impl TryFrom<u64> for Refusal {
    type Error = Unlisted;

    ghost try_from_gives = { NumbersRefusal };

    fn try_from(number: u64) -> Result<Self, Unlisted> {
        match number {
            Refusal::MEMORY => Ok(Refusal::Memory),
            Refusal::STATE => Ok(Refusal::State),
            Refusal::SIZE => Ok(Refusal::Size),
            Refusal::NO_HALT => Ok(Refusal::NoHalt),
            Refusal::OPCODE => Ok(Refusal::Opcode),
            Refusal::OPERAND => Ok(Refusal::Operand),
            Refusal::TARGET => Ok(Refusal::Target),
            Refusal::INDEX => Ok(Refusal::Index),
            Refusal::TABLE_TARGET => Ok(Refusal::TableTarget),
            Refusal::SMALL_STRING => Ok(Refusal::SmallString),
            Refusal::TABLE_FULL => Ok(Refusal::TableFull),
            Refusal::TEXT => Ok(Refusal::Text),
            _ => Err(Unlisted(number)),
        }
    }
}

// How a run ends that is not refused.
#[derive(Clone, Copy, Debug, PartialEq, Eq)]
pub enum End {
    // At a Halt, or with nothing to run.
    Halt {
        pc: usize,
        steps: Steps,
    },
    // The budget is completed; pc is the next instruction's.
    Budget {
        pc: usize,
        steps: Steps,
    },
    // At the place of the instruction that stopped it, with the steps completed before.
    Stopped {
        why: Anomaly,
        pc: usize,
        steps: Steps,
    },
}

impl End {
    pub const HALT: u64 = 0;

    pub const BUDGET: u64 = 5;

    pub fn number(self) -> u64
        ensures { result ≡ number_of_end self }
    {
        match self {
            End::Halt { .. } => End::HALT,
            End::Budget { .. } => End::BUDGET,
            End::Stopped { why, .. } => why.number(),
        }
    }

    pub fn pc(self) -> usize
        ensures { result ≡ pc_of_end self }
    {
        match self {
            End::Halt { pc, .. } | End::Budget { pc, .. } | End::Stopped { pc, .. } => pc,
        }
    }

    pub fn steps(self) -> Steps
        ensures { result ≡ steps_of_end self }
    {
        match self {
            End::Halt { steps, .. } | End::Budget { steps, .. } | End::Stopped { steps, .. } =>
                steps,
        }
    }
}
