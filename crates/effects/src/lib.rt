// What an instruction asks for: the effects, and what is read of an image for them. The crate `meaning` has which instruction asks for which.
#![tactic(auto)]

pub mod tables;

use anomaly::{Anomaly, Refusal};
use gc::AllocType;
use op::Reg;

// Why an instruction ends a run.
#[derive(Clone, Copy, Debug, PartialEq, Eq)]
pub enum Stop {
    Anomaly(Anomaly),
    // The word is no instruction. No run that is not refused comes to it.
    Refused(Refusal),
}

// What an instruction asks for, once its registers are read.
#[derive(Clone, Copy, Debug, PartialEq, Eq)]
pub enum Effect {
    Set {
        dst: Reg,
        value: u64,
    },
    Skip,
    Goto {
        target: usize,
    },
    Call {
        func: usize,
    },
    Ret,
    Load {
        dst: Reg,
        base: u64,
        offset: u64,
    },
    Store {
        base: u64,
        offset: u64,
        value: u64,
    },
    Alloc {
        kind: AllocType,
        dst: Reg,
        size: u64,
    },
    Stop(Stop),
    // An end by any other number, as of a read outside the globals or the tables. No run that is not refused comes to it.
    Unlisted {
        number: u64,
    },
    Halt,
}
