// The number of a register, which is below 32: a word with a larger one is refused.
ghost use Rattle.std.specs.Prelude.{◌≡◌, ◌<◌, slice_index, slice_set};
ghost use Rattle.op.specs.Registers.{IsRegisterOf};

use std::marker::Model;

pub const REGISTER_COUNT: usize = 32;

// A byte, as in a word: with a number of 8 bytes a step of the loop took up to 4 instructions more, and about a fifth more time.
#[derive(Clone, Copy, Debug, PartialEq, Eq)]
pub struct Reg {
    number: u8,
}

impl Model for Reg {
    ghost use Rattle.std.specs.Prelude.{ℕ, ◌<◌};

    ghost Value = { ℕ };

    ghost view = { λ r. r.number };

    ghost invariant = { λ r. r.number < 32 };

    ghost inverse = { λ n. record { number = n } };
}

// A number that no register has.
#[derive(Clone, Copy, Debug, PartialEq, Eq)]
pub struct NoRegister(pub usize);

impl TryFrom<usize> for Reg {
    type Error = NoRegister;

    ghost try_from_gives = { IsRegisterOf };

    fn try_from(n: usize) -> Result<Self, NoRegister> {
        if n < REGISTER_COUNT {
            Ok(Reg::new(n))
        } else {
            Err(NoRegister(n))
        }
    }
}

impl From<Reg> for usize {
    ghost from_gives = { λ register n. n ≡ register };

    fn from(register: Reg) -> usize {
        usize::from(register.number)
    }
}

impl Reg {
    pub(crate) fn new(number: usize) -> Reg
        requires { number < 32 }
        ensures { result ≡ number }
    {
        Reg {
            number: number as u8,
        }
    }

    pub fn read(self, regs: &[u64; 32]) -> u64
        ensures { result ≡ slice_index regs.now self }
    {
        regs[usize::from(self)]
    }

    pub fn write(self, regs: &mut [u64; 32], value: u64)
        ensures { regs.new ≡ slice_set regs.old self value }
    {
        regs[usize::from(self)] = value;
    }
}
