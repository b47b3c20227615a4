// How many answers were the stored ones.
ghost use Rattle.std.specs.Prelude.{◌≡◌, ◌+◌, ◌%◌, ◌^◌, ◌++◌, nat_lt, if◌then◌else◌, codes, [], Some};
ghost use Rattle.std.specs.Fmt.{decimal};

use crate::records::Source;
use std::fmt;
use std::ops::Add;

// How many answers were the stored ones, and how many were not.
#[derive(Clone, Copy, Default, PartialEq, Eq)]
pub struct Tally {
    agree: u64,
    differ: u64,
}

impl From<bool> for Tally {
    ghost from_gives = { λ agrees t. (t.agree ≡ (if agrees then 1 else 0)) × (t.differ ≡ (if agrees then 0 else 1)) };

    fn from(agrees: bool) -> Tally {
        Tally {
            agree: u64::from(agrees),
            differ: u64::from(!agrees),
        }
    }
}

impl Add for Tally {
    type Output = Tally;

    ghost add_gives = { λ a b t. (t.agree ≡ (a.agree + b.agree) % 2 ^ 64) × (t.differ ≡ (a.differ + b.differ) % 2 ^ 64) };

    fn add(self, other: Tally) -> Tally {
        Tally {
            agree: self.agree.wrapping_add(other.agree),
            differ: self.differ.wrapping_add(other.differ),
        }
    }
}

impl fmt::Display for Tally {
    ghost output = { λ t. Some (decimal t.agree ++ codes " agree" ++ (if nat_lt 0 t.differ then codes ", " ++ decimal t.differ ++ codes " DIFFER" else [])) };

    fn fmt<W: fmt::Write>(&self, f: &mut fmt::Formatter<W>) -> fmt::Result {
        write!(f, "{} agree", self.agree)?;
        if self.differ > 0 {
            write!(f, ", {} DIFFER", self.differ)?;
        }
        Ok(())
    }
}

// The cases of the subject that is being replayed, and all so far of each source.
#[derive(Clone, Copy, Default)]
pub struct Counts {
    pub subject: Tally,
    pub rust: Tally,
    pub paper: Tally,
}

impl Counts {
    ghost use Rattle.vectors.specs.Counted.{counted_of};

    // One case more.
    pub fn with(self, source: Source, agrees: bool) -> Counts
        ensures { result ≡ counted_of self source agrees }
    {
        let one = Tally::from(agrees);
        let subject = self.subject + one;
        match source {
            Source::Rust => Counts {
                subject,
                rust: self.rust + one,
                ..self
            },
            Source::Paper => Counts {
                subject,
                paper: self.paper + one,
                ..self
            },
        }
    }
}
