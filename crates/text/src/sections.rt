// What the lines of an image hold, section by section.
ghost use Rattle.std.specs.Prelude.{◌≡◌, ◌+◌, ◌≤◌, ◌<◌, ◌^◌, length, [], ◌∷◌};
ghost use Rattle.std.specs.Iterator.{YieldsFirst, item_count};
ghost use Rattle.memory.specs.Lists.{over, Written};
ghost use Rattle.text.specs.Kinds.{number_of_kind};
ghost use Rattle.text.specs.Lines.{kind_of, payload_of};
ghost use Rattle.text.specs.Sections.{section_in};

use crate::buffer::put_at;
use crate::digits::{behind, number};
use crate::lines::{Kind, Lines, has_kind, kind_of, payload_of};

// The parts of an image. Tables of a kind are three lists: the first key of each, where the entries
// of each end among those of all, and all entries in a row; a lookup table has a default too.
#[derive(Clone, Copy)]
pub enum Section {
    Code,
    Globals,
    SwitchFirsts,
    SwitchEnds,
    SwitchEntries,
    LookupFirsts,
    LookupDefaults,
    LookupEnds,
    LookupEntries,
}

// Numbers that a line adds to a section: one that stands alone, and those of `width` digits each.
#[derive(Drop)]
struct Numbers<'a> {
    one: Option<u64>,
    digits: &'a [u8],
    width: usize,
    ghost some_digits: { 0 < width },
    ghost few_digits: { width ≤ 16 },
}

impl<'a> Numbers<'a> {
    ghost use Rattle.text.specs.Left.{numbers_left};
    ghost use Rattle.text.specs.Sections.{of_kind, targets_in, values_in};

    #[tactic(auto, unfolding(crate::specs::Digits::numbers))]
    fn none() -> Numbers<'a>
        ensures { numbers_left result ≡ [] }
    {
        Numbers {
            one: None,
            digits: &[],
            width: 1,
        }
    }

    #[tactic(auto, unfolding(crate::specs::Digits::numbers))]
    fn one(number: u64) -> Numbers<'a>
        ensures { numbers_left result ≡ number ∷ [] }
    {
        Numbers {
            one: Some(number),
            digits: &[],
            width: 1,
        }
    }

    // The targets of a jump table's payload.
    fn targets(p: &'a [u8]) -> Numbers<'a>
        ensures { numbers_left result ≡ targets_in p.now }
    {
        Numbers {
            one: None,
            digits: behind(p, 16),
            width: 4,
        }
    }

    // The values of a lookup table's payload.
    fn values(p: &'a [u8]) -> Numbers<'a>
        ensures { numbers_left result ≡ values_in p.now }
    {
        Numbers {
            one: None,
            digits: behind(p, 32),
            width: 16,
        }
    }

    // These on a line of this kind, and none on another.
    fn on(self, line: &[u8], kind: Kind) -> Numbers<'a>
        ensures { numbers_left result
            ≡ of_kind (number_of_kind kind) (kind_of line.now) (numbers_left self.entry) }
    {
        if has_kind(line, kind) {
            self
        } else {
            Numbers::none()
        }
    }

    // Lays them over a buffer from a place on, as far as it goes; the place behind them.
    #[tactic(auto, using(crate::proofs::Laying::laying_next, crate::proofs::Laying::laying_end))]
    fn put(self, buf: &mut [u64], at: usize) -> usize
        requires { at + length (numbers_left self) < 2 ^ 64 }
        ensures { Written buf.old at (numbers_left self.entry) buf.new result }
    {
        // counted beside the `for`: the place behind them is answered, past the buffer's end too; `(at..).zip(self)` does not tell it, and with
        // it the proof did not close
        let mut n = at;
        for number in self {
            put_at(buf, n, number);
            n += 1;
        }
        n
    }
}

impl Iterator for Numbers<'_> {
    ghost use Rattle.text.specs.Left.{numbers_left};

    type Item = u64;

    ghost next_gives = { YieldsFirst numbers_left };

    ghost remaining = { item_count numbers_left };

    fn next(&mut self) -> Option<u64> {
        if let Some(number) = self.one.take() {
            return Some(number);
        }
        let width = self.width;
        let (digits, rest) = self.digits.split_at_checked(width)?;
        self.digits = rest;
        Some(number(digits, 0, width))
    }
}

// How many entries the tables of each kind have up to a line.
#[derive(Clone, Copy, Default)]
struct Ends {
    targets: usize,
    values: usize,
}

impl Ends {
    ghost use Rattle.text.specs.Sections.{targets_with, values_with};

    // With those of one line more.
    fn with(self, line: &[u8]) -> Ends
        requires targets { self.targets + length line.now < 2 ^ 64 }
        requires values { self.values + length line.now < 2 ^ 64 }
        ensures targets { result.targets
            ≡ targets_with self.targets (kind_of line.now) (payload_of line.now) }
        ensures values { result.values
            ≡ values_with self.values (kind_of line.now) (payload_of line.now) }
    {
        let p = payload_of(line);
        match kind_of(line) {
            Some(Kind::Switch) => Ends {
                targets: self.targets + Numbers::targets(p).count(),
                ..self
            },
            Some(Kind::Lookup) => Ends {
                values: self.values + Numbers::values(p).count(),
                ..self
            },
            _ => self,
        }
    }
}

impl Section {
    ghost use Rattle.text.specs.Left.{numbers_left};
    ghost use Rattle.text.specs.Sections.{adds};

    // What a line adds to the section, where the tables up to it have so many entries. One match, since the sections are a closed set.
    #[tactic(auto, unfolding(crate::specs::Sections::adds))]
    fn numbers<'a>(self, line: &'a [u8], ends: Ends) -> Numbers<'a>
        ensures { numbers_left result
            ≡ adds self ends.targets ends.values (kind_of line.now) (payload_of line.now) }
    {
        let p = payload_of(line);
        match self {
            Section::Code => Numbers::one(number(p, 0, 16)).on(line, Kind::Word),
            Section::Globals => match kind_of(line) {
                Some(Kind::Global) => Numbers::one(number(p, 0, 16)),
                // it is 0 until the name is interned
                Some(Kind::Name) => Numbers::one(0),
                _ => Numbers::none(),
            },
            Section::SwitchFirsts => Numbers::one(number(p, 0, 16)).on(line, Kind::Switch),
            Section::SwitchEnds => Numbers::one(ends.targets as u64).on(line, Kind::Switch),
            Section::SwitchEntries => Numbers::targets(p).on(line, Kind::Switch),
            Section::LookupFirsts => Numbers::one(number(p, 0, 16)).on(line, Kind::Lookup),
            Section::LookupDefaults => Numbers::one(number(p, 16, 16)).on(line, Kind::Lookup),
            Section::LookupEnds => Numbers::one(ends.values as u64).on(line, Kind::Lookup),
            Section::LookupEntries => Numbers::values(p).on(line, Kind::Lookup),
        }
    }
}

// One section of a text, laid over a buffer from its start, as far as it goes; how many numbers it
// has. The words are lent, and no list is answered: the runner's rating allocates nothing, and they
// go on to the machine.
pub fn gather(s: &[u8], section: Section, buf: &mut [u64]) -> usize
    ensures { (result ≡ length (section_in section s.now))
        × (buf.new ≡ over (section_in section s.now) buf.old) }
{
    let mut ends = Ends::default();
    let mut n = 0;
    for line in Lines(s) {
        ends = ends.with(line);
        n = section.numbers(line, ends).put(buf, n);
    }
    n
}
