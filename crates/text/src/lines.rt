// Lines, their kinds and payloads.
ghost use Rattle.std.specs.Prelude.{suc, ◌≡◌, ◌<◌, ◌≤◌, ◌==◌, length, take, drop, SomeIff, MatchOption};
ghost use Rattle.std.specs.Iterator.{YieldsFirstRef, item_count};
ghost use Rattle.text.specs.Kinds.{number_of_kind, OfNumber};
ghost use Rattle.text.specs.Lines.{lines_in, up_to, kind_of, payload_of, count_ok, line_ok};
ghost use Rattle.text.specs.Text.{is_header, is_other};

use crate::digits::{all_digits, behind, number};

// The kinds of lines.
#[derive(Clone, Copy, PartialEq, Eq)]
pub enum Kind {
    Header,
    Word,
    Global,
    Switch,
    Lookup,
    Name,
}

// A number that is no kind's.
#[derive(Clone, Copy)]
pub struct UnknownKind;

// The kind of a line, from the number of its first two digits.
impl TryFrom<u64> for Kind {
    type Error = UnknownKind;

    ghost try_from_gives = { OfNumber };

    fn try_from(number: u64) -> Result<Kind, UnknownKind> {
        match number {
            0 => Ok(Kind::Header),
            1 => Ok(Kind::Word),
            2 => Ok(Kind::Global),
            3 => Ok(Kind::Switch),
            4 => Ok(Kind::Lookup),
            5 => Ok(Kind::Name),
            _ => Err(UnknownKind),
        }
    }
}

impl Kind {
    // Whether a line of this kind may have `n` digits behind it.
    #[tactic(auto, using(std::proofs::lemmas::Bool::Decides::nat_tests), unfolding(crate::specs::Lines::count_ok))]
    fn takes(self, n: usize) -> bool
        ensures { result ≡ count_ok (number_of_kind self) n }
    {
        match self {
            Kind::Header => n == 36,
            Kind::Word | Kind::Global => n == 16,
            Kind::Switch => 16 <= n && n % 4 == 0,
            Kind::Lookup => 32 <= n && n % 16 == 0,
            Kind::Name => n % 2 == 0,
        }
    }
}

// The kind of a line: of the number of its first two digits.
pub fn kind_of(line: &[u8]) -> Option<Kind>
    ensures { MatchOption result (5 < kind_of line.now) (λ k. number_of_kind k ≡ kind_of line.now) }
{
    Kind::try_from(number(line, 0, 2)).ok()
}

pub fn has_kind(line: &[u8], kind: Kind) -> bool
    ensures { result ≡ (kind_of line.now == number_of_kind kind) }
{
    kind_of(line) == Some(kind)
}

// What stands behind its kind.
pub fn payload_of(line: &[u8]) -> &[u8]
    ensures { result.now ≡ payload_of line.now }
{
    behind(line, 2)
}

// Whether a line has a known kind, digits alone, and as many as its kind asks for.
fn line_ok(line: &[u8]) -> bool
    ensures { result ≡ line_ok line.now }
{
    let Some(kind) = kind_of(line) else {
        return false;
    };
    2 <= line.len() && all_digits(line) && kind.takes(line.len() - 2)
}

pub fn is_header(line: &[u8]) -> bool
    ensures { result ≡ is_header line.now }
{
    line_ok(line) && has_kind(line, Kind::Header)
}

pub fn is_other(line: &[u8]) -> bool
    ensures { result ≡ is_other line.now }
{
    line_ok(line) && !has_kind(line, Kind::Header)
}

// How many bytes stand before the first line feed.
fn line_feed(s: &[u8]) -> Option<usize>
    ensures { SomeIff result (up_to s.now < length s.now) (up_to s.now) }
{
    s.iter().position(|&c| c == b'\n')
}

// What stands before the first line feed, and what stands behind it.
pub fn split_line(s: &[u8]) -> Option<(&[u8], &[u8])>
    ensures { MatchOption result (length s.now ≤ up_to s.now) (λ parts. (up_to s.now < length s.now)
        × (parts.0.now ≡ take (up_to s.now) s.now) × (parts.1.now ≡ drop (suc (up_to s.now)) s.now)) }
{
    let end = line_feed(s)?;
    Some((&s[..end], &s[end + 1..]))
}

// The lines of a text. What no line feed ends is none of them.
#[derive(Drop)]
pub struct Lines<'a>(pub &'a [u8]);

impl<'a> Iterator for Lines<'a> {
    type Item = &'a [u8];

    ghost next_gives = { YieldsFirstRef (λ left. lines_in left.0.now) };

    ghost remaining = { item_count (λ left. lines_in left.0.now) };

    fn next(&mut self) -> Option<&'a [u8]> {
        let (line, rest) = split_line(self.0)?;
        self.0 = rest;
        Some(line)
    }
}
