// The records of a list of vectors.
ghost use Rattle.std.specs.Prelude.{◌≡◌, ◌+◌, ◌<◌, ◌≤◌, length, IfSome};
ghost use Rattle.text.specs.Digits.{field};
ghost use Rattle.vectors.specs.Recorded.{IsCase, IsFirst};

use text::{all_digits, number, split_line};

// Where a case's line has the two lengths and the name, and how many digits the lengths have.
const IMAGE_AT: usize = 9;

const IMAGE_DIGITS: usize = 5;

const ANSWER_AT: usize = 15;

const ANSWER_DIGITS: usize = 3;

const NAME_AT: usize = 19;

// Where an answer comes from.
#[derive(Clone, Copy)]
pub enum Source {
    Rust,
    Paper,
}

#[derive(Clone, Copy)]
pub struct Case<'a> {
    pub source: Source,
    pub name: &'a [u8],
    pub image: &'a [u8],
    pub answer: &'a [u8],
}

#[derive(Clone, Copy)]
pub enum Record<'a> {
    Subject(&'a [u8]),
    Case(Case<'a>),
}

// The length of so many hexadecimal digits that stands at a place of a line.
fn read_len(line: &[u8], at: usize, width: usize) -> Option<usize>
    requires few { width ≤ 16 }
    requires room { at + width ≤ length line.now }
    ensures { IfSome result (λ len. len ≡ field at width line.now) }
{
    all_digits(&line[at..at + width]).then(|| number(line, at, width) as usize)
}

// A case: its line, and what lies behind it.
fn read_case<'a>(line: &'a [u8], behind: &'a [u8]) -> Option<(Case<'a>, &'a [u8])>
    ensures case { IfSome result (λ parts. IsCase line.now behind.now parts.0 parts.1.now) }
    ensures fewer { IfSome result (λ parts. length parts.1.now ≤ length behind.now) }
{
    if line.len() < NAME_AT {
        return None;
    }
    let image_len = read_len(line, IMAGE_AT, IMAGE_DIGITS)?;
    let answer_len = read_len(line, ANSWER_AT, ANSWER_DIGITS)?;
    let (image, behind) = behind.split_at_checked(image_len)?;
    let (answer, rest) = behind.split_at_checked(answer_len)?;
    let source = if line[3] == b'r' {
        Source::Rust
    } else {
        Source::Paper
    };
    let name = &line[NAME_AT..];
    Some((
        Case {
            source,
            name,
            image,
            answer,
        },
        rest,
    ))
}

// The first record and what lies behind it, unless it is malformed.
pub fn first(all: &[u8]) -> Option<(Record<'_>, &[u8])>
    ensures first { IfSome result (λ parts. IsFirst all.now parts.0 parts.1.now) }
    ensures fewer { IfSome result (λ parts. length parts.1.now < length all.now) }
{
    let (line, behind) = split_line(all)?;
    if line.starts_with(b"-- ") {
        let (case, rest) = read_case(line, behind)?;
        return Some((Record::Case(case), rest));
    }
    let name = line.strip_prefix(b"== ")?;
    if name.is_empty() {
        return None;
    }
    Some((Record::Subject(name), behind))
}
