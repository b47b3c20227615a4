// An image as words: the sections that its text says, one behind the other, and their ends in front.
#![tactic(auto)]

ghost use Rattle.std.specs.Prelude.{◌≡◌, ◌+◌, ◌≤◌, length, take};
ghost use Rattle.memory.specs.Lists.{Written};
ghost use Rattle.text.specs.Sections.{section_in};
ghost use Rattle.image_words.specs.Said.{image_said};
ghost use Rattle.image_words.specs.Joined.{joined};

use program::HEADER;
use text::sections::{Section, gather};

// The sections as they stand in an image's words.
const SECTIONS: [Section; HEADER] = [
    Section::Code,
    Section::Globals,
    Section::SwitchFirsts,
    Section::SwitchEnds,
    Section::SwitchEntries,
    Section::LookupFirsts,
    Section::LookupEnds,
    Section::LookupEntries,
    Section::LookupDefaults,
];

// The numbers of a section from a place on; the place behind them. Written into lent words, as `join` says.
#[tactic(auto, using(crate::proofs::Joins::section_put))]
fn put_section(input: &[u8], section: Section, words: &mut [u64], at: usize) -> usize
    requires { at + length (section_in section input.now) ≤ length words.old }
    ensures { Written words.old at (section_in section input.now) words.new result }
{
    at + gather(input, section, &mut words[at..])
}

// An image's sections behind their ends; the number of its words. The words are lent, and no list is answered: the runner's rating
// allocates nothing, and they go on to the machine.
pub fn join(input: &[u8], words: &mut [u64]) -> usize
    requires { length (joined (image_said input.now)) ≤ length words.old }
    ensures { (result ≡ length (joined (image_said input.now)))
        × (take result words.new ≡ joined (image_said input.now)) }
{
    let mut end = HEADER;
    for (i, &section) in SECTIONS.iter().enumerate() {
        end = put_section(input, section, words, end);
        words[i] = end as u64;
    }
    end
}
