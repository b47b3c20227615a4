// The image runner: from the text of an image to the text of its report, within the runner's limits.
#![tactic(auto)]

ghost use Rattle.std.specs.Prelude.{◌≡◌, length};
ghost use Rattle.report.specs.Report.{written_of};
ghost use Rattle.text.specs.Sections.{section_in};
ghost use Rattle.image_runner.specs.Runner.{sections_fit, room_for, answer_of};

use anomaly::Refusal;
use gc::PAGE_SIZE;
use image_words::join;
use program::{HEADER, MAX_ENTRIES, MAX_GLOBALS, MAX_TABLES};
use rating::rate;
use report::{Text, refusal_text};
use text::sections::Section;
use text::{Head, sections};

// The runner's own limits of pages, words and frames, and the machine's of slots; those of globals, tables and entries are `program`'s.
const MAX_PAGES: u64 = 8;

const MAX_WORDS: usize = 4096;

const MAX_FRAMES: usize = 4096;

const MAX_SLOTS: usize = 4096;

// The words of an image whose every section is as long as it may be.
const MAX_IMAGE: usize = HEADER + MAX_WORDS + MAX_GLOBALS + 2 * MAX_ENTRIES + 5 * MAX_TABLES;

const MAX_HEAP: usize = MAX_PAGES as usize * PAGE_SIZE;

// The longest name: a byte for two digits of the longest text.
const MAX_NAME: usize = text::MAX_LEN / 2;

// The sections that an image's lines fill, each with the most numbers that it may have.
const LIMITS: [(Section, usize); 6] = [
    (Section::Code, MAX_WORDS),
    (Section::Globals, MAX_GLOBALS),
    (Section::SwitchFirsts, MAX_TABLES),
    (Section::SwitchEntries, MAX_ENTRIES),
    (Section::LookupFirsts, MAX_TABLES),
    (Section::LookupEntries, MAX_ENTRIES),
];

// How many numbers a section has.
fn count(input: &[u8], section: Section) -> usize
    ensures { result ≡ length (section_in section input.now) }
{
    sections::gather(input, section, &mut [])
}

// Whether no section has more numbers than it may.
#[tactic(auto, unfolding(crate::specs::Runner::sections_fit))]
fn sections_fit(input: &[u8]) -> bool
    ensures { result ≡ sections_fit input.now }
{
    LIMITS
        .iter()
        .all(|&(section, limit)| count(input, section) <= limit)
}

// Whether the runner has room for an image; if not, the answer is 10.
#[tactic(auto, using(std::proofs::lemmas::Bool::Decides::nat_tests), unfolding(crate::specs::Runner::room_for))]
fn room_for(input: &[u8], head: Head) -> bool
    ensures { result ≡ room_for head input.now }
{
    head.pages <= MAX_PAGES
        && head.frames <= MAX_FRAMES as u64
        && head.slots <= MAX_SLOTS as u64
        && sections_fit(input)
}

// An image read, joined in a buffer of the runner's limits, and rated.
fn image_text(input: &[u8]) -> Result<Text, Refusal>
    ensures { written_of result ≡ answer_of input.now }
{
    let head = text::read(input)?;
    if !room_for(input, head) {
        return Err(Refusal::Size);
    }
    let frame_count = head.frames as usize;
    let heap_size = head.pages as usize * PAGE_SIZE;
    let slot_count = head.slots as usize;
    let mut words = [0u64; MAX_IMAGE];
    let mut frames = [0u64; MAX_FRAMES];
    let mut heap = [0u8; MAX_HEAP];
    let mut slots = [0u64; MAX_SLOTS];
    let mut spare = [0u64; MAX_SLOTS];
    let mut name = [0u8; MAX_NAME];
    let total = join(input, &mut words);
    // lent one by one: of a struct of `&mut` fields, the second call that is lent them gets no proof
    rate(
        input,
        head,
        &mut words[..total],
        &mut frames[..frame_count],
        &mut heap[..heap_size],
        &mut slots[..slot_count],
        &mut spare[..slot_count],
        &mut name,
    )
}

// The runner's output for an input: its report, or the number of what it is refused by.
pub fn answer(input: &[u8]) -> Text
    ensures { result.bytes ≡ answer_of input.now }
{
    image_text(input).unwrap_or_else(refusal_text)
}
