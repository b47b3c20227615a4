// The names of an image, in line order.
ghost use Rattle.std.specs.Prelude.{◌≡◌, ◌+◌, ◌<◌, ◌^◌, length};
ghost use Rattle.std.specs.Iterator.{YieldsFirstBy, item_count};
ghost use Rattle.memory.specs.Lists.{over};
ghost use Rattle.text.specs.Lines.{lines_in, kind_of, payload_of};
ghost use Rattle.text.specs.Sections.{adds};
ghost use Rattle.text.specs.declared.sections.Section.TheVariants.{Globals};

use crate::buffer::put_at;
use crate::digits::number;
use crate::lines::{Kind, Lines, has_kind, kind_of, payload_of};

// A name: the index of its global, and two digits for each of its bytes.
#[derive(Clone, Copy)]
pub struct Named<'a> {
    pub global: usize,
    pub digits: &'a [u8],
}

impl Named<'_> {
    ghost use Rattle.text.specs.Names.{bytes_in};

    // Its bytes, laid over a buffer from its start, as far as it goes; how many there are. The
    // buffer is lent, and no list is answered: the runner's rating allocates nothing.
    pub fn put_bytes(&self, out: &mut [u8]) -> usize
        ensures { (result ≡ length (bytes_in self.now.digits.now))
            × (out.new ≡ over (bytes_in self.now.digits.now) out.old) }
    {
        for (i, pair) in self.digits.chunks_exact(2).enumerate() {
            put_at(out, i, number(pair, 0, 2) as u8);
        }
        self.digits.len() / 2
    }
}

// How many globals a line makes: one, if it says a global or a name.
#[tactic(auto, unfolding(crate::specs::Sections::adds))]
fn globals_on(line: &[u8]) -> usize
    ensures { result ≡ length (adds Globals 0 0 (kind_of line.now) (payload_of line.now)) }
{
    match kind_of(line) {
        Some(Kind::Global | Kind::Name) => 1,
        _ => 0,
    }
}

// The names on the lines of a text, with how many globals stand before them.
#[derive(Drop)]
pub struct Names<'a> {
    lines: Lines<'a>,
    globals: usize,
    ghost few: { globals + length (lines_in lines.0.now) < 2 ^ 64 },
}

impl<'a> Names<'a> {
    ghost use Rattle.text.specs.Names.{names_in};
    ghost use Rattle.text.specs.Left.{names_left};

    pub fn of(s: &'a [u8]) -> Names<'a>
        ensures { names_left result ≡ names_in s.now }
    {
        Names {
            lines: Lines(s),
            globals: 0,
        }
    }
}

impl<'a> Iterator for Names<'a> {
    ghost use Rattle.text.specs.Left.{name_of, names_left};

    type Item = Named<'a>;

    ghost next_gives = { YieldsFirstBy name_of names_left };

    ghost remaining = { item_count names_left };

    fn next(&mut self) -> Option<Named<'a>> {
        // a `for` over `self.lines.by_ref()` was tried: its invariant has no `self` to speak of, and the proof did not close
        while let Some(line) = self.lines.next() {
            let global = self.globals;
            self.globals += globals_on(line);
            if has_kind(line, Kind::Name) {
                return Some(Named {
                    global,
                    digits: payload_of(line),
                });
            }
        }
        None
    }
}
