// An image, cut into its sections, whose tables can be read.
ghost use Rattle.std.specs.Prelude.{◌≡◌, ◌<◌, ◌==◌, true, false, length, IfOk};
ghost use Rattle.std.specs.Option.{MatchOption};
ghost use Rattle.program.specs.Image.{tables_of, tables_ok, image_of, image_ok, sizes_fit, image_tests, failing, refused_with, IsTable, start_of, counts};
ghost use Rattle.program.specs.Words.{cut, image_in, Cuts, Ordered};

use crate::loader::{below, ends_in_halt, fits, rising, tables_fit, words_ok};
use crate::{HEADER, LONGEST_IMAGE, MAX_CODE, MAX_GLOBALS};
use anomaly::Refusal;
use op::Counts;
use std::marker::Model;

// Tables of one kind: the first key of each, where the entries of each end, and all entries in a row.
#[derive(Drop)]
pub struct Tables<'a> {
    firsts: &'a [u64],
    ends: &'a [u64],
    entries: &'a [u64],
}

impl<'a> Model for Tables<'a> {
    ghost use Rattle.std.specs.Prelude.{◌≡◌, true};
    ghost use Rattle.program.specs.Image.{Tables, tables_of, tables_ok};

    ghost Value = { Tables };

    ghost view = { λ t. tables_of t.firsts.now t.ends.now t.entries.now };

    ghost invariant = { λ t. tables_ok (tables_of t.firsts.now t.ends.now t.entries.now) ≡ true };
}

impl<'a> Tables<'a> {
    // Tables of these, unless 10 refuses them: their ends are read once there are not too many.
    pub fn new(firsts: &'a [u64], ends: &'a [u64], entries: &'a [u64]) -> Option<Tables<'a>>
        ensures { MatchOption result (tables_ok (tables_of firsts.now ends.now entries.now) ≡ false) (λ t.
            (tables_ok t ≡ true) × (t ≡ tables_of firsts.now ends.now entries.now)) }
    {
        if !tables_fit(firsts.len(), ends.len(), entries.len()) {
            return None;
        }
        if !rising(0, ends, entries.len()) {
            return None;
        }
        Some(Tables {
            firsts,
            ends,
            entries,
        })
    }

    // Those of all tables in a row.
    fn entries(&self) -> &'a [u64]
        ensures { result.now ≡ self.now.entries }
    {
        self.entries
    }

    // The first key of a table, and its entries. The ends that are checked go up to the number of entries.
    pub fn get(&self, table: usize) -> Option<(u64, &'a [u64])>
        ensures { IsTable self.now table result }
    {
        if self.firsts.len() <= table {
            return None;
        }
        let start = starts_at(self.ends, table) as usize;
        let end = self.ends[table] as usize;
        Some((self.firsts[table], &self.entries[start..end]))
    }
}

// Where the entries of a table start.
fn starts_at(ends: &[u64], table: usize) -> u64
    requires { table < length ends.now }
    ensures { result ≡ start_of ends.now table }
{
    if table == 0 { 0 } else { ends[table - 1] }
}

// The sections of an image's words, whose ends go up; nothing else is known of them.
#[derive(Drop)]
struct Sections<'a> {
    code: &'a [u64],
    globals: &'a [u64],
    switch_firsts: &'a [u64],
    switch_ends: &'a [u64],
    switch_entries: &'a [u64],
    lookup_firsts: &'a [u64],
    lookup_ends: &'a [u64],
    lookup_entries: &'a [u64],
    defaults: &'a [u64],
}

impl<'a> Model for Sections<'a> {
    ghost use Rattle.program.specs.Image.{Image, tables_of, image_of};

    ghost Value = { Image };

    ghost view = { λ s.
        image_of s.code.now s.globals.now (tables_of s.switch_firsts.now s.switch_ends.now s.switch_entries.now)
        (tables_of s.lookup_firsts.now s.lookup_ends.now s.lookup_entries.now) s.defaults.now };
}

impl<'a> Sections<'a> {
    // Of words that are not too many, and whose sections fit into them. Where there are too many nothing is read.
    fn cut(words: &'a [u64]) -> Option<Sections<'a>>
        ensures { Cuts words.now result }
    {
        if LONGEST_IMAGE < words.len() {
            return None;
        }
        if !fits(words) {
            return None;
        }
        Some(Sections::of(words))
    }

    fn of(words: &'a [u64]) -> Sections<'a>
        requires { Ordered words.now }
        ensures { result ≡ cut words.now }
    {
        let globals = words[0] as usize;
        let switch_firsts = words[1] as usize;
        let switch_ends = words[2] as usize;
        let switch_entries = words[3] as usize;
        let lookup_firsts = words[4] as usize;
        let lookup_ends = words[5] as usize;
        let lookup_entries = words[6] as usize;
        let defaults = words[7] as usize;
        let end = words[8] as usize;
        Sections {
            code: &words[HEADER..globals],
            globals: &words[globals..switch_firsts],
            switch_firsts: &words[switch_firsts..switch_ends],
            switch_ends: &words[switch_ends..switch_entries],
            switch_entries: &words[switch_entries..lookup_firsts],
            lookup_firsts: &words[lookup_firsts..lookup_ends],
            lookup_ends: &words[lookup_ends..lookup_entries],
            lookup_entries: &words[lookup_entries..defaults],
            defaults: &words[defaults..end],
        }
    }

    // Whether every section is as long as it may be. No word of one is read for it.
    fn sizes_ok(&self) -> bool
        ensures { result ≡ sizes_fit self.now }
    {
        let switches = tables_fit(
            self.switch_firsts.len(),
            self.switch_ends.len(),
            self.switch_entries.len(),
        );
        let lookups = tables_fit(
            self.lookup_firsts.len(),
            self.lookup_ends.len(),
            self.lookup_entries.len(),
        );
        (self.code.len() <= MAX_CODE)
            & ((self.globals.len() <= MAX_GLOBALS)
                & (switches & (lookups & (self.defaults.len() == self.lookup_firsts.len()))))
    }
}

// An image whose tables are in order, each `Lookup` table with its default. `load` makes it of words that pass every test.
#[derive(Drop)]
pub struct Image<'a> {
    code: &'a [u64],
    globals: &'a [u64],
    switches: Tables<'a>,
    lookups: Tables<'a>,
    // of each `Lookup` table what it has where there is no entry
    defaults: &'a [u64],
}

impl<'a> Model for Image<'a> {
    ghost use Rattle.std.specs.Prelude.{◌≡◌, length};
    ghost use Rattle.program.specs.Image.{Image, image_of};

    ghost Value = { Image };

    ghost view = { λ i. image_of i.code.now i.globals.now i.switches i.lookups i.defaults.now };

    ghost invariant = { λ i. length i.defaults.now ≡ length i.lookups.firsts };
}

impl<'a> Image<'a> {
    // An image of these, unless defaults are missing or are too many.
    pub fn new(
        code: &'a [u64],
        globals: &'a [u64],
        switches: Tables<'a>,
        lookups: Tables<'a>,
        defaults: &'a [u64],
    ) -> Option<Image<'a>>
        ensures { MatchOption result ((length defaults.now == length lookups.entry.firsts) ≡ false) (λ im.
            ((length defaults.now == length lookups.entry.firsts) ≡ true)
            × (im ≡ image_of code.now globals.now switches.entry lookups.entry defaults.now)) }
    {
        if defaults.len() != lookups.firsts.len() {
            return None;
        }
        Some(Image {
            code,
            globals,
            switches,
            lookups,
            defaults,
        })
    }

    // The image that is cut out of words, unless 10 refuses it: first for the length of any section, so that no end of a table is read of
    // words that may not be there.
    fn cut(words: &'a [u64]) -> Option<Image<'a>>
        ensures { MatchOption result (image_ok (image_in words.now) ≡ false) (λ im.
            (image_ok im ≡ true) × (im ≡ image_in words.now)) }
    {
        let sections = Sections::cut(words)?;
        if !sections.sizes_ok() {
            return None;
        }
        let switches = Tables::new(
            sections.switch_firsts,
            sections.switch_ends,
            sections.switch_entries,
        )?;
        let lookups = Tables::new(
            sections.lookup_firsts,
            sections.lookup_ends,
            sections.lookup_entries,
        )?;
        Image::new(
            sections.code,
            sections.globals,
            switches,
            lookups,
            sections.defaults,
        )
    }

    #[tactic(auto, unfolding(crate::specs::Image::counts))]
    fn counts(&self) -> Counts
        ensures { result ≡ counts self.now }
    {
        Counts {
            code: self.code.len(),
            globals: self.globals.len(),
            switches: self.switches.firsts.len(),
            lookups: self.lookups.firsts.len(),
        }
    }

    // The image of words; or the number by which they are refused: 10, 11, 16, then word by word 12 to 15.
    pub fn load(words: &'a [u64]) -> Result<Image<'a>, Refusal>
        ensures image { IfOk result (λ im. im ≡ image_in words.now) }
        ensures refused { refused_with result ≡ failing (image_tests true (image_in words.now)) }
    {
        let Some(image) = Image::cut(words) else {
            return Err(Refusal::Size);
        };
        let code = image.code();
        if !ends_in_halt(code) {
            return Err(Refusal::NoHalt);
        }
        if !below(code.len(), image.switches().entries()) {
            return Err(Refusal::TableTarget);
        }
        words_ok(code, image.counts())?;
        Ok(image)
    }

    pub fn code(&self) -> &'a [u64]
        ensures { result.now ≡ self.now.code }
    {
        self.code
    }

    pub fn globals(&self) -> &'a [u64]
        ensures { result.now ≡ self.now.globals }
    {
        self.globals
    }

    pub fn switches(&self) -> &Tables<'a>
        ensures { result.now ≡ self.now.switches }
    {
        &self.switches
    }

    pub fn lookups(&self) -> &Tables<'a>
        ensures { result.now ≡ self.now.lookups }
    {
        &self.lookups
    }

    pub fn defaults(&self) -> &'a [u64]
        ensures defaults { result.now ≡ self.now.defaults }
        ensures each { length result.now ≡ length self.now.lookups.firsts }
    {
        self.defaults
    }
}
