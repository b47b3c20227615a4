// What the loader tests of an image's sections.
ghost use Rattle.std.specs.Prelude.{◌≡◌};
ghost use Rattle.program.specs.Image.{rising, tables_fit, ends_in_halt, below, word_tests, failing, refused_with};
ghost use Rattle.program.specs.Words.{fits};

use crate::{HEADER, MAX_ENTRIES, MAX_TABLES};
use anomaly::Refusal;
use op::{Counts, Op};

// Whether all are below n.
pub fn below(n: usize, xs: &[u64]) -> bool
    ensures { result ≡ below n xs.now }
{
    xs.iter().all(|&x| x < n as u64)
}

// Whether the ends go up, from a start to the number of entries.
pub(crate) fn rising(start: u64, ends: &[u64], entries: usize) -> bool
    ensures { result ≡ rising start ends.now entries }
{
    let mut from = start;
    for &end in ends {
        if end < from {
            return false;
        }
        from = end;
    }
    from == entries as u64
}

// Of so many firsts, ends and entries of tables of one kind.
pub(crate) fn tables_fit(firsts: usize, ends: usize, entries: usize) -> bool
    ensures { result ≡ tables_fit firsts ends entries }
{
    firsts <= MAX_TABLES && ends == firsts && entries <= MAX_ENTRIES
}

pub(crate) fn ends_in_halt(code: &[u64]) -> bool
    ensures { result ≡ ends_in_halt code.now }
{
    code.is_empty() || code[code.len() - 1] % 256 == Op::HALT
}

// The first word that is refused.
pub(crate) fn words_ok(code: &[u64], n: Counts) -> Result<(), Refusal>
    ensures { refused_with result ≡ failing (word_tests n code.now) }
{
    for &w in code {
        op::check(w, n)?;
    }
    Ok(())
}

// Whether the sections of an image fit into its words.
pub(crate) fn fits(words: &[u64]) -> bool
    ensures { result ≡ fits words.now }
{
    if words.len() < HEADER {
        return false;
    }
    rising(9, &words[..HEADER], words.len())
}
