// What an instruction reads of an image: a global, or the entry of a table.
ghost use Rattle.std.specs.Prelude.{◌≡◌, length, slice_index, slice_index_or};
ghost use Rattle.program.specs.Image.{entries_of};
ghost use Rattle.effects.specs.Effect.{within, slot, switched};

use crate::Effect;
use op::{Keys, Reg};
use program::Tables;
use string::ALIGN;

// The end of a read outside the globals or the tables. No run that is not refused comes to it.
const UNLISTED: u64 = 255;

const OUTSIDE: Effect = Effect::Unlisted { number: UNLISTED };

#[tactic(auto, unfolding(crate::specs::Effect::within))]
pub fn load_global(dst: Reg, idx: usize, globals: &[u64]) -> Effect
    ensures { result ≡ within idx (length globals.now) (Effect.Set dst (slice_index globals.now idx)) }
{
    match globals.get(idx) {
        Some(&value) => Effect::Set { dst, value },
        None => OUTSIDE,
    }
}

// 'Subject first−1 falls through': the difference wraps. Keys of Str lie 4 apart.
#[tactic(auto, using(crate::proofs::Asks::difference), unfolding(crate::specs::Effect::slot))]
fn slot(keys: Keys, subject: u64, first: u64) -> u64
    ensures { result ≡ slot keys subject first }
{
    let offset = subject.wrapping_sub(first);
    match keys {
        Keys::Str => offset / ALIGN,
        Keys::Int => offset,
    }
}

#[tactic(auto, unfolding(crate::specs::Effect::within, crate::specs::Effect::switched))]
pub fn switch(keys: Keys, subject: u64, table: usize, switches: &Tables) -> Effect
    ensures { result
        ≡ within table (length switches.now.firsts) (switched (entries_of switches.now table)
        (slot keys subject (slice_index switches.now.firsts table))) }
{
    let Some((first, targets)) = switches.get(table) else {
        return OUTSIDE;
    };
    match targets.get(slot(keys, subject, first) as usize) {
        Some(&target) => Effect::Goto {
            target: target as usize,
        },
        None => Effect::Skip,
    }
}

#[tactic(auto, unfolding(crate::specs::Effect::within))]
pub fn lookup(
    keys: Keys,
    dst: Reg,
    subject: u64,
    table: usize,
    lookups: &Tables,
    defaults: &[u64],
) -> Effect
    requires { length defaults.now ≡ length lookups.now.firsts }
    ensures { result
        ≡ within table (length lookups.now.firsts) (Effect.Set dst (slice_index_or (entries_of lookups.now table)
        (slot keys subject (slice_index lookups.now.firsts table)) (slice_index defaults.now table))) }
{
    let Some((first, values)) = lookups.get(table) else {
        return OUTSIDE;
    };
    let value = match values.get(slot(keys, subject, first) as usize) {
        Some(&value) => value,
        None => defaults[table],
    };
    Effect::Set { dst, value }
}
