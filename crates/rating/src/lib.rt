// A rating: an image is started, its names are interned, it is run, and what comes of it is written.
#![tactic(auto)]

ghost use Rattle.std.specs.Prelude.{◌≡◌, true, ◌≤◌, ◌<◌, ◌^◌, length};
ghost use Rattle.text.specs.Text.{text_ok};
ghost use Rattle.vm.specs.Machine.{start};
ghost use Rattle.vm.specs.Told.{lent_of};
ghost use Rattle.report.specs.Report.{written_of};
ghost use Rattle.image_words.specs.Said.{image_said};
ghost use Rattle.image_words.specs.Joined.{joined};
ghost use Rattle.rating.specs.Rated.{lent_for, started_text};

use anomaly::{Refusal, Steps};
use outcome::run_text;
use report::Text;
use text::Head;
use vm::start;

// Starts an image, interns its names, runs it and answers the report, or what refuses it. `words` are its sections joined, the buffers
// as the header asks for, lent one by one: of a struct of them the second call that is lent two beside a third gets no proof.
pub fn rate(
    input: &[u8],
    head: Head,
    words: &mut [u64],
    frames: &mut [u64],
    heap: &mut [u8],
    slots: &mut [u64],
    spare: &mut [u64],
    name: &mut [u8],
) -> Result<Text, Refusal>
    requires image { text_ok input.now ≡ true }
    requires budget { head.budget < 2 ^ 32 }
    requires words { words.old ≡ joined (image_said input.now) }
    requires lent { lent_of frames.old heap.old slots.old spare.old ≡ lent_for head }
    requires name_room { 32768 ≤ length name.old }
    ensures { written_of result ≡ started_text input.now head (start (image_said input.now) head.base (lent_for head)) }
{
    let mut state = start::start(head.base, words, frames, heap, slots, spare)?;
    // an image's words begin with the ends of its parts: the globals lie between the first two
    let first = words[0] as usize;
    let end = words[1] as usize;
    let globals = &mut words[first..end];
    image_names::intern_names(input, &mut state, globals, heap, slots, spare, name)?;
    let end = run::run(&mut state, head.budget as Steps, words, frames, heap)?;
    Ok(run_text(end, &state))
}
