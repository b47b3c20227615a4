// The text of an image: lines of lower-case hexadecimal digits, each a kind of two digits and a
// payload. `read` refuses a text or gives its header; `gather` lays one section over a buffer;
// `Names` goes over the names. These two take any bytes, and are of use for a text that is not refused.
// `Lines` goes over the lines of any bytes, and `split_line` parts them at the first line feed.
#![tactic(auto)]

ghost use Rattle.std.specs.Prelude.{◌≡◌};
ghost use Rattle.text.specs.Text.{head_in, read_of};

mod buffer;
mod digits;
mod lines;
pub mod names;
pub mod sections;

use anomaly::Refusal;
pub use digits::{all_digits, number};
pub use lines::{Lines, split_line};
use lines::{is_header, is_other, payload_of};

// The longest text.
pub const MAX_LEN: usize = 65536;

// The numbers of the header.
#[derive(Clone, Copy)]
pub struct Head {
    pub base: u64,
    pub pages: u64,
    pub frames: u64,
    pub slots: u64,
    pub budget: u64,
}

impl Head {
    // The numbers in a header's payload.
    #[tactic(auto, unfolding(crate::specs::Text::head_in))]
    fn of(p: &[u8]) -> Head
        ensures { result ≡ head_in p.now }
    {
        Head {
            base: number(p, 0, 16),
            pages: number(p, 16, 4),
            frames: number(p, 20, 4),
            slots: number(p, 24, 4),
            budget: number(p, 28, 8),
        }
    }
}

// The header of an image's text, or 19.
pub fn read(s: &[u8]) -> Result<Head, Refusal>
    ensures { result ≡ read_of s.now }
{
    if MAX_LEN < s.len() || !s.ends_with(b"\n") {
        return Err(Refusal::Text);
    }
    let mut lines = Lines(s);
    let first = lines.next().ok_or(Refusal::Text)?;
    if is_header(first) && lines.all(is_other) {
        Ok(Head::of(payload_of(first)))
    } else {
        Err(Refusal::Text)
    }
}
