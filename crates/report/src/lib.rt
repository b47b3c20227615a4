// The text that ends a run: where the machine stands, or the number of a refusal. Every line ends
// with a line feed.
#![tactic(auto)]

ghost use Rattle.std.specs.Prelude.{◌≡◌, ◌+◌, ◌*◌, ◌≤◌, ◌<◌, ◌++◌, length};
ghost use Rattle.arrayvec.specs.ArrayString.{array_string_len};
ghost use Rattle.anomaly.specs.Table.{number_of_refusal};
ghost use Rattle.report.specs.Hex.{digit_of_value, hex_of};
ghost use Rattle.report.specs.Report.{line_feed, end_line, register_line, register_lines, state_line, report_of, longest, refusal_of};

use anomaly::{Refusal, Steps};
use arrayvec::ArrayString;
use gc::PAGE_SIZE;

// How many registers a report has a line for.
pub const REGISTERS: usize = 32;

// The length of the longest report: 27 bytes of the first line, 19 for each register, 21 of the last line.
pub const LONGEST: usize = 27 + 19 * REGISTERS + 21;

// A text with room for the longest report. It lies in the value itself: the runner allocates nothing.
pub type Text = ArrayString<LONGEST>;

// What a report shows beside the registers. `pushed` counts the bytes of pushed pages, `len`
// is the length of the last page, `strings` the count of stored names. `end` is a number: it is printed, and no code tells ends apart by it.
#[derive(Clone, Copy)]
pub struct Summary {
    pub end: u64,
    pub pc: usize,
    pub steps: Steps,
    pub depth: usize,
    pub pushed: usize,
    pub len: usize,
    pub strings: usize,
}

// The digit of a value below 16.
#[tactic(auto, unfolding(crate::specs::Hex::digit_of_value))]
fn digit(v: u64) -> char
    requires { v < 16 }
    ensures value { result ≡ digit_of_value v }
    ensures ascii { result < 128 }
{
    char::from_digit(v as u32, 16).unwrap()
}

// The lowest `count` digits of `v`. Not by a `Display`: no clause of std says that `write!` to a text with room is `Ok`, and `answer` cannot fail.
// Here and below each function asks for room for what it pushes: `push` asks for a place, and one sum for all would say less.
fn put_hex(out: &mut Text, count: usize, v: u64)
    requires digits { count ≤ 16 }
    requires room { array_string_len out.old + count ≤ longest }
    ensures bytes { out.new.bytes ≡ out.old.bytes ++ hex_of count v }
    ensures len { array_string_len out.new ≡ array_string_len out.old + count }
{
    for i in (0..count).rev() {
        out.push(digit((v >> (4 * i)) % 16));
    }
}

// A register's line; nothing for one that is 0.
#[tactic(auto, unfolding(crate::specs::Report::register_line))]
fn put_register(out: &mut Text, number: usize, value: u64)
    requires { array_string_len out.old + 19 ≤ longest }
    ensures bytes { out.new.bytes ≡ out.old.bytes ++ register_line number value }
    ensures len { array_string_len out.new ≤ array_string_len out.old + 19 }
{
    if value != 0 {
        put_hex(out, 2, number as u64);
        put_hex(out, 16, value);
        out.push('\n');
    }
}

fn put_registers(out: &mut Text, regs: &[u64; REGISTERS])
    requires { array_string_len out.old + 19 * 32 ≤ longest }
    ensures bytes { out.new.bytes ≡ out.old.bytes ++ register_lines 0 regs.now }
    ensures len { array_string_len out.new ≤ array_string_len out.old + 19 * 32 }
{
    for (number, &value) in regs.iter().enumerate() {
        put_register(out, number, value);
    }
}

// The end's number, pc and steps.
#[tactic(auto, unfolding(crate::specs::Report::end_line))]
fn put_end(out: &mut Text, s: &Summary)
    requires { array_string_len out.old + 27 ≤ longest }
    ensures bytes { out.new.bytes ≡ out.old.bytes ++ end_line s.now }
    ensures len { array_string_len out.new ≡ array_string_len out.old + 27 }
{
    put_hex(out, 2, s.end);
    put_hex(out, 16, s.pc as u64);
    put_hex(out, 8, u64::from(s.steps));
    out.push('\n');
}

// Depth, pages, the last page's length and the strings.
#[tactic(auto, unfolding(crate::specs::Report::state_line))]
fn put_state(out: &mut Text, s: &Summary)
    requires { array_string_len out.old + 21 ≤ longest }
    ensures { out.new.bytes ≡ out.old.bytes ++ state_line s.now }
{
    let pages = s.pushed / PAGE_SIZE;
    put_hex(out, 4, s.depth as u64);
    put_hex(out, 4, pages as u64);
    put_hex(out, 8, s.len as u64);
    put_hex(out, 4, s.strings as u64);
    out.push('\n');
}

// The report of a run.
#[tactic(auto, unfolding(crate::specs::Report::report_of))]
pub fn report_text(s: &Summary, regs: &[u64; REGISTERS]) -> Text
    ensures { result.bytes ≡ report_of s.now regs.now }
{
    let mut text = Text::new();
    put_end(&mut text, s);
    put_registers(&mut text, regs);
    put_state(&mut text, s);
    text
}

// A number alone, as of a refusal: the lowest two digits of it.
#[tactic(auto, unfolding(crate::specs::Report::refusal_of))]
pub fn number_text(number: u64) -> Text
    ensures { result.bytes ≡ refusal_of number }
{
    let mut text = Text::new();
    put_hex(&mut text, 2, number);
    text.push('\n');
    text
}

// The number of a refusal alone.
pub fn refusal_text(why: Refusal) -> Text
    ensures { result.bytes ≡ refusal_of (number_of_refusal why) }
{
    number_text(why.number())
}
