// The image runner: an image on standard input, its report on standard output.
#![tactic(auto)]

use arrayvec::ArrayVec;
use std::io;
use std::io::Read;

// One byte more than the longest image: nothing behind it changes the answer.
const ENOUGH: usize = text::MAX_LEN + 1;

fn main(rt: HostRuntime) -> io::Result<()> {
    let mut input = ArrayVec::<u8, ENOUGH>::new();
    // half an image is no image: a read that fails leaves nothing to answer
    if io::copy(&mut rt.reader().take(ENOUGH as u64), &mut input).is_err() {
        return Ok(());
    }
    rt.print(image_runner::answer(&input))
}
