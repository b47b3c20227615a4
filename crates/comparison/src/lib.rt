// A stored answer, compared with the image runner's.
#![tactic(auto)]

ghost use Rattle.std.specs.Prelude.{◌≡◌};
ghost use Rattle.memory.specs.Lists.{same};
ghost use Rattle.image_runner.specs.Runner.{answer_of};

use image_runner::answer;

// Whether the runner's output for an image is the stored one.
#[tactic(auto, using(crate::proofs::Comparing::same_from_bytes_eq))]
pub fn agrees(input: &[u8], stored: &[u8]) -> bool
    ensures { result ≡ same (answer_of input.now) stored.now }
{
    answer(input).as_bytes() == stored
}
