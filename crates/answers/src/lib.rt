// What a call returns and writes: its number, the words of the state, and what is answered beside the number.
#![tactic(auto)]

ghost use Rattle.std.specs.Prelude.{◌≡◌, ◌≤◌, length, [], ◌∷◌};
ghost use Rattle.vm.specs.Machine.{value, done};
ghost use Rattle.vm.specs.Told.{answer_by, answer_of};
ghost use Rattle.answers.specs.Words.{state_words, unpacked};
ghost use Rattle.answers.specs.Answered.{number_of, answered, kept};

pub mod words;

use anomaly::{End, Refusal, Steps};
use vm::State;
use words::{Pack, PackFront, Words, unpack};

// The number of what a call answers. What it left is written into the words of the state unless it was refused.
pub fn answer_front<P: PackFront>(called: Result<(), Refusal>, left: P, words: &mut [u64]) -> u64
    requires { state_words ≤ length words.old }
    ensures number { result ≡ number_of (answer_by (λ _. done) called) }
    ensures kept { words.new ≡ kept (answer_by (λ _. done) called) (P.leaves left (unpacked words.old)) words.old }
{
    match called {
        Ok(()) => {
            left.pack_front(words);
            // 0, of what is done as of a Halt
            End::HALT
        }
        Err(why) => why.number(),
    }
}

// `answer_front`, and the value where there is one.
pub fn answer_value_front<P: PackFront>(
    called: Result<u64, Refusal>,
    left: P,
    words: &mut [u64],
    to: &mut u64,
) -> u64
    requires { state_words ≤ length words.old }
    ensures number { result ≡ number_of (answer_by value called) }
    ensures kept { words.new ≡ kept (answer_by value called) (P.leaves left (unpacked words.old)) words.old }
    ensures answered { to.new ∷ [] ≡ answered (answer_by value called) (to.old ∷ []) }
{
    // not by `map`, in the call: what a closure leaves in what it changes is not known after it
    if let Ok(v) = called {
        *to = v;
    }
    answer_front(called.map(|_| ()), left, words)
}

// The same of a run: pc and steps of how it ended, and the number of that.
pub fn answer_run(
    called: Result<End, Refusal>,
    state: State,
    words: &mut [u64],
    pc: &mut usize,
    steps: &mut Steps,
) -> u64
    requires { state_words ≤ length words.old }
    ensures number { result ≡ number_of (answer_by answer_of called) }
    ensures kept { words.new ≡ kept (answer_by answer_of called) state words.old }
    ensures answered { pc.new ∷ steps.new ∷ [] ≡ answered (answer_by answer_of called) (pc.old ∷ steps.old ∷ []) }
{
    match called {
        Ok(end) => {
            state.pack_front(words);
            *pc = end.pc();
            *steps = end.steps();
            end.number()
        }
        Err(why) => why.number(),
    }
}

// `answer_front` over the words alone, of the state that they hold once `left` is packed into them.
#[tactic(auto, using(crate::proofs::Packing::pack_unpack))]
pub fn answer<P: Pack>(called: Result<(), Refusal>, left: P, words: &mut Words) -> u64
    ensures number { result ≡ number_of (answer_by (λ _. done) called) }
    ensures kept { words.new ≡ kept (answer_by (λ _. done) called) (P.leaves left (unpacked words.old)) words.old }
{
    if called.is_ok() {
        left.pack(words);
    }
    answer_front(called, unpack(words), words)
}

// `answer_value_front` over the words alone, likewise.
#[tactic(auto, using(crate::proofs::Packing::pack_unpack))]
pub fn answer_value<P: Pack>(
    called: Result<u64, Refusal>,
    left: P,
    words: &mut Words,
    to: &mut u64,
) -> u64
    ensures number { result ≡ number_of (answer_by value called) }
    ensures kept { words.new ≡ kept (answer_by value called) (P.leaves left (unpacked words.old)) words.old }
    ensures answered { to.new ∷ [] ≡ answered (answer_by value called) (to.old ∷ []) }
{
    if called.is_ok() {
        left.pack(words);
    }
    answer_value_front(called, unpack(words), words, to)
}

#[cfg(test)]
mod tests;
