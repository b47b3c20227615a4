// The words of a state alone, as an array of 40, by the places that document 01 gives them.
use super::*;
use words::unpack_names;

// What a caller's own type packs: nothing.
#[derive(Clone, Copy)]
struct Unchanged;

impl Pack for Unchanged {
    ghost leaves = { λ unchanged before. before };

    #[tactic(auto, using(crate::proofs::Packing::pack_unpack))]
    fn pack(self, words: &mut Words) {}
}

const NUMBERED: Words = [
    100, 101, 102, 103, 104, 105, 106, 107, 108, 109, 110, 111, 112, 113, 114, 115, 116, 117, 118,
    119, 120, 121, 122, 123, 124, 125, 126, 127, 128, 129, 130, 131, 132, 133, 134, 135, 136, 137,
    138, 139,
];

const BEFORE: Words = [1; 40];

fn expect(holds: bool, what: &'static str) -> Result<(), &'static str> {
    if holds { Ok(()) } else { Err(what) }
}

#[test]
fn answers_over_forty_words() -> Result<(), &'static str> {
    let state = unpack(&NUMBERED);
    expect(state.pc == 132 && state.depth == 133, "a state's words")?;
    let mut words = BEFORE;
    let refused = answer(Err(Refusal::Size), state, &mut words);
    expect(refused == 10 && words == BEFORE, "refused")?;
    let nothing = answer(Ok(()), Unchanged, &mut words);
    expect(nothing == 0 && words == BEFORE, "nothing packed")?;
    let done = answer(Ok(()), state, &mut words);
    expect(done == 0 && words == NUMBERED, "a state packed")
}

#[test]
fn values_over_forty_words() -> Result<(), &'static str> {
    let names = unpack_names(&NUMBERED);
    let mut words = BEFORE;
    let mut value = 7;
    let refused = answer_value(Err(Refusal::Size), names, &mut words, &mut value);
    expect(refused == 10 && words == BEFORE && value == 7, "refused")?;
    let given = answer_value(Ok(9), names, &mut words, &mut value);
    expect(given == 0 && value == 9, "a value")?;
    // registers, pc and depth stay; the heap's base is word 34, the count of names word 39
    let stay = words[31] == 1 && words[32] == 1 && words[33] == 1;
    expect(stay && words[34] == 134 && words[39] == 139, "names packed")
}
