// The machine's calls for C and Rust: include/girzhanok.h says what each one takes and writes. A call on too few words is refused with 10.
// Each takes the words of the state, does the call and answers by it, in lines of its own: of a step between that were taken as a
// closure it would not be known what it leaves in the buffers.
#![tactic(auto)]

ghost use Rattle.std.specs.Prelude.{◌≡◌, [], ◌∷◌};
ghost use Rattle.program.specs.Words.{image_in};
ghost use Rattle.vm.specs.Machine.{Lent, lend_frames, lend_heap, lend_run, lend_names, run, setting, reset, put_pc, put_reg, host, allocate, option, intern, intern_small};
ghost use Rattle.vm.specs.Told.{lent_of};
ghost use Rattle.std.specs.Bool.{then_some};
ghost use Rattle.girzhanok.specs.Served.{served_of, serve, serve_start};

use anomaly::{Refusal, Steps};
use answers::words::{unpack, unpack_names};
use answers::{answer_front, answer_run, answer_value_front};
use names::to_name::Small;
use vm::start;

// The words of a state.
pub const STATE_WORDS: usize = 40;

#[unsafe(no_mangle)]
pub extern "C" fn girzhanok_start(
    state: &mut [u64],
    base: u64,
    image: &[u64],
    frames: &mut [u64],
    heap: &mut [u8],
    slots: &[u64],
    spare: &[u64],
) -> u64
    ensures { served_of result state.new []
        (lent_of frames.new heap.new slots.now spare.now)
        ≡ serve_start (image_in image.now) base state.old (lent_of frames.old heap.old slots.now spare.now) }
{
    let Some(words) = state.first_chunk_mut::<STATE_WORDS>() else {
        return Refusal::SIZE;
    };
    match start::start(base, image, frames, heap, slots, spare) {
        Ok(machine) => answer_front(Ok(()), machine, words),
        Err(why) => why.number(),
    }
}

#[unsafe(no_mangle)]
pub extern "C" fn girzhanok_run(
    state: &mut [u64],
    budget: Steps,
    pc: &mut usize,
    steps: &mut Steps,
    image: &[u64],
    frames: &mut [u64],
    heap: &mut [u8],
) -> u64
    ensures { (l : Lent)
        → served_of result state.new (pc.new ∷ steps.new ∷ [])
        (lend_run frames.new heap.new l)
        ≡ serve (run (image_in image.now) budget) state.old (pc.old ∷ steps.old ∷ [])
        (lend_run frames.old heap.old l) }
{
    let Some(words) = state.first_chunk_mut::<STATE_WORDS>() else {
        return Refusal::SIZE;
    };
    let mut machine = unpack(words);
    let called = run::run(&mut machine, budget, image, frames, heap);
    answer_run(called, machine, words, pc, steps)
}

#[unsafe(no_mangle)]
pub extern "C" fn girzhanok_reset(state: &mut [u64], frames: &mut [u64]) -> u64
    ensures { (l : Lent)
        → served_of result state.new [] (lend_frames frames.new l)
        ≡ serve (setting reset) state.old [] (lend_frames frames.old l) }
{
    let Some(words) = state.first_chunk_mut::<STATE_WORDS>() else {
        return Refusal::SIZE;
    };
    let mut machine = unpack(words);
    let called = machine.reset(frames);
    answer_front(called, machine, words)
}

#[unsafe(no_mangle)]
pub extern "C" fn girzhanok_set_pc(state: &mut [u64], pc: usize) -> u64
    ensures { (l : Lent) → served_of result state.new [] l ≡ serve (setting (put_pc pc)) state.old [] l }
{
    let Some(words) = state.first_chunk_mut::<STATE_WORDS>() else {
        return Refusal::SIZE;
    };
    let mut machine = unpack(words);
    machine.set_pc(pc);
    answer_front(Ok(()), machine, words)
}

#[unsafe(no_mangle)]
pub extern "C" fn girzhanok_set_register(state: &mut [u64], number: usize, value: u64) -> u64
    ensures { (l : Lent) → served_of result state.new [] l ≡ serve (setting (put_reg number value)) state.old [] l }
{
    let Some(words) = state.first_chunk_mut::<STATE_WORDS>() else {
        return Refusal::SIZE;
    };
    let mut machine = unpack(words);
    let called = machine.set_register(number, value);
    answer_front(called, machine, words)
}

// `kind` is a number: C can give any, and one that is no kind is refused by 13.
#[unsafe(no_mangle)]
pub extern "C" fn girzhanok_allocate(
    state: &mut [u64],
    kind: u64,
    align: usize,
    size: u64,
    heap: &mut [u8],
    value: &mut u64,
) -> u64
    ensures { (l : Lent)
        → served_of result state.new (value.new ∷ []) (lend_heap heap.new l)
        ≡ serve (host (allocate kind align size)) state.old (value.old ∷ [])
        (lend_heap heap.old l) }
{
    let Some(words) = state.first_chunk_mut::<STATE_WORDS>() else {
        return Refusal::SIZE;
    };
    let mut machine = unpack(words);
    let called = machine.allocate(kind, align, size, heap);
    answer_value_front(called, machine, words, value)
}

// An option of `payload`, or of none. C has no Option: `some` says which.
#[unsafe(no_mangle)]
pub extern "C" fn girzhanok_option(
    state: &mut [u64],
    some: bool,
    payload: u64,
    heap: &mut [u8],
    value: &mut u64,
) -> u64
    ensures { (l : Lent)
        → served_of result state.new (value.new ∷ []) (lend_heap heap.new l)
        ≡ serve (host (option (then_some some payload))) state.old (value.old ∷ [])
        (lend_heap heap.old l) }
{
    let Some(words) = state.first_chunk_mut::<STATE_WORDS>() else {
        return Refusal::SIZE;
    };
    let mut machine = unpack(words);
    let called = machine.new_option(some.then_some(payload), heap);
    answer_value_front(called, machine, words, value)
}

// The two internings: C has no generic one, and calls each by its name.
#[unsafe(no_mangle)]
pub extern "C" fn girzhanok_intern(
    state: &mut [u64],
    name: &[u8],
    heap: &mut [u8],
    slots: &mut [u64],
    spare: &mut [u64],
    value: &mut u64,
) -> u64
    ensures { (l : Lent)
        → served_of result state.new (value.new ∷ [])
        (lend_names heap.new slots.new spare.new l)
        ≡ serve (host (intern name.now)) state.old (value.old ∷ [])
        (lend_names heap.old slots.old spare.old l) }
{
    let Some(words) = state.first_chunk_mut::<STATE_WORDS>() else {
        return Refusal::SIZE;
    };
    let mut names = unpack_names(words);
    let called = names.intern(name, heap, slots, spare);
    answer_value_front(called, names, words, value)
}

#[unsafe(no_mangle)]
pub extern "C" fn girzhanok_intern_small(
    state: &mut [u64],
    len: usize,
    word: u64,
    heap: &mut [u8],
    slots: &mut [u64],
    spare: &mut [u64],
    value: &mut u64,
) -> u64
    ensures { (l : Lent)
        → served_of result state.new (value.new ∷ [])
        (lend_names heap.new slots.new spare.new l)
        ≡ serve (host (intern_small len word)) state.old (value.old ∷ [])
        (lend_names heap.old slots.old spare.old l) }
{
    let Some(words) = state.first_chunk_mut::<STATE_WORDS>() else {
        return Refusal::SIZE;
    };
    let mut names = unpack_names(words);
    let called = names.intern(Small { len, word }, heap, slots, spare);
    answer_value_front(called, names, words, value)
}
