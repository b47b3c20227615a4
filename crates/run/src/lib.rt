// A run: instructions one after another, until one halts or stops it or the budget is completed.
#![tactic(auto)]

ghost use Rattle.std.specs.Prelude.{◌≡◌, ℕ, true, length, IfOk};
ghost use Rattle.std.proofs.Math.Option.{none};
ghost use Rattle.anomaly.specs.Table.{number_of_anomaly, number_of_end, pc_of_end};
ghost use Rattle.effects.specs.Stops.{number_of_stop, IsAnomaly};
ghost use Rattle.vm.specs.declared.State.{State};
ghost use Rattle.program.specs.Image.{image_tests, failing, refused_with};
ghost use Rattle.program.specs.Words.{image_in};
ghost use Rattle.vm.specs.Machine.{Lent, lend_run, keep_pc, run, tests, run_call, perform};
ghost use Rattle.vm.specs.Told.{machine_of, answer_by, answer_of, told};
ghost use Rattle.instruction.specs.Turn.{standing, lend_in, machine_in};
ghost use Rattle.run.specs.Loop.{Going, finished, finished_in, stored_pc};

use anomaly::{Anomaly, End, Refusal, Steps};
use effects::Stop;
use gc::Heap;
use instruction::frames::Frames;
use instruction::{Turn, apply};
use program::Image;
use vm::{State, lent};

// A word that the loader has passed stops a run by nothing but an anomaly.
fn anomaly(why: Stop) -> Anomaly
    requires { IsAnomaly why }
    ensures { number_of_anomaly result ≡ number_of_stop why }
{
    match why {
        Stop::Anomaly(why) => why,
        Stop::Refused(_) => unreachable!(),
    }
}

// The loop, an instruction a turn. It does not test its pc: every turn leaves it inside the code. A function of its own: put into its
// caller it has fewer registers, and takes a seventh more instructions a step.
#[inline(never)]
fn go(
    from: usize,
    budget: Steps,
    regs: &mut [u64; 32],
    image: &Image,
    frames: &mut Frames,
    heap: &mut Heap,
) -> End
    requires passed { failing (image_tests true image.now) ≡ none }
    requires going { (l : Lent)
        → Going (length image.now.code) (standing from frames.old heap.old) (lend_in frames.old heap.old l) }
    ensures same_frames { frames.new.places.ghost_name ≡ frames.old.places.ghost_name }
    ensures same_heap { heap.new.bytes.ghost_name ≡ heap.old.bytes.ghost_name }
    ensures finished { (s : State) (l : Lent)
        → finished_in s regs.new frames.new heap.new l result
        ≡ finished image.now budget 0 (machine_in s from regs.old frames.old heap.old l) }
{
    let code = image.code();
    let mut pc = from;
    for steps in 0..budget {
        let effect = meaning::word_effect(code[pc], regs, image);
        match apply(effect, pc, regs, frames, heap) {
            Turn::Next(to) => {
                pc = to;
            }
            Turn::Halt => {
                let steps = steps + 1;
                return End::Halt { pc, steps };
            }
            Turn::Stop(why) => {
                let why = anomaly(why);
                return End::Stopped { why, pc, steps };
            }
            Turn::Unlisted(_) => unreachable!(),
        }
    }
    let steps = budget;
    End::Budget { pc, steps }
}

// Nothing to run.
fn idle(pc: usize) -> End
    ensures { result ≡ End.Halt pc 0 }
{
    End::Halt { pc, steps: 0 }
}

// After every end but 0 and 5 the stored pc is the one from before the run.
fn store_pc(state: &mut State, end: End)
    ensures { state.new ≡ keep_pc (stored_pc (number_of_end end) state.old.pc (pc_of_end end)) state.old }
{
    match end {
        End::Halt { pc, .. } | End::Budget { pc, .. } => state.pc = pc,
        End::Stopped { .. } => {}
    }
}

// A run that is not refused. It writes frame 0 on code that is not empty, even if pc is past its end.
fn run_checked(
    state: &mut State,
    budget: Steps,
    image: &Image,
    frames: &mut [u64],
    heap: &mut [u8],
) -> End
    requires { (l : Lent) → failing (tests (run image.now budget) state.old (lend_run frames.old heap.old l)) ≡ none }
    ensures { (l : Lent)
        → told (answer_of result) state.new (lend_run frames.new heap.new l)
        ≡ run_call image.now budget
        (machine_of state.old (lend_run frames.old heap.old l)) }
{
    let code = image.code();
    if code.is_empty() {
        return idle(state.pc);
    }
    frames[0] = (code.len() as u64).wrapping_sub(2);
    if code.len() <= state.pc {
        return idle(state.pc);
    }
    let mut frames = Frames {
        depth: state.depth,
        places: frames,
    };
    let mut heap = Heap {
        gc: state.gc,
        bytes: heap,
    };
    let end = go(
        state.pc,
        budget,
        &mut state.regs,
        image,
        &mut frames,
        &mut heap,
    );
    state.depth = frames.depth;
    state.gc = heap.gc;
    store_pc(state, end);
    end
}

// The image, unless it, the buffers lent or the state is refused: 10, 11, 16, 12 to 15 word by word, then 9.
fn tested<'a>(
    state: &State,
    image: &'a [u64],
    frames: &[u64],
    heap: &[u8],
) -> Result<Image<'a>, Refusal>
    ensures image { IfOk result (λ im. im ≡ image_in image.now) }
    ensures refused { (budget : ℕ) (l : Lent)
        → refused_with result
        ≡ failing (tests (run (image_in image.now) budget) state.now (lend_run frames.now heap.now l)) }
{
    if !(lent::frames_ok(frames.len()) & lent::heap_ok(state.gc.base, heap.len())) {
        return Err(Refusal::Size);
    }
    let image = Image::load(image)?;
    let words = image.code().len();
    if !(lent::frames_belong(words, state.depth, frames) & state.gc.sound(heap.len())) {
        return Err(Refusal::State);
    }
    Ok(image)
}

// Instructions from the stored pc on, `budget` of them at most. Image and buffers are tested again at every run.
pub fn run(
    state: &mut State,
    budget: Steps,
    image: &[u64],
    frames: &mut [u64],
    heap: &mut [u8],
) -> Result<End, Refusal>
    ensures { (l : Lent)
        → told (answer_by answer_of result) state.new (lend_run frames.new heap.new l)
        ≡ perform (run (image_in image.now) budget)
        (machine_of state.old (lend_run frames.old heap.old l)) }
{
    let image = tested(state, image, frames, heap)?;
    Ok(run_checked(state, budget, &image, frames, heap))
}
