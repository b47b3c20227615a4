// One instruction: what it asks for, done to registers, frames and heap.
#![tactic(auto)]

ghost use Rattle.std.specs.Prelude.{◌≡◌, ℕ, ◌+◌, ◌^◌, ◌<◌, List};
ghost use Rattle.gc.specs.declared.Heap.{Heap};
ghost use Rattle.effects.specs.declared.Effect.{Effect};
ghost use Rattle.effects.specs.Stops.{EndsListed};
ghost use Rattle.effects.specs.declared.Stop.TheVariants as stop;
ghost use Rattle.vm.specs.declared.State.{State};
ghost use Rattle.vm.specs.Machine.{Lent};
ghost use Rattle.instruction.specs.declared.frames.Frames.{Frames};
ghost use Rattle.instruction.specs.Turn.{machine_in, place_in, turn, turn_of, IsListed};

pub mod frames;

use anomaly::Anomaly;
use effects::{Effect, Stop};
use frames::Frames;
use gc::{AllocType, HEAP_END, Heap, Metadata};
use op::Reg;

// What an instruction comes to: the place of the next, or no next. Where it stops nothing was done.
#[derive(Clone, Copy)]
pub enum Turn {
    Next(usize),
    Halt,
    Stop(Stop),
    // by any other number
    Unlisted(u64),
}

fn stopped(why: Anomaly) -> Turn
    ensures { result ≡ Turn.Stop (stop.Anomaly why) }
{
    Turn::Stop(Stop::Anomaly(why))
}

// Where in the heap an address lies: 'an unwrapped sum that is a multiple of 8 and wholly in pushed pages'
fn reach(heap: &Heap, base: u64, offset: u64) -> Option<usize>
    ensures { result ≡ place_in heap.now.gc (base + offset) }
{
    // no sum below passes 2^64
    if (HEAP_END <= base) | (HEAP_END <= offset) {
        return None;
    }
    let address = base + offset;
    // an address below the heap wraps to one above it
    let at = address.wrapping_sub(heap.gc.base);
    let pushed = heap.gc.pushed as u64;
    if pushed <= at {
        return None;
    }
    if (address % 8 != 0) | (pushed < at + 8) {
        return None;
    }
    Some(at as usize)
}

fn set(next: usize, dst: Reg, value: u64, regs: &mut [u64; 32]) -> Turn
    ensures turned { (s : State) (pc : ℕ) (frames : Frames) (heap : Heap) (l : Lent)
        → next ≡ pc + 1
        → turn_of s pc regs.new frames heap l result
        ≡ turn (Effect.Set dst value) (machine_in s pc regs.old frames heap l) }
    ensures listed { IsListed result }
{
    dst.write(regs, value);
    Turn::Next(next)
}

fn call(pc: usize, func: usize, frames: &mut Frames) -> Turn
    ensures same_frames { frames.new.places.ghost_name ≡ frames.old.places.ghost_name }
    ensures turned { (s : State) (regs : List ℕ) (heap : Heap) (l : Lent)
        → turn_of s pc regs frames.new heap l result
        ≡ turn (Effect.Call func) (machine_in s pc regs frames.old heap l) }
    ensures listed { IsListed result }
{
    if !frames.push(pc as u64) {
        return stopped(Anomaly::StackOverflow);
    }
    Turn::Next(func)
}

// Back behind the `Call` that a frame holds the place of.
fn ret(pc: usize, frames: &mut Frames) -> Turn
    ensures same_frames { frames.new.places.ghost_name ≡ frames.old.places.ghost_name }
    ensures turned { (s : State) (regs : List ℕ) (heap : Heap) (l : Lent)
        → turn_of s pc regs frames.new heap l result
        ≡ turn Effect.Ret (machine_in s pc regs frames.old heap l) }
    ensures listed { IsListed result }
{
    let Some(place) = frames.pop() else {
        return stopped(Anomaly::FrameUnderflow);
    };
    Turn::Next(place.wrapping_add(1) as usize)
}

fn load(next: usize, dst: Reg, base: u64, offset: u64, regs: &mut [u64; 32], heap: &Heap) -> Turn
    ensures turned { (s : State) (pc : ℕ) (frames : Frames) (l : Lent)
        → next ≡ pc + 1
        → turn_of s pc regs.new frames heap.now l result
        ≡ turn (Effect.Load dst base offset) (machine_in s pc regs.old frames heap.now l) }
    ensures listed { IsListed result }
{
    let Some(i) = reach(heap, base, offset) else {
        return stopped(Anomaly::BadAddress);
    };
    dst.write(regs, memory::load::<8>(heap.bytes, i));
    Turn::Next(next)
}

fn store(next: usize, base: u64, offset: u64, value: u64, heap: &mut Heap) -> Turn
    ensures same_heap { heap.new.bytes.ghost_name ≡ heap.old.bytes.ghost_name }
    ensures turned { (s : State) (pc : ℕ) (regs : List ℕ) (frames : Frames) (l : Lent)
        → next ≡ pc + 1
        → turn_of s pc regs frames heap.new l result
        ≡ turn (Effect.Store base offset value) (machine_in s pc regs frames heap.old l) }
    ensures listed { IsListed result }
{
    let Some(i) = reach(heap, base, offset) else {
        return stopped(Anomaly::BadAddress);
    };
    memory::store::<8>(heap.bytes, i, value);
    Turn::Next(next)
}

fn alloc(
    next: usize,
    dst: Reg,
    kind: AllocType,
    size: u64,
    regs: &mut [u64; 32],
    heap: &mut Heap,
) -> Turn
    ensures same_heap { heap.new.bytes.ghost_name ≡ heap.old.bytes.ghost_name }
    ensures turned { (s : State) (pc : ℕ) (frames : Frames) (l : Lent)
        → next ≡ pc + 1
        → turn_of s pc regs.new frames heap.new l result
        ≡ turn (Effect.Alloc kind dst size) (machine_in s pc regs.old frames heap.old l) }
    ensures listed { IsListed result }
{
    let Some(address) = heap.alloc(Metadata::new(kind, false, size)) else {
        return stopped(Anomaly::AllocationFailed);
    };
    dst.write(regs, address);
    Turn::Next(next)
}

pub fn apply(
    effect: Effect,
    pc: usize,
    regs: &mut [u64; 32],
    frames: &mut Frames,
    heap: &mut Heap,
) -> Turn
    requires { pc + 1 < 2 ^ 64 }
    ensures same_frames { frames.new.places.ghost_name ≡ frames.old.places.ghost_name }
    ensures same_heap { heap.new.bytes.ghost_name ≡ heap.old.bytes.ghost_name }
    ensures turned { (s : State) (l : Lent)
        → turn_of s pc regs.new frames.new heap.new l result
        ≡ turn effect (machine_in s pc regs.old frames.old heap.old l) }
    ensures listed { EndsListed effect → IsListed result }
{
    let next = pc + 1;
    // a closed set, as in `meaning`; lent, since a match that moves a register out of an effect gets no proof
    match &effect {
        Effect::Set { dst, value } => set(next, *dst, *value, regs),
        Effect::Skip => Turn::Next(next),
        Effect::Goto { target } => Turn::Next(*target),
        Effect::Call { func } => call(pc, *func, frames),
        Effect::Ret => ret(pc, frames),
        Effect::Load { dst, base, offset } => load(next, *dst, *base, *offset, regs, heap),
        Effect::Store {
            base,
            offset,
            value,
        } => store(next, *base, *offset, *value, heap),
        Effect::Alloc { kind, dst, size } => alloc(next, *dst, *kind, *size, regs, heap),
        Effect::Stop(why) => Turn::Stop(*why),
        Effect::Unlisted { number } => Turn::Unlisted(*number),
        Effect::Halt => Turn::Halt,
    }
}
