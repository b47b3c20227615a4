// What is refused of the buffers that a call is lent: 10 for their sizes and the heap's base, 9 for frames that cannot belong to a state.
ghost use Rattle.std.specs.Prelude.{◌≡◌, [], ◌∷◌, length};
ghost use Rattle.gc.specs.Lent.{sound_of};
ghost use Rattle.program.specs.Image.{refused_with, test, failing};
ghost use Rattle.vm.specs.Machine.{Lent, frames_ok, heap_ok, slots_ok, frames_belong};
ghost use Rattle.vm.specs.declared.State.{State};

use anomaly::Refusal;
use gc::{Gc, HEAP_END, PAGE_SIZE};
use program::loader;

pub fn frames_ok(frames: usize) -> bool
    ensures { result ≡ frames_ok frames }
{
    (1 <= frames) & (frames <= 16384)
}

pub fn heap_ok(base: u64, heap: usize) -> bool
    ensures { result ≡ heap_ok base heap }
{
    // no difference below goes under 0
    if 256 * PAGE_SIZE < heap {
        return false;
    }
    let top = HEAP_END - heap as u64;
    let size = PAGE_SIZE as u64;
    ((PAGE_SIZE <= heap) & (heap % PAGE_SIZE == 0))
        & ((size <= base) & ((base % size == 0) & (base <= top)))
}

// Of 10: the heap lent, and its base.
pub fn heap_fits(gc: Gc, heap: &[u8]) -> Result<(), Refusal>
    ensures { refused_with result ≡ failing (test (heap_ok gc.base (length heap.now)) 10 ∷ []) }
{
    heap_ok(gc.base, heap.len())
        .then_some(())
        .ok_or(Refusal::Size)
}

// Of 10: the slots lent, and as many spare ones.
pub fn slots_fit(slots: &[u64], spare: &[u64]) -> Result<(), Refusal>
    ensures { refused_with result ≡ failing (test (slots_ok (length slots.now) (length spare.now)) 10 ∷ []) }
{
    slots_ok(slots.len(), spare.len())
        .then_some(())
        .ok_or(Refusal::Size)
}

// Of 9: the pages, in the heap lent.
pub fn pages_belong(gc: Gc, heap: &[u8]) -> Result<(), Refusal>
    ensures { refused_with result ≡ failing (test (sound_of gc (length heap.now)) 9 ∷ []) }
{
    gc.sound(heap.len()).then_some(()).ok_or(Refusal::State)
}

pub fn slots_ok(slots: usize, spare: usize) -> bool
    ensures { result ≡ slots_ok slots spare }
{
    str_table::slot_count(slots) & (spare == slots)
}

// Of 9: the depth is within the frames lent, and for code of so many words each frame in use but frame 0 returns below the last.
pub fn frames_belong(words: usize, depth: usize, frames: &[u64]) -> bool
    ensures { (s : State) (l : Lent) → s.depth ≡ depth → l.frames ≡ frames.now → result ≡ frames_belong words s l }
{
    if frames.len() < depth {
        return false;
    }
    if words == 0 {
        return true;
    }
    if depth == 0 {
        return true;
    }
    loader::below(words - 1, &frames[1..depth])
}
