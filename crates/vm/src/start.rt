// The start of a machine: what the loader refuses, and what a start leaves.
ghost use Rattle.std.specs.Prelude.{◌≡◌, ◌+◌, ◌^◌, ◌≤◌, length};
ghost use Rattle.gc.specs.Lent.{page_size};
ghost use Rattle.program.specs.Words.{image_in};
ghost use Rattle.vm.specs.Machine.{Lent, lend_begin, blank, begin, start};
ghost use Rattle.vm.specs.Told.{lent_of, machine_of, start_told, started_on};

use crate::{State, UNSET, boxed, lent};
use anomaly::Refusal;
use gc::{Gc, Heap};
use program::Image;
use str_table::StrTable;

// A state that has nothing in use.
fn blank(base: u64) -> State
    ensures { (l : Lent) → machine_of result l ≡ blank base l }
{
    let regs: [u64; 32] = [0; 32];
    let gc = Gc {
        base,
        pushed: 0,
        page: 0,
        len: 0,
    };
    let strings = StrTable { active: 0, len: 0 };
    State {
        regs,
        pc: 0,
        depth: 0,
        gc,
        strings,
    }
}

// Registers and pc 0, frame 0 as `reset` leaves it, page 0 with the box of none.
fn begin(base: u64, frames: &mut [u64], heap: &mut [u8]) -> State
    requires { (1 ≤ length frames.old) × ((base + length heap.old ≤ 2 ^ 48) × (page_size ≤ length heap.old)) }
    ensures { (l : Lent)
        → machine_of result (lend_begin frames.new heap.new l) ≡ begin base (lend_begin frames.old heap.old l) }
{
    // new, and no copy of another
    let mut state = blank(base);
    let mut pages = Heap {
        gc: state.gc,
        bytes: heap,
    };
    boxed(&mut pages, 0, 0);
    state.gc = pages.gc;
    frames[0] = UNSET;
    state.depth = 1;
    state
}

// Slots and spare are looked at for their sizes alone.
pub fn start(
    base: u64,
    image: &[u64],
    frames: &mut [u64],
    heap: &mut [u8],
    slots: &[u64],
    spare: &[u64],
) -> Result<State, Refusal>
    ensures { start_told result base (lent_of frames.new heap.new slots.now spare.now)
        ≡ started_on (start (image_in image.now) base (lent_of frames.old heap.old slots.now spare.now)) base
        (lent_of frames.old heap.old slots.now spare.now) }
{
    let sizes = lent::frames_ok(frames.len())
        & (lent::heap_ok(base, heap.len()) & lent::slots_ok(slots.len(), spare.len()));
    if !sizes {
        return Err(Refusal::Size);
    }
    Image::load(image)?;
    Ok(begin(base, frames, heap))
}
