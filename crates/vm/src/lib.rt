// The machine: what it keeps between calls, and the calls of its host.
#![tactic(auto)]

ghost use Rattle.std.specs.Prelude.{◌≡◌, ◌≤◌, ◌&&◌, ltb, [], ◌∷◌, length, IfOk};
ghost use Rattle.memory.specs.Lists.{over};
ghost use Rattle.gc.specs.Metadata.{bits_of};
ghost use Rattle.gc.specs.Lent.{outcome, granted_in};
ghost use Rattle.op.specs.Layout.{is_alignment};
ghost use Rattle.program.specs.Image.{refused_with, test, failing};
ghost use Rattle.vm.specs.Machine.{Lent, lend_frames, lend_heap, reset, put_pc, put_reg, setting, allocate, option, host, value, done, perform};
ghost use Rattle.vm.specs.Names.{box_of, boxed};
ghost use Rattle.vm.specs.Told.{machine_of, told, answer_by, block_of, memory_in};

pub mod lent;
pub mod start;

use anomaly::Refusal;
use gc::{AllocType, Gc, Heap, Metadata};
use op::REGISTER_COUNT;
use str_table::StrTable;

// What a machine keeps. Frames, heap and slots are lent to each call.
#[derive(Clone, Copy)]
pub struct State {
    pub regs: [u64; 32],
    pub pc: usize,
    pub depth: usize,
    pub gc: Gc,
    pub strings: StrTable,
}

// What `reset` gives pc and frame 0, and a start frame 0.
const UNSET: u64 = u64::MAX;

// An Option of two words, a tag and a value, as they lie in the heap: [1, v], and [0, 0] of none.
fn boxed(heap: &mut Heap, tag: u64, value: u64) -> Option<u64>
    ensures same_reference { heap.new.bytes.ghost_name ≡ heap.old.bytes.ghost_name }
    ensures outcome { outcome result heap.new.gc heap.new.bytes.now
        ≡ granted_in (block_of (boxed tag value (memory_in heap.old.gc heap.old.bytes.now))) heap.old.gc
        heap.old.bytes.now }
{
    let base = heap.gc.base;
    let address = heap.alloc(Metadata::new(AllocType::Option, false, 16))?;
    let at = (address - base) as usize;
    write_box(&mut heap.bytes[at..], tag, value);
    Some(address)
}

// The two words, into the part of the heap that starts at the payload.
fn write_box(to: &mut [u8], tag: u64, value: u64)
    requires { 16 ≤ length to.old }
    ensures { to.new ≡ over (box_of tag value) to.old }
{
    memory::store::<8>(to, 0, tag);
    memory::store::<8>(to, 8, value);
}

// 13: a kind above 3, or no alignment.
fn kind_of(kind: u64, align: usize) -> Result<AllocType, Refusal>
    ensures test { refused_with result ≡ failing (test (ltb kind 4 && is_alignment align) 13 ∷ []) }
    ensures value { IfOk result (λ k. bits_of k ≡ kind) }
{
    if !op::is_alignment(align) {
        return Err(Refusal::Operand);
    }
    AllocType::try_from(kind).or(Err(Refusal::Operand))
}

impl State {
    pub fn set_pc(&mut self, pc: usize)
        ensures { (l : Lent) → told done self.new l ≡ perform (setting (put_pc pc)) (machine_of self.old l) }
    {
        self.pc = pc;
    }

    pub fn set_register(&mut self, register: usize, value: u64) -> Result<(), Refusal>
        ensures { (l : Lent)
            → told (answer_by (λ _. done) result) self.new l
            ≡ perform (setting (put_reg register value)) (machine_of self.old l) }
    {
        if REGISTER_COUNT <= register {
            return Err(Refusal::Operand);
        }
        self.regs[register] = value;
        Ok(())
    }

    // pc and frame 0 unset, and depth 1; registers, heap and names stay.
    pub fn reset(&mut self, frames: &mut [u64]) -> Result<(), Refusal>
        ensures { (l : Lent)
            → told (answer_by (λ _. done) result) self.new (lend_frames frames.new l)
            ≡ perform (setting reset) (machine_of self.old (lend_frames frames.old l)) }
    {
        if !lent::frames_ok(frames.len()) {
            return Err(Refusal::Size);
        }
        frames[0] = UNSET;
        self.pc = UNSET as usize;
        self.depth = 1;
        Ok(())
    }

    // A block of `size` bytes and a kind; its alignment is tested and changes nothing.
    // The kind is a number, as C gives it: one that is none is refused by 13, and only after 10.
    pub fn allocate(
        &mut self,
        kind: u64,
        align: usize,
        size: u64,
        heap: &mut [u8],
    ) -> Result<u64, Refusal>
        ensures { (l : Lent)
            → told (answer_by value result) self.new (lend_heap heap.new l)
            ≡ perform (host (allocate kind align size)) (machine_of self.old (lend_heap heap.old l)) }
    {
        lent::heap_fits(self.gc, heap)?;
        let kind = kind_of(kind, align)?;
        lent::pages_belong(self.gc, heap)?;
        let mut heap = Heap {
            gc: self.gc,
            bytes: heap,
        };
        let address = heap.alloc(Metadata::new(kind, false, size));
        self.gc = heap.gc;
        address.ok_or(Refusal::Memory)
    }

    pub fn new_option(&mut self, payload: Option<u64>, heap: &mut [u8]) -> Result<u64, Refusal>
        ensures { (l : Lent)
            → told (answer_by value result) self.new (lend_heap heap.new l)
            ≡ perform (host (option payload)) (machine_of self.old (lend_heap heap.old l)) }
    {
        lent::heap_fits(self.gc, heap)?;
        lent::pages_belong(self.gc, heap)?;
        let Some(v) = payload else {
            // the box that the start made
            return Ok(self.gc.base + 16);
        };
        let mut heap = Heap {
            gc: self.gc,
            bytes: heap,
        };
        let address = boxed(&mut heap, 1, v);
        self.gc = heap.gc;
        address.ok_or(Refusal::Memory)
    }
}
