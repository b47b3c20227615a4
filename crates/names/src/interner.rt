// Interning: document 01, 'Interning: 9, 17, the value if found, 18, 2', after 10.
ghost use Rattle.std.specs.Prelude.{◌≡◌, [], ◌∷◌};
ghost use Rattle.string.specs.Hash.{hash_of};
ghost use Rattle.gc.specs.Lent.{pages_of, outcome, granted_in};
ghost use Rattle.str_table.specs.Sound.{sound_of};
ghost use Rattle.program.specs.Image.{test, failing, refused_with};
ghost use Rattle.vm.specs.declared.State.{State};
ghost use Rattle.vm.specs.Names.{fresh, interned};
ghost use Rattle.vm.specs.Machine.{Lent, lend_names, memory_of, value, intern, host, host_call, found, name_tests, perform};
ghost use Rattle.vm.specs.Told.{machine_of, answer_by, told};
ghost use Rattle.names.specs.Interned.{name_block, Belong, names_of, in_state};

use crate::to_name::ToName;
use anomaly::Refusal;
use gc::{AllocType, Gc, Heap, Metadata};
use str_table::StrTable;
use string::name::{Hashed, Name};
use string::payload::{self, Extent, Pushed};
use vm::{State, lent};

// What interning needs of a state: the numbers of its heap and of its table of names.
#[derive(Clone, Copy)]
pub struct Names {
    pub gc: Gc,
    pub strings: StrTable,
}

impl From<&State> for Names {
    ghost from_gives = { λ state names. names ≡ names_of state.now };

    fn from(state: &State) -> Names {
        Names {
            gc: state.gc,
            strings: state.strings,
        }
    }
}

// A block with the header and the bytes of a name.
fn store<N: Name>(heap: &mut Heap, hashed: Hashed<N>) -> Option<u64>
    ensures same_reference { heap.new.bytes.ghost_name ≡ heap.old.bytes.ghost_name }
    ensures outcome { outcome result heap.new.gc heap.new.bytes.now
        ≡ granted_in (name_block (N.bytes hashed.name) hashed.hash (pages_of heap.old.gc heap.old.bytes.now)) heap.old.gc
        heap.old.bytes.now }
{
    let base = heap.gc.base;
    let size = payload::payload_size(hashed.name.len());
    let address = heap.alloc(Metadata::new(AllocType::String, false, size))?;
    let at = (address - base) as usize;
    payload::write_payload(&mut heap.bytes[at..], hashed);
    Some(address)
}

// Heap, slots and spare stand as slices one by one: of one struct of the three, `known` and `intern` get no proof, or take it apart and
// put it together again.
impl Names {
    // Of 9: the table, in the slots lent.
    fn names_belong(self, slots: &[u64]) -> Result<(), Refusal>
        ensures { refused_with result ≡ failing (test (sound_of self.gc.base self.gc.pushed self.strings slots.now) 9 ∷ []) }
    {
        let extent = Extent {
            base: self.gc.base,
            len: self.gc.pushed,
        };
        let sound = self.strings.sound(extent, slots);
        sound.then_some(()).ok_or(Refusal::State)
    }

    // 10, then 9.
    fn check(self, heap: &[u8], slots: &[u64], spare: &[u64]) -> Result<(), Refusal>
        ensures { (rest : State) (l : Lent)
            → refused_with result
            ≡ failing (name_tests (found (in_state rest self) (lend_names heap.now slots.now spare.now l))) }
    {
        lent::heap_fits(self.gc, heap)?;
        lent::slots_fit(slots, spare)?;
        lent::pages_belong(self.gc, heap)?;
        self.names_belong(slots)
    }

    // A name that is not there yet. The slots are tested first: 18 before 2.
    fn fresh<N: Name>(
        &mut self,
        hashed: Hashed<N>,
        heap: &mut [u8],
        slots: &mut [u64],
        spare: &mut [u64],
    ) -> Result<u64, Refusal>
        requires { Belong self.old heap.old slots.old spare.old × (hashed.hash ≡ hash_of (N.bytes hashed.name)) }
        ensures { (rest : State) (l : Lent)
            → told (answer_by value result) (in_state rest self.new) (lend_names heap.new slots.new spare.new l)
            ≡ host_call (intern (N.bytes hashed.name))
            (machine_of (in_state rest self.old) (lend_names heap.old slots.old spare.old l))
            (fresh (N.bytes hashed.name) (memory_of
            (machine_of (in_state rest self.old) (lend_names heap.old slots.old spare.old l)))) }
    {
        if slots.len() < self.strings.room() {
            return Err(Refusal::TableFull);
        }
        let mut heap = Heap {
            gc: self.gc,
            bytes: heap,
        };
        let stored = store(&mut heap, hashed);
        let Heap { gc, bytes } = heap;
        self.gc = gc;
        let address = stored.ok_or(Refusal::Memory)?;
        let pages = Pushed {
            base: gc.base,
            bytes: &bytes[..gc.pushed],
        };
        self.strings = self
            .strings
            .insert(pages, hashed.hash, address, slots, spare);
        Ok(address)
    }

    // The value of a name that is there, or else the new name's.
    fn known<N: Name>(
        &mut self,
        name: N,
        heap: &mut [u8],
        slots: &mut [u64],
        spare: &mut [u64],
    ) -> Result<u64, Refusal>
        requires { Belong self.old heap.old slots.old spare.old }
        ensures { (rest : State) (l : Lent)
            → told (answer_by value result) (in_state rest self.new) (lend_names heap.new slots.new spare.new l)
            ≡ host_call (intern (N.bytes name))
            (machine_of (in_state rest self.old) (lend_names heap.old slots.old spare.old l))
            (interned (N.bytes name) (memory_of
            (machine_of (in_state rest self.old) (lend_names heap.old slots.old spare.old l)))) }
    {
        let hashed = Hashed::of(name);
        let pages = Pushed {
            base: self.gc.base,
            bytes: &heap[..self.gc.pushed],
        };
        match str_table::get(pages, &slots[..self.strings.active], hashed) {
            Some(value) => Ok(value),
            None => self.fresh(hashed, heap, slots, spare),
        }
    }

    // 10 and 9, then what the name itself is refused for.
    pub fn intern<G: ToName>(
        &mut self,
        given: G,
        heap: &mut [u8],
        slots: &mut [u64],
        spare: &mut [u64],
    ) -> Result<u64, Refusal>
        ensures { (rest : State) (l : Lent)
            → told (answer_by value result) (in_state rest self.new) (lend_names heap.new slots.new spare.new l)
            ≡ perform (host (G.call given))
            (machine_of (in_state rest self.old) (lend_names heap.old slots.old spare.old l)) }
    {
        self.check(heap, slots, spare)?;
        self.known(given.to_name()?, heap, slots, spare)
    }
}
