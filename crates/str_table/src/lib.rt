// The table of names: open addressing on the hash with linear probing, at most half full. A slot
// holds a string's address, or is EMPTY. The active slots are the first of those lent.
#![tactic(auto)]

ghost use Rattle.std.specs.Prelude.{◌≡◌, ℕ, ◌+◌, ◌*◌, ◌≤◌, ◌<◌, ◌^◌, Bool, ◌==◌, ◌||◌, length, take, replicate, ltb};
ghost use Rattle.memory.specs.Lists.{over};
ghost use Rattle.string.specs.Payload.{holds, reaches};
ghost use Rattle.str_table.specs.Table.{lookup, found_value, placed};
ghost use Rattle.str_table.specs.Grow.{stored_hash, moved, with_room, spare_after, room_of, inserted, insert_of};
ghost use Rattle.str_table.specs.Sound.{slot_count, active_ok, slots_ok, sound_of};

use string::name::{Hashed, Name};
use string::payload::{Extent, Pushed};
use value::Value;

const EMPTY: u64 = Value::UNDEF.0;

// What probing comes to. An enum of its own, since `Result<u64, Option<usize>>` says no plainer which place is the first empty one.
#[derive(Clone, Copy)]
pub enum Probe {
    // The value that is looked for.
    Found(u64),
    // The first empty slot, with no such value before it.
    Vacant(usize),
    // Every slot was looked at, and none is empty.
    Full,
}

// From the hash's own slot on: the first value that `hit` is true of, or the first empty slot before it. The place is stepped beside
// the `for`: probing goes round the end of the table, and two slices chained would say no plainer where `Vacant` lies.
fn look_up<F: Fn(u64) -> bool>(slots: &[u64], hash: u32, hit: F) -> Probe
    requires { F.IsAlwaysCallable hit }
    ensures inside { (i : ℕ) → result ≡ Probe.Vacant i → i < length slots.now }
    ensures probed { (test : ℕ → Bool)
        → ((v : ℕ) (r : Bool) → v < 2 ^ 64 → F.post hit v r → r ≡ test v)
        → result ≡ lookup test slots.now hash }
{
    if slots.is_empty() {
        return Probe::Full;
    }
    let mask = slots.len() - 1;
    let mut i = hash as usize & mask;
    for _turn in 0..slots.len() {
        let v = slots[i];
        if v == EMPTY {
            return Probe::Vacant(i);
        }
        if hit(v) {
            return Probe::Found(v);
        }
        i = (i + 1) & mask;
    }
    Probe::Full
}

// What probing for a name comes to among the active slots.
pub fn probe_for<N: Name>(heap: Pushed, slots: &[u64], hashed: Hashed<N>) -> Probe
    ensures { result
        ≡ lookup (holds heap.entry.base heap.entry.bytes.now (N.bytes hashed.name) hashed.hash) slots.now hashed.hash }
{
    look_up(slots, hashed.hash, |v| heap.is_string(hashed, v))
}

// The value of a name among the active slots.
pub fn get<N: Name>(heap: Pushed, slots: &[u64], hashed: Hashed<N>) -> Option<u64>
    ensures { result
        ≡ found_value (lookup (holds heap.entry.base heap.entry.bytes.now (N.bytes hashed.name) hashed.hash) slots.now hashed.hash) }
{
    match probe_for(heap, slots, hashed) {
        Probe::Found(v) => Some(v),
        Probe::Vacant(_) | Probe::Full => None,
    }
}

// v into the first empty slot from its hash on.
fn place(hash: u32, v: u64, slots: &mut [u64])
    ensures { slots.new ≡ placed hash v slots.old }
{
    if let Probe::Vacant(i) = look_up(slots, hash, |_| false) {
        slots[i] = v;
    }
}

// The hash in the header of the string at v.
fn str_hash(heap: Pushed, v: u64) -> u32
    ensures { result ≡ stored_hash heap.entry.base heap.entry.bytes.now v }
{
    if !heap.extent().has_header(v) {
        return 0;
    }
    let at = (v - heap.base) as usize + 4;
    memory::load::<4>(heap.bytes, at) as u32
}

// The old slots placed again, in slot order.
fn place_all(heap: Pushed, old: &[u64], slots: &mut [u64])
    ensures { slots.new ≡ moved heap.entry.base heap.entry.bytes.now old.now slots.old }
{
    for &v in old {
        if v != EMPTY {
            place(str_hash(heap, v), v, slots);
        }
    }
}

// From `active` slots to `room`: the old ones go to the spare slice, and from there into the new. Slots and spare are two slices, with
// their lengths in the contract here and at `make_room`, as they are lent: `impl Names` in `names` says why.
fn rehash(heap: Pushed, active: usize, room: usize, slots: &mut [u64], spare: &mut [u64])
    requires { (active ≤ room) × (room ≤ length slots.old) × (active ≤ length spare.old) }
    ensures slots_after { slots.new
        ≡ over (moved heap.entry.base heap.entry.bytes.now (take active slots.old) (replicate room 0)) slots.old }
    ensures spare_after { spare.new ≡ over (take active slots.old) spare.old }
{
    memory::copy(&slots[..active], spare);
    slots[..room].fill(EMPTY);
    place_all(heap, &spare[..active], &mut slots[..room]);
}

// `room` slots where `active` were.
fn make_room(heap: Pushed, active: usize, room: usize, slots: &mut [u64], spare: &mut [u64])
    requires { (active ≤ room) × (room ≤ length slots.old) × (active ≤ length spare.old) }
    ensures slots_after { slots.new
        ≡ over (with_room heap.entry.base heap.entry.bytes.now (take active slots.old) room) slots.old }
    ensures spare_after { spare.new ≡ spare_after (ltb active room) (take active slots.old) spare.old }
{
    if active < room {
        rehash(heap, active, room, slots, spare);
    }
}

// A power of two from 64 to 4,096.
pub fn slot_count(n: usize) -> bool
    ensures { result ≡ slot_count n }
{
    [64, 128, 256, 512, 1024, 2048, 4096].contains(&n)
}

fn active_ok(active: usize, lent: usize) -> bool
    ensures { result ≡ active_ok active lent }
{
    active <= lent && (active == 0 || slot_count(active))
}

// Whether the slot is empty, or the header of what it holds lies in the pushed bytes. `|` and not
// `||`: which slots are filled is as good as random, and with a branch on it the test of a table of
// 4,096 slots takes three times as long.
fn slot_ok(extent: Extent, v: u64) -> bool
    ensures { result ≡ (v == 0 || reaches extent.base extent.len v 8) }
{
    (v == EMPTY) | extent.has_header(v)
}

// Whether `len` of the active slots are filled, at most half of them, each with its header in the
// pushed bytes.
fn slots_ok(extent: Extent, len: usize, slots: &[u64]) -> bool
    ensures { result ≡ slots_ok extent.base extent.len len slots.now }
{
    let mut filled = 0;
    let mut headers = true;
    for &v in slots {
        filled += usize::from(v != EMPTY);
        headers &= slot_ok(extent, v);
    }
    if !headers || filled != len {
        return false;
    }
    len * 2 <= slots.len()
}

// How many slots are active, and how many names they hold.
#[derive(Clone, Copy)]
pub struct StrTable {
    pub active: usize,
    pub len: usize,
}

impl StrTable {
    // Whether the numbers can belong to the lent slots: refusal 9.
    pub fn sound(self, extent: Extent, slots: &[u64]) -> bool
        ensures { result ≡ sound_of extent.base extent.len self slots.now }
    {
        if !active_ok(self.active, slots.len()) {
            return false;
        }
        slots_ok(extent, self.len, &slots[..self.active])
    }

    // How many slots one name more asks for. More than are lent is refusal 18.
    pub fn room(self) -> usize
        requires { (self.active ≤ 4096) × (self.len ≤ self.active) }
        ensures { result ≡ room_of self.active self.len }
    {
        if (self.len + 1) * 2 <= self.active {
            self.active
        } else if self.active == 0 {
            64
        } else {
            self.active * 2
        }
    }

    // The table with one name more, at v, which is in none of its slots.
    pub fn insert(
        self,
        heap: Pushed,
        hash: u32,
        v: u64,
        slots: &mut [u64],
        spare: &mut [u64],
    ) -> StrTable
        requires { (self.len ≤ self.active)
            × (room_of self.active self.len ≤ length slots.old)
            × (length slots.old ≤ 4096)
            × (length spare.old ≡ length slots.old) }
        ensures { inserted result slots.new spare.new
            ≡ insert_of heap.entry.base heap.entry.bytes.now hash v self slots.old spare.old }
    {
        let room = self.room();
        make_room(heap, self.active, room, slots, spare);
        place(hash, v, &mut slots[..room]);
        StrTable {
            active: room,
            len: self.len + 1,
        }
    }
}
