// The heap: pages of a lent slice, pushed in sequence, and blocks in the last of them. Nothing is
// freed.
#![tactic(auto)]

ghost use Rattle.std.specs.Prelude.{◌≡◌, ◌+◌, ◌≤◌, ◌<◌, length};
ghost use Rattle.memory.specs.Lists.{over};
ghost use Rattle.gc.specs.Metadata.{IsTypeOf, flags_of, header_of};
ghost use Rattle.gc.specs.Pages.{grow_of, pushed};
ghost use Rattle.gc.specs.Lent.{page_size, pages_of, numbers_of, outcome, fast_of, slow_of, alloc_of, growth, extended_in, sound_of, InHeap};

pub const PAGE_SIZE: usize = 4096;

// 2^48: every heap ends here at the latest.
pub const HEAP_END: u64 = 0x1_0000_0000_0000;

// A payload's place is a multiple of this.
const PAYLOAD_ALIGN: usize = 8;

// What a new page holds beside a payload: its header, and room to align it.
const GROWTH: usize = Metadata::SIZE + PAYLOAD_ALIGN;

// What a block holds.
#[derive(Clone, Copy, Debug, PartialEq, Eq)]
pub enum AllocType {
    Record,
    Array,
    Option,
    String,
}

// A number that no type has: refusal 13.
#[derive(Clone, Copy, Debug, PartialEq, Eq)]
pub struct UnknownType(pub u64);

impl TryFrom<u64> for AllocType {
    type Error = UnknownType;

    ghost try_from_gives = { IsTypeOf };

    fn try_from(n: u64) -> Result<Self, UnknownType> {
        match n {
            0 => Ok(AllocType::Record),
            1 => Ok(AllocType::Array),
            2 => Ok(AllocType::Option),
            3 => Ok(AllocType::String),
            _ => Err(UnknownType(n)),
        }
    }
}

// The header of a block, directly below its payload:
//
//     payload-16          payload-8           payload
//     +-------------------+-------------------+
//     | size: 8 bytes     | flags, 7 x zero   |
//     +-------------------+-------------------+
#[derive(Clone, Copy)]
pub struct Metadata {
    pub size: u64,
    pub flags: u8,
}

impl Metadata {
    pub const SIZE: usize = 16;
    // The lowest bit above the type: liveness, for a collector.
    pub const MARKED_FLAG: u8 = 8;

    pub fn new(kind: AllocType, marked: bool, size: u64) -> Metadata
        ensures { (result.size ≡ size) × (result.flags ≡ flags_of kind marked) }
    {
        let bits = kind as u8;
        let flags = if marked {
            bits + Metadata::MARKED_FLAG
        } else {
            bits
        };
        Metadata { size, flags }
    }

    // The header, at the beginning of the part of the heap that starts there.
    fn write(self, to: &mut [u8])
        requires { 16 ≤ length to.old }
        ensures { to.new ≡ over (header_of self.size self.flags) to.old }
    {
        memory::store::<8>(to, 0, self.size);
        memory::store::<8>(to, 8, u64::from(self.flags));
    }
}

// The heap's base address, how many bytes of pages are pushed, and the last page's place and length.
#[derive(Clone, Copy)]
pub struct Gc {
    pub base: u64,
    pub pushed: usize,
    pub page: usize,
    pub len: usize,
}

impl Gc {
    // Whether the numbers can belong to pages in a heap of `lent` bytes: refusal 9. `&` and not `&&`: of a chain of `&&` the proof did not
    // close.
    pub fn sound(self, lent: usize) -> bool
        ensures { result ≡ sound_of self lent }
    {
        if self.pushed <= self.page {
            return false;
        }
        (self.pushed % PAGE_SIZE == 0)
            & ((self.pushed <= lent)
                & ((self.page % PAGE_SIZE == 0) & (self.len <= self.pushed - self.page)))
    }
}

// A heap that is lent: its numbers, and the bytes in which its pages lie. What is lent a heap to change says that the bytes are still those
// (`same_reference`): by that its caller knows what its own slice holds.
#[derive(Drop)]
pub struct Heap<'a> {
    pub gc: Gc,
    pub bytes: &'a mut [u8],
    pub ghost belongs: { InHeap gc bytes.now },
}

impl Heap<'_> {
    // A block in the last page, if that can hold it: its address.
    pub fn alloc_fast(&mut self, m: Metadata) -> Option<u64>
        ensures same_reference { self.new.bytes.ghost_name ≡ self.old.bytes.ghost_name }
        ensures outcome { outcome result self.new.gc self.new.bytes.now
            ≡ fast_of self.old.gc m.flags m.size self.old.bytes.now }
    {
        // no sum below passes 2^64
        if (self.bytes.len() as u64) < m.size {
            return None;
        }
        let gc = self.gc;
        let header = gc.len.next_multiple_of(PAYLOAD_ALIGN);
        let len = header + Metadata::SIZE + m.size as usize;
        if gc.pushed - gc.page < len {
            return None;
        }
        let at = gc.page + header;
        m.write(&mut self.bytes[at..]);
        self.gc.len = len;
        Some(gc.base + (at + Metadata::SIZE) as u64)
    }

    // A page of `cap` bytes behind the others, zeroed.
    fn push_page(&mut self, cap: usize)
        requires { self.old.gc.pushed + cap ≤ length self.old.bytes.now }
        ensures same_reference { self.new.bytes.ghost_name ≡ self.old.bytes.ghost_name }
        ensures numbers { self.new.gc ≡ numbers_of (pushed cap (pages_of self.old.gc self.old.bytes.now)) }
        ensures bytes { self.new.bytes.now ≡ over (pushed cap (pages_of self.old.gc self.old.bytes.now)).bytes self.old.bytes.now }
    {
        let page = self.gc.pushed;
        let pushed = page + cap;
        self.bytes[page..pushed].fill(0);
        self.gc = Gc {
            base: self.gc.base,
            pushed,
            page,
            len: 0,
        };
    }

    // A page that can hold a block of `size` bytes; whether the lent heap has so much left.
    pub fn grow(&mut self, size: u64) -> bool
        ensures same_reference { self.new.bytes.ghost_name ≡ self.old.bytes.ghost_name }
        ensures growth { growth result self.new.gc self.new.bytes.now
            ≡ extended_in (pushed (grow_of page_size size) (pages_of self.old.gc self.old.bytes.now)) self.old.gc
            self.old.bytes.now }
    {
        // no sum below passes 2^64
        if (self.bytes.len() as u64) < size {
            return false;
        }
        let cap = (GROWTH + size as usize).next_multiple_of(PAGE_SIZE);
        if self.bytes.len() - self.gc.pushed < cap {
            return false;
        }
        self.push_page(cap);
        true
    }

    // A block in a new page.
    fn alloc_slow(&mut self, m: Metadata) -> Option<u64>
        ensures same_reference { self.new.bytes.ghost_name ≡ self.old.bytes.ghost_name }
        ensures outcome { outcome result self.new.gc self.new.bytes.now
            ≡ slow_of self.old.gc m.flags m.size self.old.bytes.now }
    {
        if !self.grow(m.size) {
            return None;
        }
        self.alloc_fast(m)
    }

    // A block in the last page if that can hold it, or else in a new one: its address. With no room for it all stays as it was.
    // A call of its own: put into the loop of a run it took the registers of every other instruction.
    #[inline(never)]
    pub fn alloc(&mut self, m: Metadata) -> Option<u64>
        ensures same_reference { self.new.bytes.ghost_name ≡ self.old.bytes.ghost_name }
        ensures outcome { outcome result self.new.gc self.new.bytes.now
            ≡ alloc_of self.old.gc m.flags m.size self.old.bytes.now }
    {
        if let Some(address) = self.alloc_fast(m) {
            return Some(address);
        }
        self.alloc_slow(m)
    }
}
