// A string's payload: a header of its length and its hash, then its bytes.
ghost use Rattle.std.specs.Prelude.{◌≡◌, ◌+◌, ◌-◌, ◌≤◌, ◌<◌, ◌^◌, length, true, false, MatchOption};
ghost use Rattle.memory.specs.Lists.{over};
ghost use Rattle.string.specs.Payload.{payload_of, payload_size, reaches, headed, bytes_at, holds};

use crate::name::{Hashed, Name};

pub const HEADER_SIZE: usize = 8;

pub fn payload_size(len: usize) -> u64
    requires { len < 2 ^ 63 }
    ensures { result ≡ payload_size len }
{
    (HEADER_SIZE + len) as u64
}

// Header and bytes of a name, into the part of the heap that starts at the payload.
pub fn write_payload<N: Name>(to: &mut [u8], hashed: Hashed<N>)
    requires { payload_size (length (N.bytes hashed.name)) ≤ length to.old }
    ensures { to.new ≡ over (payload_of (N.bytes hashed.name) hashed.hash) to.old }
{
    memory::store::<4>(to, 0, hashed.name.len() as u64);
    memory::store::<4>(to, 4, u64::from(hashed.hash));
    hashed.name.write(&mut to[HEADER_SIZE..]);
}

// Where the pushed bytes of a heap lie: the address of the first of them, and how many there are.
#[derive(Clone, Copy)]
pub struct Extent {
    pub base: u64,
    pub len: usize,
}

impl Extent {
    // Whether the header of the string at v lies in them.
    pub fn has_header(self, v: u64) -> bool
        ensures { result ≡ reaches self.base self.len v 8 }
    {
        if v < self.base || self.len < HEADER_SIZE {
            return false;
        }
        v - self.base <= (self.len - HEADER_SIZE) as u64
    }
}

// The pushed bytes of a heap, and the address of the first of them.
#[derive(Clone, Copy)]
pub struct Pushed<'a> {
    pub base: u64,
    pub bytes: &'a [u8],
}

impl<'a> Pushed<'a> {
    pub fn extent(self) -> Extent
        ensures { (result.base ≡ self.entry.base) × (result.len ≡ length self.entry.bytes.now) }
    {
        Extent {
            base: self.base,
            len: self.bytes.len(),
        }
    }

    // The bytes of the string at v, if it has this length and hash and lies in the pushed bytes.
    fn bytes_of(self, len: usize, hash: u32, v: u64) -> Option<&'a [u8]>
        ensures { MatchOption result
            (headed self.entry.base self.entry.bytes.now len hash v ≡ false)
            (λ bs. (headed self.entry.base self.entry.bytes.now len hash v ≡ true)
            × (bs.now ≡ bytes_at self.entry.base self.entry.bytes.now v len)) }
    {
        let bytes = self.bytes;
        if !self.extent().has_header(v) {
            return None;
        }
        let at = (v - self.base) as usize;
        if memory::load::<4>(bytes, at) != len as u64 {
            return None;
        }
        if memory::load::<4>(bytes, at + 4) != u64::from(hash) {
            return None;
        }
        let from = at + HEADER_SIZE;
        if bytes.len() - from < len {
            return None;
        }
        Some(&bytes[from..from + len])
    }

    // Whether the string at v is the name.
    pub fn is_string<N: Name>(self, hashed: Hashed<N>, v: u64) -> bool
        ensures { result ≡ holds self.entry.base self.entry.bytes.now (N.bytes hashed.name) hashed.hash v }
    {
        match self.bytes_of(hashed.name.len(), hashed.hash, v) {
            Some(bytes) => hashed.name.is(bytes),
            None => false,
        }
    }
}
