// A name as a caller has it: its bytes, or at most 8 of them packed into a word.
ghost use Rattle.std.specs.Prelude.{◌≡◌, ℕ, ◌+◌, ◌≤◌, ◌<◌, ◌^◌, List, length};
ghost use Rattle.memory.specs.Lists.{over, same};
ghost use Rattle.string.specs.Hash.{hash_of};
ghost use Rattle.string.specs.Payload.{small_ok};

use crate::fxhash;

pub trait Name: Copy {
    // the name's bytes
    ghost bytes: { Self → List ℕ };

    fn len(self) -> usize
        ensures { (result ≡ length (bytes self)) × (result < 2 ^ 63) };

    fn hash(self) -> u32
        ensures { result ≡ hash_of (bytes self) };

    // Whether as many bytes as the name has are the name's.
    fn is(self, s: &[u8]) -> bool
        requires { length s.now ≡ length (bytes self) }
        ensures { result ≡ same s.now (bytes self) };

    // The name's bytes, over the beginning of `to`.
    fn write(self, to: &mut [u8])
        requires { length (bytes self) ≤ length to.old }
        ensures { to.new ≡ over (bytes self) to.old };
}

// A name with a hash that was taken of it before.
#[derive(Clone, Copy)]
pub struct Hashed<N: Name> {
    pub name: N,
    pub hash: u32,
}

impl<N: Name> Hashed<N> {
    // With its own hash.
    pub fn of(name: N) -> Hashed<N>
        ensures { (result.name ≡ name) × (result.hash ≡ hash_of (N.bytes name)) }
    {
        Hashed {
            name,
            hash: name.hash(),
        }
    }
}

impl<'a> Name for &'a [u8] {
    ghost bytes = { λ s. s.now };

    fn len(self) -> usize {
        self.len()
    }

    fn hash(self) -> u32 {
        fxhash::hash(self)
    }

    fn is(self, s: &[u8]) -> bool {
        s == self
    }

    fn write(self, to: &mut [u8]) {
        memory::copy(self, to);
    }
}

fn is_small(len: usize, word: u64) -> bool
    ensures { result ≡ small_ok len word }
{
    len == 8 || len < 8 && word >> (len * 8) == 0
}

// At most 8 bytes as `small_word` packs them.
#[derive(Clone, Copy)]
pub struct SmallName {
    pub len: usize,
    pub word: u64,
    ghost few: { len ≤ 8 },
    ghost padded: { word < 256 ^ len },
}

impl SmallName {
    ghost use Rattle.std.specs.Prelude.{◌↔◌, IsSome, IfSome, IsTrue};

    // None for more than 8 bytes, and where something is above them: refusal 17.
    pub fn new(len: usize, word: u64) -> Option<SmallName>
        ensures small { IsSome result ↔ IsTrue (small_ok len word) }
        ensures parts { IfSome result (λ name. (name.len ≡ len) × (name.word ≡ word)) }
    {
        if !is_small(len, word) {
            return None;
        }
        Some(SmallName { len, word })
    }
}

impl Name for SmallName {
    ghost use Rattle.string.specs.Payload.{small_name};

    ghost bytes = { λ name. small_name name.len name.word };

    fn len(self) -> usize {
        self.len
    }

    fn hash(self) -> u32 {
        fxhash::small_hash(self.len as u64, self.word)
    }

    fn is(self, s: &[u8]) -> bool {
        fxhash::small_word(s) == self.word
    }

    fn write(self, to: &mut [u8]) {
        memory::copy(&self.word.to_le_bytes()[..self.len], to);
    }
}
