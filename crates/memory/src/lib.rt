// Lent memory: little-endian numbers in bytes, and copies. Every write to the heap goes through these, but for the zeros of a new page.
#![tactic(auto)]

ghost use Rattle.std.specs.Prelude.{◌≡◌, ◌+◌, ◌≤◌, ◌<◌, ◌^◌, length};
ghost use Rattle.memory.specs.Bytes.{bytes_of, number};
ghost use Rattle.memory.specs.Lists.{over, write};

// The number of the N bytes that stand at `at`.
pub fn load<const N: usize>(s: &[u8], at: usize) -> u64
    requires word { N ≤ 8 }
    requires room { at + N ≤ length s.now }
    ensures value { result ≡ number N at s.now }
    ensures small { result < 256 ^ N }
{
    let mut bytes = [0; 8];
    bytes[..N].copy_from_slice(&s[at..at + N]);
    u64::from_le_bytes(bytes)
}

// The lowest N bytes of a number, written at `at`.
pub fn store<const N: usize>(s: &mut [u8], at: usize, v: u64)
    requires word { N ≤ 8 }
    requires room { at + N ≤ length s.old }
    ensures { s.new ≡ write at (bytes_of N v) s.old }
{
    let bytes = v.to_le_bytes();
    s[at..at + N].copy_from_slice(&bytes[..N]);
}

// `from` over the beginning of `to`. Between two lent slices `copy_from_slice` would be a call of memmove, and the machine's library
// is to need memcpy and memset alone.
pub fn copy<T: Copy>(from: &[T], to: &mut [T])
    requires { length from.now ≤ length to.old }
    ensures { to.new ≡ over from.now to.old }
{
    // by index: of what is written through `iter_mut` a proof knows the length alone
    for (i, x) in from.iter().enumerate() {
        to[i] = *x;
    }
}
