// FxHash over 8-byte chunks, seeded by the length and folded to 32 bits.
ghost use Rattle.std.specs.Prelude.{◌≡◌, ◌≤◌, length};
ghost use Rattle.memory.specs.Bytes.{value_of};
ghost use Rattle.string.specs.Hash.{mixed, folded, hash_of, small_hash_of};

const MULTIPLIER: u64 = 0x517c_c1b7_2722_0a95;

fn mix(h: u64, chunk: u64) -> u64
    ensures { result ≡ mixed h chunk }
{
    value::int::wrapping_mul(h.rotate_left(5) ^ chunk, MULTIPLIER)
}

fn fold(h: u64) -> u32
    ensures { result ≡ folded h }
{
    ((h ^ (h >> 32)) % 0x1_0000_0000) as u32
}

// At most 8 bytes as a little-endian number, zero above. A load of its own for each length: one of a length that is not known is a
// call of memcpy, and then waits for what that stored.
pub fn small_word(bytes: &[u8]) -> u64
    requires { length bytes.now ≤ 8 }
    ensures { result ≡ value_of bytes.now }
{
    match bytes.len() {
        0 => 0,
        1 => memory::load::<1>(bytes, 0),
        2 => memory::load::<2>(bytes, 0),
        3 => memory::load::<3>(bytes, 0),
        4 => memory::load::<4>(bytes, 0),
        5 => memory::load::<5>(bytes, 0),
        6 => memory::load::<6>(bytes, 0),
        7 => memory::load::<7>(bytes, 0),
        _ => memory::load::<8>(bytes, 0),
    }
}

// The hash of the at most 8 bytes that `small_word` packed into `word`.
pub fn small_hash(len: u64, word: u64) -> u32
    ensures { result ≡ small_hash_of len word }
{
    fold(mix(len, word))
}

pub fn hash(bytes: &[u8]) -> u32
    ensures { result ≡ hash_of bytes.now }
{
    let (chunks, tail) = bytes.as_chunks::<8>();
    let mut h = bytes.len() as u64;
    for chunk in chunks {
        h = mix(h, u64::from_le_bytes(*chunk));
    }
    if !tail.is_empty() {
        h = mix(h, small_word(tail));
    }
    fold(h)
}
