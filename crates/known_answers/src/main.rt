// Known answers of the crates below the machine, printed: a label, a number in hexadecimal.
#![tactic(auto)]

use gc::{AllocType, Gc, Heap, Metadata};
use std::io;
use str_table::StrTable;
use string::fxhash::{hash, small_hash};
use string::name::Hashed;
use string::payload::{Pushed, write_payload};
use value::int::DivisionError;
use value::{Value, double, int};

fn lines(rt: &impl Print, rows: &[(&str, u64)]) -> io::Result<()> {
    for (label, n) in rows {
        println!(rt; "{label} {n:016x}")?;
    }
    Ok(())
}

fn hashes(rt: &impl Print) -> io::Result<()> {
    lines(
        rt,
        &[
            ("hash of nothing", u64::from(hash(b""))),
            ("hash of a", u64::from(hash(b"a"))),
            ("hash of abcdefgh", u64::from(hash(b"abcdefgh"))),
            ("hash of 0123456789", u64::from(hash(b"0123456789"))),
            ("small hash of nothing", u64::from(small_hash(0, 0))),
            ("small hash of a", u64::from(small_hash(1, 97))),
        ],
    )
}

// What is printed of a division: the pattern of its result, or 1 or 7, the ends of one that has none. That is no conversion of the
// error, which is no number elsewhere.
fn shown(d: Result<u64, DivisionError>) -> u64 {
    match d {
        Ok(p) => p,
        Err(DivisionError::ByZero) => 1,
        Err(DivisionError::Overflow) => 7,
    }
}

fn divisions(rt: &impl Print) -> io::Result<()> {
    let minus_seven = Value::from(-7_i64).0;
    let least = 0x8000_0000_0000_0000;
    lines(
        rt,
        &[
            ("-7 by 2", shown(int::div(minus_seven, 2))),
            ("-7 by 2, rest", shown(int::rem(minus_seven, 2))),
            ("7 by 0", shown(int::div(7, 0))),
            ("-2^63 by -1", shown(int::div(least, u64::MAX))),
            (
                "(2^63 + 1) squared",
                int::wrapping_mul(least + 1, least + 1),
            ),
        ],
    )
}

fn casts(rt: &impl Print) -> io::Result<()> {
    lines(
        rt,
        &[
            (
                "2^53 + 1 to double",
                Value(0x20_0000_0000_0001).int_to_f64().0,
            ),
            (
                "2^53 + 3 to double",
                Value(0x20_0000_0000_0003).int_to_f64().0,
            ),
            ("NaN to int", Value::NAN.f64_to_int().0),
            ("-0.5 to int", Value(0xbfe0_0000_0000_0000).f64_to_int().0),
            ("2^63 to int", Value(0x43e0_0000_0000_0000).f64_to_int().0),
            ("-2^63 to int", Value(0xc3e0_0000_0000_0000).f64_to_int().0),
            ("-0.0 to bool", Value(0x8000_0000_0000_0000).int_to_bool().0),
            (
                "0.1 + 0.2",
                double::add(0x3fb9_9999_9999_999a, 0x3fc9_9999_9999_999a),
            ),
            ("0.0 / 0.0", double::div(0, 0)),
        ],
    )
}

// The address of a block in a heap of two pages, of which one is pushed and has 32 bytes in use; or 2.
fn block(size: u64) -> u64 {
    let gc = Gc {
        base: 65536,
        pushed: 4096,
        page: 0,
        len: 32,
    };
    let mut heap = Heap {
        gc,
        bytes: &mut [0; 8192],
    };
    heap.alloc(Metadata::new(AllocType::Record, false, size))
        .unwrap_or(2)
}

fn blocks(rt: &impl Print) -> io::Result<()> {
    lines(
        rt,
        &[
            ("block of 4048", block(4048)),
            ("block of 4049", block(4049)),
            ("block of 4073", block(4073)),
            ("block of 2^64 - 1", block(u64::MAX)),
        ],
    )
}

// The value of the name `s` where `a` is stored at 65,584 and nothing else; or 0.
#[tactic(auto, unfolding(str_table::specs::Grow::room_of))]
fn found(s: &[u8]) -> u64 {
    let base = 65536;
    let mut heap = [0u8; 4096];
    let mut slots = [0u64; 64];
    let mut spare = [0u64; 64];
    let name: &[u8] = b"a";
    let hashed = Hashed::of(name);
    write_payload(&mut heap[48..], hashed);
    let pushed = Pushed { base, bytes: &heap };
    let t = StrTable { active: 0, len: 0 };
    t.insert(pushed, hashed.hash, 65584, &mut slots, &mut spare);
    str_table::get(pushed, &slots, Hashed::of(s)).unwrap_or(0)
}

fn names(rt: &impl Print) -> io::Result<()> {
    lines(
        rt,
        &[
            ("a is at", found(b"a")),
            ("b is at", found(b"b")),
            ("aa is at", found(b"aa")),
        ],
    )
}

// 0 for an instruction, or the refusal's number.
fn decoded(w: u64) -> u64 {
    match decoder::decode(w) {
        Ok(_) => 0,
        Err(why) => why.number(),
    }
}

fn words(rt: &impl Print) -> io::Result<()> {
    lines(
        rt,
        &[
            ("LoadI r0, 7", decoded(0x0000_0007_0000_001b)),
            ("Halt", decoded(0x0000_0000_0000_003b)),
            ("Sys", decoded(0x0000_0000_0000_0028)),
            ("Halt with a byte set", decoded(0x0000_0000_0000_013b)),
            ("register 32", decoded(0x0000_0000_0000_2000)),
            ("an align of 16", decoded(0x0000_0020_1003_0435)),
        ],
    )
}

fn main(rt: HostRuntime) -> io::Result<()> {
    hashes(&rt)?;
    divisions(&rt)?;
    casts(&rt)?;
    blocks(&rt)?;
    names(&rt)?;
    words(&rt)
}
