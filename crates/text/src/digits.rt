// Hexadecimal digits, lower case, highest first.
ghost use Rattle.std.specs.Prelude.{◌≡◌, ◌<◌, ◌≤◌, drop, SomeIff};
ghost use Rattle.text.specs.Digits.{value_of_digit, all_digits, field};

// The value of a digit. `char::to_digit` would take upper case too.
#[tactic(auto, using(std::proofs::lemmas::Bool::Decides::nat_tests), unfolding(crate::specs::Digits::value_of_digit))]
fn digit(c: u8) -> Option<u64>
    ensures { SomeIff result (value_of_digit c < 16) (value_of_digit c) }
{
    match c {
        b'0'..=b'9' => Some(u64::from(c - b'0')),
        b'a'..=b'f' => Some(u64::from(c - b'a' + 10)),
        _ => None,
    }
}

// What stands behind the first `n` digits.
pub fn behind(p: &[u8], n: usize) -> &[u8]
    ensures { result.now ≡ drop n p.now }
{
    &p[p.len().min(n)..]
}

// Whether every byte is a digit.
pub fn all_digits(s: &[u8]) -> bool
    ensures { result ≡ all_digits s.now }
{
    s.iter().all(|&c| digit(c).is_some())
}

// The number of `width` digits that starts at digit `from`, or of as many as there are.
#[tactic(auto, unfolding(crate::specs::Digits::read_on))]
pub fn number(p: &[u8], from: usize, width: usize) -> u64
    requires { width ≤ 16 }
    ensures { result ≡ field from width p.now }
{
    let mut w = 0;
    for &c in p.iter().skip(from).take(width) {
        w = w * 16 + digit(c).unwrap_or(0);
    }
    w
}
