// What an interning is given: a name's bytes, or a length and a word, which may be no name.
ghost use Rattle.std.specs.Prelude.{◌≡◌, [], ◌∷◌, ◌++◌, List, IfOk, refl};
ghost use Rattle.string.specs.Payload.{small_ok};
ghost use Rattle.program.specs.Image.{Test, test, failing, refused_with};
ghost use Rattle.vm.specs.Machine.{Host, host, intern, intern_small, Found, name_tests, tests_by};
ghost use Rattle.names.specs.Interned.{Interns};

use anomaly::Refusal;
use string::name::{Name, SmallName};

pub trait ToName: Copy {
    type Name: Name;

    // the machine's call that interns it
    ghost call: { Self → Host };

    // what is tested of it, once 10 and 9 have passed
    ghost tests: { Self → List Test };

    // The name, or what it is refused for.
    fn to_name(self) -> Result<Self::Name, Refusal>
        ensures tested { refused_with result ≡ failing (tests self) }
        ensures named { IfOk result (λ name. Interns (call self) (Self.Name.bytes name)) };

    ghost after: { (x : Self) (f : Found) → tests_by (host (call x)) f ≡ name_tests f ++ tests x };
}

impl<'a> ToName for &'a [u8] {
    type Name = &'a [u8];

    ghost call = { λ s. intern s.now };

    ghost tests = { λ s. [] };

    ghost after = { λ s f. unfold tests_by in refl };

    fn to_name(self) -> Result<&'a [u8], Refusal> {
        Ok(self)
    }
}

// At most 8 bytes as `SmallName` has them, not tested yet.
#[derive(Clone, Copy)]
pub struct Small {
    pub len: usize,
    pub word: u64,
}

impl ToName for Small {
    type Name = SmallName;

    ghost call = { λ x. intern_small x.len x.word };

    ghost tests = { λ x. test (small_ok x.len x.word) 17 ∷ [] };

    ghost after = { λ x f. unfold tests_by in refl };

    fn to_name(self) -> Result<SmallName, Refusal> {
        SmallName::new(self.len, self.word).ok_or(Refusal::SmallString)
    }
}
