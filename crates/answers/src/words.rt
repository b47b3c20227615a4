// A state in 64-bit words: registers 0 to 31, pc, depth; the heap's base, pushed bytes, last page and its length; active slots, names.
ghost use Rattle.std.specs.Prelude.{◌≡◌, ◌≤◌, length};
ghost use Rattle.memory.specs.Lists.{over};
ghost use Rattle.vm.specs.declared.State.{State};
ghost use Rattle.names.specs.Interned.{names_of, in_state};
ghost use Rattle.answers.specs.Words.{state_words, packed, unpacked};

use gc::Gc;
use names::interner::Names;
use str_table::StrTable;
use vm::State;

// The words of a state and none behind them.
pub type Words = [u64; 40];

// The numbers of heap and table, in words 34 to 39.
pub fn unpack_names(words: &[u64]) -> Names
    requires { state_words ≤ length words.now }
    ensures { result ≡ names_of (unpacked words.now) }
{
    Names {
        gc: Gc {
            base: words[34],
            pushed: words[35] as usize,
            page: words[36] as usize,
            len: words[37] as usize,
        },
        strings: StrTable {
            active: words[38] as usize,
            len: words[39] as usize,
        },
    }
}

pub fn unpack(words: &[u64]) -> State
    requires { state_words ≤ length words.now }
    ensures { result ≡ unpacked words.now }
{
    let mut regs = [0; 32];
    regs.copy_from_slice(&words[..32]);
    let Names { gc, strings } = unpack_names(words);
    State {
        regs,
        pc: words[32] as usize,
        depth: words[33] as usize,
        gc,
        strings,
    }
}

// What a call leaves of a state: all of it, or the numbers of heap and table, which are what an interning changes.
pub trait PackFront: Copy {
    // the state that this leaves, of the one from before
    ghost leaves: { Self → State → State };

    // Words past those of the state stay as they are: so a slice of 40 or more, and no array.
    fn pack_front(self, words: &mut [u64])
        requires { state_words ≤ length words.old }
        ensures { words.new ≡ over (packed (leaves self (unpacked words.old))) words.old };
}

impl PackFront for State {
    ghost leaves = { λ state before. state };

    fn pack_front(self, words: &mut [u64]) {
        words[..32].copy_from_slice(&self.regs);
        words[32] = self.pc as u64;
        words[33] = self.depth as u64;
        Names::from(&self).pack_front(words);
    }
}

impl PackFront for Names {
    ghost leaves = { λ names before. in_state before names };

    fn pack_front(self, words: &mut [u64]) {
        let Names { gc, strings } = self;
        words[34..40].copy_from_slice(&[
            gc.base,
            gc.pushed as u64,
            gc.page as u64,
            gc.len as u64,
            strings.active as u64,
            strings.len as u64,
        ]);
    }
}

// The same over the words alone, for a type whose `pack` takes an array.
pub trait Pack: Copy {
    // the state that this leaves, of the one from before
    ghost leaves: { Self → State → State };

    fn pack(self, words: &mut Words)
        ensures { words.new ≡ over (packed (leaves self (unpacked words.old))) words.old };
}

impl Pack for State {
    ghost leaves = { λ state before. state };

    fn pack(self, words: &mut Words) {
        self.pack_front(words);
    }
}

impl Pack for Names {
    ghost leaves = { λ names before. in_state before names };

    fn pack(self, words: &mut Words) {
        PackFront::pack_front(self, words);
    }
}
