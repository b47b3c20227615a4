// Interning over a state: the machine's two calls, by what is given. `interner` has them over the numbers that they need.
#![tactic(auto)]

ghost use Rattle.std.specs.Prelude.{◌≡◌};
ghost use Rattle.vm.specs.Machine.{Lent, lend_names, value, host, perform};
ghost use Rattle.vm.specs.Told.{machine_of, answer_by, told};

pub mod interner;
pub mod to_name;

use anomaly::Refusal;
use interner::Names;
use to_name::ToName;
use vm::State;

pub fn intern<G: ToName>(
    state: &mut State,
    given: G,
    heap: &mut [u8],
    slots: &mut [u64],
    spare: &mut [u64],
) -> Result<u64, Refusal>
    ensures { (l : Lent)
        → told (answer_by value result) state.new (lend_names heap.new slots.new spare.new l)
        ≡ perform (host (G.call given))
        (machine_of state.old (lend_names heap.old slots.old spare.old l)) }
{
    let mut names = Names::from(&*state);
    let value = names.intern(given, heap, slots, spare);
    state.gc = names.gc;
    state.strings = names.strings;
    value
}
