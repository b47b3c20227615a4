// The names of an image: each interned, its value the global that its line stands for.
#![tactic(auto)]

ghost use Rattle.std.specs.Prelude.{◌≡◌, ◌≤◌, length};
ghost use Rattle.text.specs.Names.{names_in};
ghost use Rattle.text.specs.Sections.{section_in};
ghost use Rattle.vm.specs.Machine.{Lent, lend_names, done};
ghost use Rattle.vm.specs.Told.{machine_of, answer_by, told};
ghost use Rattle.image_names.specs.Named.{intern_all};

use anomaly::Refusal;
use text::names::Names;
use text::sections::Section;
use vm::State;

// Every name in line order, its value the next global; the first that is refused ends it. `name` holds the bytes of one. The buffers
// are lent one by one, as to an interning.
pub fn intern_names(
    input: &[u8],
    state: &mut State,
    globals: &mut [u64],
    heap: &mut [u8],
    slots: &mut [u64],
    spare: &mut [u64],
    name: &mut [u8],
) -> Result<(), Refusal>
    requires { (length input.now ≤ 65536)
        × (length (section_in Section.Globals input.now) ≤ length globals.old)
        × (32768 ≤ length name.old) }
    ensures { (l : Lent)
        → record {
          called = told (answer_by (λ _. done) result) state.new (lend_names heap.new slots.new spare.new l);
          globals = globals.new;
        }
        ≡ intern_all (names_in input.now)
        (machine_of state.old (lend_names heap.old slots.old spare.old l)) globals.old }
{
    for named in Names::of(input) {
        let len = named.put_bytes(name);
        globals[named.global] = names::intern(state, &name[..len], heap, slots, spare)?;
    }
    Ok(())
}
