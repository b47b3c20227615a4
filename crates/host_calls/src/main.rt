// Each of the machine's calls, with a refused one of each number from 9 to 18 and the ends 0, 1, 5 and 8, printed: a label, and what was answered.
#![tactic(auto)]

ghost use Rattle.std.specs.Prelude.{◌≡◌, ◌+◌, length};

use anomaly::{End, Refusal, Steps};
use names::to_name::{Small, ToName};
use program::HEADER;
use std::io;
use vm::{State, start};

const BASE: u64 = 0x1_0000;

const HALT: u64 = 59;

// What is lent to the calls of a machine.
#[derive(Clone, Copy)]
struct Lent {
    frames: [u64; 4],
    heap: [u8; 8192],
    slots: [u64; 64],
    spare: [u64; 64],
}

#[derive(Clone, Copy)]
struct Machine {
    state: State,
    lent: Lent,
}

// An image of code alone: the nine ends of its sections are its length, and the code follows.
fn image<const N: usize>(code: &[u64]) -> [u64; N]
    requires { HEADER + length code.now ≡ N }
{
    let mut words = [N as u64; N];
    let sections = &mut words[..];
    sections[HEADER..].copy_from_slice(code);
    words
}

fn print_refused(rt: &impl Print, label: &str, why: Refusal) -> io::Result<()> {
    println!(rt; "{label}: refused {:02x}", why.number())
}

fn print_value(rt: &impl Print, label: &str, called: Result<u64, Refusal>) -> io::Result<()> {
    match called {
        Ok(v) => println!(rt; "{label}: value {v:016x}"),
        Err(why) => print_refused(rt, label, why),
    }
}

fn print_done(rt: &impl Print, label: &str, called: Result<(), Refusal>) -> io::Result<()> {
    match called {
        Ok(()) => println!(rt; "{label}: done"),
        Err(why) => print_refused(rt, label, why),
    }
}

fn print_end(rt: &impl Print, label: &str, called: Result<End, Refusal>) -> io::Result<()> {
    let end = match called {
        Ok(end) => end,
        Err(why) => return print_refused(rt, label, why),
    };
    println!(rt;
        "{label}: end {:02x} at {:016x} after {:08x}",
        end.number(),
        end.pc(),
        end.steps()
    )
}

// A start on a lone Halt.
fn start(base: u64, lent: &mut Lent) -> Result<State, Refusal> {
    let halt: [u64; 10] = image(&[HALT]);
    start::start(
        base,
        &halt,
        &mut lent.frames,
        &mut lent.heap,
        &lent.slots,
        &lent.spare,
    )
}

impl Machine {
    fn run(
        &mut self,
        rt: &impl Print,
        label: &str,
        budget: Steps,
        image: &[u64],
    ) -> io::Result<()> {
        let called = run::run(
            &mut self.state,
            budget,
            image,
            &mut self.lent.frames,
            &mut self.lent.heap,
        );
        print_end(rt, label, called)
    }

    // A run of one word and a Halt.
    fn run_word(&mut self, rt: &impl Print, label: &str, word: u64) -> io::Result<()> {
        let code: [u64; 11] = image(&[word, HALT]);
        self.run(rt, label, 1, &code)
    }

    fn print_registers(&self, rt: &impl Print) -> io::Result<()> {
        let State {
            regs,
            pc,
            depth,
            ..
        } = self.state;
        println!(rt;
            "  r0 {:016x}, r1 {:016x}, pc {pc:016x}, depth {depth:04x}",
            regs[0], regs[1]
        )
    }

    fn intern<G: ToName>(&mut self, given: G) -> Result<u64, Refusal> {
        let Lent {
            heap,
            slots,
            spare,
            ..
        } = &mut self.lent;
        names::intern(&mut self.state, given, heap, slots, spare)
    }

    fn allocate(
        &mut self,
        rt: &impl Print,
        label: &str,
        align: usize,
        size: u64,
    ) -> io::Result<()> {
        let called = self.state.allocate(1, align, size, &mut self.lent.heap);
        print_value(rt, label, called)
    }

    fn new_option(&mut self, rt: &impl Print, label: &str, value: Option<u64>) -> io::Result<()> {
        let called = self.state.new_option(value, &mut self.lent.heap);
        print_value(rt, label, called)
    }

    fn set_register(&mut self, rt: &impl Print, label: &str, register: usize) -> io::Result<()> {
        print_done(rt, label, self.state.set_register(register, 1))
    }

    fn reset(&mut self, rt: &impl Print) -> io::Result<()> {
        print_done(rt, "reset", self.state.reset(&mut self.lent.frames))
    }
}

// LoadI r0, 7; IAddI r1, r0, -1; Halt
fn runs(rt: &impl Print, machine: &mut Machine) -> io::Result<()> {
    let code: [u64; 12] = image(&[0x0000_0007_0000_001b, 0xffff_ffff_0000_0101, HALT]);
    machine.run(rt, "run", 10, &code)?;
    machine.print_registers(rt)?;
    machine.run(rt, "run from the Halt on", 10, &code)?;
    machine.state.set_pc(0);
    machine.run(rt, "run with budget 0", 0, &code)?;
    let _ = machine.state.set_register(0, 1);
    machine.run(rt, "run with budget 2", 2, &code)?;
    machine.print_registers(rt)?;
    machine.state.set_pc(0);
    // IDiv r1, r0, r2; Halt
    let stops: [u64; 11] = image(&[0x0000_0000_0200_0106, HALT]);
    machine.run(rt, "run that divides by zero", 10, &stops)?;
    machine.print_registers(rt)?;
    machine.reset(rt)?;
    machine.print_registers(rt)?;
    machine.run(rt, "run after reset", 10, &code)
}

// Ret; Halt, run twice from its beginning: from the root to the last Halt, which leaves depth 0; then at depth 0.
fn returns(rt: &impl Print, machine: &mut Machine) -> io::Result<()> {
    let before = machine.state;
    let code: [u64; 11] = image(&[57, HALT]);
    machine.state.set_pc(0);
    machine.run(rt, "run that returns from the root", 10, &code)?;
    machine.print_registers(rt)?;
    machine.state.set_pc(0);
    machine.run(rt, "run that returns at depth 0", 10, &code)?;
    machine.print_registers(rt)?;
    // what follows goes on from the state before
    machine.state = before;
    Ok(())
}

// What a run refuses of state and buffers, then of the image, in the order of the numbers.
fn refused_runs(rt: &impl Print, machine: &mut Machine) -> io::Result<()> {
    let halt: [u64; 10] = image(&[HALT]);
    let nop: [u64; 10] = image(&[60]);
    // one table, whose one target is place 1 of code that has no such place
    let table: [u64; 13] = [10, 10, 11, 12, 13, 13, 13, 13, 13, HALT, 1, 1, 1];
    let depth = machine.state.depth;
    machine.state.depth = machine.lent.frames.len() + 1;
    machine.run(rt, "run at a depth above the frames", 1, &halt)?;
    machine.state.depth = depth;
    let called = run::run(
        &mut machine.state,
        1,
        &halt,
        &mut machine.lent.frames,
        &mut [],
    );
    print_end(rt, "run with no heap", called)?;
    machine.run(rt, "run of code without a Halt", 1, &nop)?;
    machine.run_word(rt, "run of an opcode that is not carried", 42)?;
    machine.run_word(rt, "run of a word with register 32", 0x201a)?;
    machine.run_word(rt, "run of a jump past the code", 0x0002_001d)?;
    machine.run_word(rt, "run of a global that is not there", 0x1c)?;
    machine.run(rt, "run with a table's target past the code", 1, &table)
}

fn blocks(rt: &impl Print, machine: &mut Machine) -> io::Result<()> {
    machine.allocate(rt, "allocate 40 bytes", 8, 40)?;
    machine.allocate(rt, "allocate with an alignment of 3", 3, 40)?;
    machine.allocate(rt, "allocate 2^20 bytes", 8, 0x10_0000)?;
    machine.new_option(rt, "option of 5", Some(5))?;
    machine.new_option(rt, "option of none", None)
}

fn names(rt: &impl Print, machine: &mut Machine) -> io::Result<()> {
    print_value(rt, "intern nothing", machine.intern(b"".as_slice()))?;
    print_value(rt, "intern gold", machine.intern(b"gold".as_slice()))?;
    print_value(rt, "intern gold again", machine.intern(b"gold".as_slice()))?;
    let word = 0x646c_6f67;
    print_value(
        rt,
        "intern gold as a word",
        machine.intern(Small { len: 4, word }),
    )?;
    print_value(
        rt,
        "intern 9 bytes as a word",
        machine.intern(Small { len: 9, word: 0 }),
    )
}

// 30 names more, and one that 64 slots have no room for.
fn many_names(rt: &impl Print, machine: &mut Machine) -> io::Result<()> {
    for word in 1..31 {
        let _ = machine.intern(Small { len: 1, word });
    }
    print_value(
        rt,
        "intern the 32nd name",
        machine.intern(Small { len: 1, word: 30 }),
    )?;
    print_value(
        rt,
        "intern the 33rd name",
        machine.intern(Small { len: 1, word: 31 }),
    )
}

fn main(rt: HostRuntime) -> io::Result<()> {
    let mut lent = Lent {
        frames: [0; 4],
        heap: [0; 8192],
        slots: [0; 64],
        spare: [0; 64],
    };
    let odd = start(100, &mut lent);
    print_done(&rt, "start at no page's address", odd.map(|_| ()))?;
    let begun = start(BASE, &mut lent);
    print_done(&rt, "start", begun.map(|_| ()))?;
    let Ok(state) = begun else {
        return Ok(());
    };
    let mut machine = Machine { state, lent };
    machine.print_registers(&rt)?;
    machine.set_register(&rt, "set register 32", 32)?;
    runs(&rt, &mut machine)?;
    returns(&rt, &mut machine)?;
    refused_runs(&rt, &mut machine)?;
    blocks(&rt, &mut machine)?;
    names(&rt, &mut machine)?;
    many_names(&rt, &mut machine)
}
