// The stored vectors, replayed: each image is handed to the runner, and its answer is compared with the stored one.
//
// Standard input, which tools/vectors makes, is a list of records:
//
//     == SUBJECT                    the cases up to the next such line are of this subject
//     -- SOURCE IIIII OOO NAME      a case, whose IIIII bytes of image and OOO bytes of answer follow; both are hexadecimal
//
// SOURCE has five characters: `rust ` for an answer that the original gave, `paper` for one that document 01 gives.
#![tactic(auto)]

mod records;
mod tally;

use arrayvec::ArrayVec;
use comparison::agrees;
use records::{Case, Record};
use std::io;
use std::io::Read;
use tally::{Counts, Tally};

// The longest list; what lies behind it is not read.
const MAX_LEN: usize = 1 << 20;

// A new subject: the count of the one before, and its name.
fn begin_subject(rt: &impl Print, name: &[u8], counts: Counts) -> io::Result<Counts> {
    if counts.subject != Tally::default() {
        rt.println(counts.subject)?;
    }
    rt.write_all(name)?;
    print!(rt; ": ")?;
    Ok(Counts {
        subject: Tally::default(),
        ..counts
    })
}

// A case: the name of one whose answer is not the stored one is printed.
fn replay_case(rt: &impl Print, case: &Case, counts: Counts) -> io::Result<Counts> {
    let agrees = agrees(case.image, case.answer);
    if !agrees {
        print!(rt; "[")?;
        rt.write_all(case.name)?;
        print!(rt; "] ")?;
    }
    Ok(counts.with(case.source, agrees))
}

fn print_totals(rt: &impl Print, counts: Counts) -> io::Result<()> {
    let Counts {
        subject,
        rust,
        paper,
    } = counts;
    let all = rust + paper;
    println!(rt; "{subject}\nrust: {rust}\npaper: {paper}\nall: {all}")
}

// Every record up to the end, or up to one that is malformed.
fn replay(rt: &impl Print, all: &[u8]) -> io::Result<()> {
    let mut counts = Counts::default();
    let mut rest = all;
    // a `while`, but it counts nothing: where the next record begins is known once this one is read
    while !rest.is_empty() {
        let Some((record, after)) = records::first(rest) else {
            let at = all.len() - rest.len();
            return println!(rt; "\nmalformed: the record at byte {at}");
        };
        counts = match record {
            Record::Subject(name) => begin_subject(rt, name, counts)?,
            Record::Case(case) => replay_case(rt, &case, counts)?,
        };
        rest = after;
    }
    print_totals(rt, counts)
}

fn main(rt: HostRuntime) -> io::Result<()> {
    let mut all = ArrayVec::<u8, MAX_LEN>::new();
    io::copy(&mut rt.reader().take(MAX_LEN as u64), &mut all)?;
    replay(&rt, &all)
}
