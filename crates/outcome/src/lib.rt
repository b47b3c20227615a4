// What is written of a run: its report.
#![tactic(auto)]

ghost use Rattle.std.specs.Prelude.{◌≡◌};
ghost use Rattle.vm.specs.Told.{answer_of};
ghost use Rattle.outcome.specs.Outcome.{run_text};

use anomaly::End;
use report::{Summary, Text, report_text};
use vm::State;

// The report of a run that was not refused.
#[tactic(auto, using(crate::proofs::Texts::run_reported))]
pub fn run_text(end: End, state: &State) -> Text
    ensures { result.bytes ≡ run_text (answer_of end) state.now }
{
    let summary = Summary {
        end: end.number(),
        pc: end.pc(),
        steps: end.steps(),
        depth: state.depth,
        pushed: state.gc.pushed,
        len: state.gc.len,
        strings: state.strings.len,
    };
    report_text(&summary, &state.regs)
}
