ghost use Rattle.std.specs.Prelude.{None, ◌≡◌, ℕ, ◌+◌, ◌<◌, ◌≤◌, ◌⊎◌, List, length, sum_by, IfOk, IfErr};
ghost use Rattle.flow_io.specs.Flow.{Rose};
ghost use Rattle.word_text.specs.Pieces.{plan_of};
ghost use Rattle.profile_cli.specs.Input.{CanRun, IsDue, IsInput, StopsReading, input_of, origins_of};
ghost use Rattle.profile_cli.specs.Run.{Closes, SourceFaults};
ghost use Rattle.command_words.specs.Usage.{IsWithinLimits, asked_of};
ghost use Rattle.profile_cli.specs.Texts.{input_limit};

use crate::ending::Ending;
use crate::plans::plan_all;
use crate::texts::read_all;
use command_words::Options;
use flow_io::Source;
use std::alloc::Global;
use word_text::{Plan, PlanError, Text};

/// The texts that are asked for, and the pieces into which they are cut.
#[derive(Drop)]
pub struct Planned {
    pub texts: Vec<Text>,
    pub plan: Plan,
}

/// Reads the texts that are asked for, and cuts them into pieces.
pub fn read_input<F: Source>(
    alloc: Global,
    files: &mut F,
    options: &Options,
) -> Result<Planned, Ending>
    requires limits { IsWithinLimits options.now }
    ensures files { F.files files.new ≡ F.files files.old }
    ensures quiet { IfOk result (λ _. F.faults files.new ≡ F.faults files.old) }
    ensures size { IfOk result (λ planned. sum_by length planned.texts.items ≤ input_limit) }
    ensures plan { IfOk result (λ planned.
        planned.plan ≡ plan_of planned.texts.items options.now.piece) }
    ensures read { IfOk result (λ planned.
        let input = input_of (origins_of (asked_of options.now)) (F.files files.old)
        planned.texts.items in IsInput input × CanRun input options.now.piece) }
    ensures unrun { IfErr result (λ ending. Closes ending None) }
    ensures faults { IfErr result (λ ending.
        SourceFaults ending (F.faults files.old) (F.faults files.new)) }
    ensures stopped { IfErr result (λ ending. (texts : List (List ℕ)) × (
        let input = input_of (origins_of (asked_of options.now)) (F.files files.old) texts in
        IsInput input × (IsDue options.now.piece input ending
        ⊎ StopsReading input (Rose (F.faults files.old) (F.faults files.new)) ending))) }
{
    let texts = read_all(alloc, files, options)?;
    match plan_all(alloc, texts.as_slice(), options.piece) {
        Ok(plan) => Ok(Planned { texts, plan }),
        Err(PlanError::TooMany) => Err(Ending::TooManyPieces),
        Err(PlanError::Memory) => Err(Ending::OutOfMemory),
    }
}
