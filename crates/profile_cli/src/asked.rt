ghost use Rattle.std.specs.Prelude.{◌≡◌, Ok, Result};
ghost use Rattle.flow_io.specs.Flow.{documents};
ghost use Rattle.profile_cli.specs.Input.{names_of};
ghost use Rattle.profile_cli.specs.Queue.{queue_of, seen};
ghost use Rattle.profile_cli.specs.Run.{Leaves};
ghost use Rattle.command_words.specs.Texts.{bytes_of};
ghost use Rattle.command_words.specs.Usage.{IsWithinLimits, asked_of};

use crate::command::Command;
use crate::ending::Ending;
use crate::input::read_input;
use crate::queue_run::{Ran, run_queue};
use crate::rails::{Closed, Rails};
use crate::writing::{Results, write_results};
use flow_io::{Clock, Sink, Source, TraceStore};
use std::alloc::Global;
use std::sync::Wait;
use std::thread::Threads;
use word_workers::Gate;

/// How a run ended, and the queue that it closed.
#[derive(Drop)]
pub struct Ended<R: Rails> {
    pub ending: Ending,
    pub closed: Closed<R>,
}

/// Reads the texts that are asked for, counts their words by workers that note their spans in a
/// queue, and writes the counts and the trace.
pub fn carry_out<
    X: Threads + Wait + Sync,
    F: Source,
    O: Sink,
    T: TraceStore,
    C: Clock,
    G: Gate,
    R: Rails,
>(
    rt: &X,
    alloc: Global,
    command: &Command,
    files: &mut F,
    out: &mut O,
    trace: &mut T,
    clock: &C,
    gate: &G,
    rails: &R,
) -> Ended<R>
    requires ready { O.ready out.old }
    requires limits { IsWithinLimits command.now.options }
    requires names { bytes_of command.now.names.items ≡ names_of (asked_of command.now.options) }
    ensures leaves { Leaves (Ok (asked_of command.now.options)) (F.files files.old) (record {
      queue = queue_of
          (seen R.Retry.MOST_SEATS R.Retry.done_shape R.Retry.done_accepted
          R.Retry.done_taken R.Retry.done_left)
          (seen R.DropOld.MOST_SEATS R.DropOld.done_shape R.DropOld.done_accepted
          R.DropOld.done_taken R.DropOld.done_left) result.closed;
      clock = C.ticks clock.now;
      faults_before = F.faults files.old;
      faults_after = F.faults files.new;
      before = record {
        out = O.told out.old;
        out_faults = O.faults out.old;
        documents = documents (T.told trace.old) (T.beside trace.old);
        store_faults = T.faults trace.old;
      };
      after = record {
        out = O.told out.new;
        out_faults = O.faults out.new;
        documents = documents (T.told trace.new) (T.beside trace.new);
        store_faults = T.faults trace.new;
      };
    }) result.ending }
    ensures files { F.files files.new ≡ F.files files.old }
    ensures beside { O.beside out.new ≡ O.beside out.old }
    ensures ready { O.ready out.new }
{
    let options = &command.options;
    let planned = match read_input(alloc, files, options) {
        Ok(planned) => planned,
        Err(ending) => {
            return Ended {
                ending,
                closed: Closed::Nothing,
            };
        }
    };
    let texts = planned.texts.as_slice();
    let ran = run_queue(rt, alloc, options, &planned.plan, texts, clock, gate, rails);
    let Ok(ran) = ran else {
        return Ended {
            ending: Ending::OutOfMemory,
            closed: Closed::Nothing,
        };
    };
    let Ran {
        counts,
        closed,
        accepted,
        events,
    } = ran;
    let results = Results {
        counts: &counts,
        trace: options.trace.as_str(),
        names: command.names.as_slice(),
        events: events.as_slice(),
        accepted,
        fold: options.fold,
    };
    let ending = write_results(alloc, &results, out, trace);
    Ended { ending, closed }
}
