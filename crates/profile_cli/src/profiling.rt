ghost use Rattle.std.specs.Prelude.{◌≡◌};
ghost use Rattle.flow_io.specs.Flow.{documents};
ghost use Rattle.profile_cli.specs.Endings.{detail_of, status_of};
ghost use Rattle.profile_cli.specs.Queue.{queue_of, seen};
ghost use Rattle.profile_cli.specs.Run.{Ends};
ghost use Rattle.command_words.specs.Texts.{bytes_of};
ghost use Rattle.command_words.specs.Usage.{usage};

use crate::asked::{Ended, carry_out};
use crate::command::read_command;
use crate::ending::Ending;
use crate::messages::say_ending;
use crate::rails::{Closed, Rails, Report};
use flow_io::{Clock, Sink, Source, TraceStore};
use std::alloc::Global;
use std::sync::Wait;
use std::thread::Threads;
use word_workers::Gate;

/// All that the command does: it counts the words of the generated text and of the FILEs by workers
/// that note their spans in a queue, and writes the counts, the trace and, where it can't, a message.
pub fn profile<
    X: Threads + Wait + Sync,
    F: Source,
    O: Sink,
    M: Sink,
    T: TraceStore,
    C: Clock,
    G: Gate,
    R: Rails,
>(
    rt: &X,
    alloc: Global,
    words: &[String],
    files: &mut F,
    out: &mut O,
    messages: &mut M,
    trace: &mut T,
    clock: &C,
    gate: &G,
    rails: &R,
) -> Report<R>
    requires out { O.ready out.old }
    requires messages { M.ready messages.old }
    ensures leaves { Ends (usage (bytes_of words.now)) (F.files files.old)
        (record { status = result.status; detail = result.detail }) (
          record { told = M.told messages.old; faults = M.faults messages.old },
          record { told = M.told messages.new; faults = M.faults messages.new },
        )
        (record {
          queue = queue_of
              (seen R.Retry.MOST_SEATS R.Retry.done_shape R.Retry.done_accepted
              R.Retry.done_taken R.Retry.done_left)
              (seen R.DropOld.MOST_SEATS R.DropOld.done_shape R.DropOld.done_accepted
              R.DropOld.done_taken R.DropOld.done_left) result.closed;
          clock = C.ticks clock.now;
          faults_before = F.faults files.old;
          faults_after = F.faults files.new;
          before = record {
            out = O.told out.old;
            out_faults = O.faults out.old;
            documents = documents (T.told trace.old) (T.beside trace.old);
            store_faults = T.faults trace.old;
          };
          after = record {
            out = O.told out.new;
            out_faults = O.faults out.new;
            documents = documents (T.told trace.new) (T.beside trace.new);
            store_faults = T.faults trace.new;
          };
        }) }
    ensures files { F.files files.new ≡ F.files files.old }
    ensures out_beside { O.beside out.new ≡ O.beside out.old }
    ensures out_ready { O.ready out.new }
    ensures messages_beside { M.beside messages.new ≡ M.beside messages.old }
    ensures messages_ready { M.ready messages.new }
{
    match read_command(alloc, words) {
        Ok(command) => {
            let Ended { ending, closed } = carry_out(
                rt, alloc, &command, files, out, trace, clock, gate, rails,
            );
            say_ending(messages, ending, command.names.as_slice());
            report(ending, closed)
        }
        Err(error) => {
            let ending = Ending::without_options(error);
            say_ending(messages, ending, &[]);
            report(ending, Closed::Nothing)
        }
    }
}

// The report of an ending, with the queue that was closed.
fn report<R: Rails>(ending: Ending, closed: Closed<R>) -> Report<R>
    ensures status { result.status ≡ status_of ending }
    ensures detail { result.detail ≡ detail_of ending }
    ensures closed { result.closed ≡ closed }
{
    Report {
        status: ending.status(),
        detail: ending.detail(),
        closed,
    }
}
