ghost use Rattle.std.specs.Prelude.{◌≡◌, ◌≤◌, ◌⊎◌, Ok, Err, map, option_map, string_bytes, IfOk, IfErr};
ghost use Rattle.trace_read.specs.Command.{check_of, line_of, lines_of, name_of, Ends, EndsAsked, EndsFile, EndsText, OutFaults, Says, SourceFaults};

use crate::checking::{CheckError, totals};
use crate::ending::Ending;
use crate::reading::{ReadError, read_trace};
use crate::total::{Total, Totals};
use flow_io::{MOST_INPUT, Reading, Sink, Source, read_text, say, write_all};
use std::alloc::{AllocError, Global};

/// How the command ended.
#[derive(Clone, Copy, Debug, PartialEq, Eq)]
pub struct Checked {
    pub status: u8,
    /// The number of the refusal of the text or of its totals.
    pub detail: u64,
}

/// All that the command does: it reads a trace, checks its totals, and writes a line for each.
pub fn trace_top<F: Source, O: Sink, M: Sink>(
    alloc: Global,
    words: &[String],
    files: &mut F,
    out: &mut O,
    messages: &mut M,
) -> Checked
    requires out { O.ready out.old }
    requires messages { M.ready messages.old }
    ensures ends { Ends (name_of (map string_bytes words.now)) (record {
      files = F.files files.old;
      faults = F.faults files.old;
      new_faults = F.faults files.new;
    }) (record {
      told = O.told out.old;
      new_told = O.told out.new;
      faults = O.faults out.old;
      new_faults = O.faults out.new;
    }) (record {
      told = M.told messages.old;
      new_told = M.told messages.new;
      faults = M.faults messages.old;
      new_faults = M.faults messages.new;
    }) result }
    ensures files { F.files files.new ≡ F.files files.old }
    ensures out_beside { O.beside out.new ≡ O.beside out.old }
    ensures out_ready { O.ready out.new }
    ensures messages_beside { M.beside messages.new ≡ M.beside messages.old }
    ensures messages_ready { M.ready messages.new }
{
    let ending = carry_out(alloc, words, files, out);
    say_ending(messages, ending);
    Checked {
        status: ending.status(),
        detail: ending.detail(),
    }
}

fn name_of(words: &[String]) -> Option<&str>
    ensures { option_map (λ name. name.now) result ≡ name_of (map string_bytes words.now) }
{
    match words {
        [name] if !name.as_bytes().starts_with(b"-") => Some(name.as_str()),
        _ => None,
    }
}

fn carry_out<F: Source, O: Sink>(
    alloc: Global,
    words: &[String],
    files: &mut F,
    out: &mut O,
) -> Ending
    requires { O.ready out.old }
    ensures ends { EndsAsked (name_of (map string_bytes words.now)) (record {
      files = F.files files.old;
      faults = F.faults files.old;
      new_faults = F.faults files.new;
    }) (record {
      told = O.told out.old;
      new_told = O.told out.new;
      faults = O.faults out.old;
      new_faults = O.faults out.new;
    }) result }
    ensures source { SourceFaults result (record {
      files = F.files files.old;
      faults = F.faults files.old;
      new_faults = F.faults files.new;
    }) }
    ensures out { OutFaults result (record {
      told = O.told out.old;
      new_told = O.told out.new;
      faults = O.faults out.old;
      new_faults = O.faults out.new;
    }) }
    ensures files { F.files files.new ≡ F.files files.old }
    ensures beside { O.beside out.new ≡ O.beside out.old }
    ensures ready { O.ready out.new }
{
    match name_of(words) {
        Some(name) => check_file(alloc, name, files, out),
        None => Ending::Usage,
    }
}

fn check_file<F: Source, O: Sink>(alloc: Global, name: &str, files: &mut F, out: &mut O) -> Ending
    requires { O.ready out.old }
    ensures ends { EndsFile name.now (record {
      files = F.files files.old;
      faults = F.faults files.old;
      new_faults = F.faults files.new;
    }) (record {
      told = O.told out.old;
      new_told = O.told out.new;
      faults = O.faults out.old;
      new_faults = O.faults out.new;
    }) result }
    ensures source { SourceFaults result (record {
      files = F.files files.old;
      faults = F.faults files.old;
      new_faults = F.faults files.new;
    }) }
    ensures out { OutFaults result (record {
      told = O.told out.old;
      new_told = O.told out.new;
      faults = O.faults out.old;
      new_faults = O.faults out.new;
    }) }
    ensures files { F.files files.new ≡ F.files files.old }
    ensures beside { O.beside out.new ≡ O.beside out.old }
    ensures ready { O.ready out.new }
{
    match read_text(alloc, files, name, MOST_INPUT) {
        Reading::Whole(text) => check_text(alloc, text.as_slice(), out),
        Reading::TooLarge(_) => Ending::TooLarge,
        Reading::Unread => Ending::Unread,
        Reading::Memory => Ending::OutOfMemory,
    }
}

/// Reads a text as a trace, checks its totals, and writes a line for each.
fn check_text<O: Sink>(alloc: Global, text: &[u8], out: &mut O) -> Ending
    requires { O.ready out.old }
    ensures ends { EndsText text.now (record {
      told = O.told out.old;
      new_told = O.told out.new;
      faults = O.faults out.old;
      new_faults = O.faults out.new;
    }) result }
    ensures faults { OutFaults result (record {
      told = O.told out.old;
      new_told = O.told out.new;
      faults = O.faults out.old;
      new_faults = O.faults out.new;
    }) }
    ensures beside { O.beside out.new ≡ O.beside out.old }
    ensures ready { O.ready out.new }
{
    let totals = match totals_of(alloc, text) {
        Ok(totals) => totals,
        Err(ending) => return ending,
    };
    let Ok(lines) = lines_of(alloc, totals.as_slice()) else {
        return Ending::OutOfMemory;
    };
    if write_all(out, lines.as_slice()) {
        Ending::Done
    } else {
        Ending::Unwritten
    }
}

/// The totals that a text gives, or how the command ends without them.
#[tactic(auto, unfolding(crate::specs::Command::check_of))]
fn totals_of(alloc: Global, text: &[u8]) -> Result<Totals, Ending>
    ensures ok { IfOk result (λ totals. check_of text.now ≡ Ok totals) }
    ensures err { IfErr result (λ ending. (ending ≡ Ending.OutOfMemory)
        ⊎ (check_of text.now ≡ Err ending)) }
{
    let trace = match read_trace(alloc, text) {
        Ok(trace) => trace,
        Err(ReadError::Memory) => return Err(Ending::OutOfMemory),
        Err(refusal) => return Err(Ending::NotATrace(refusal)),
    };
    match totals(alloc, &trace) {
        Ok(totals) => Ok(totals),
        Err(CheckError::Memory) => Err(Ending::OutOfMemory),
        Err(refusal) => Err(Ending::Differ(refusal)),
    }
}

fn line_of(alloc: Global, total: &Total) -> Result<String, AllocError>
    ensures { IfOk result (λ line. string_bytes line ≡ line_of total.now) }
{
    let Total {
        tid,
        pieces,
        words,
        dur,
    } = *total;
    format!(in alloc; "tid {tid} pieces {pieces} words {words} dur {dur}\n")
}

fn lines_of(alloc: Global, totals: &[Total]) -> Result<Vec<u8>, AllocError>
    ensures { IfOk result (λ lines. lines.items ≡ lines_of totals.now) }
{
    let mut lines = Vec::new(alloc);
    for total in totals {
        lines.extend_from_slice(line_of(alloc, total)?.as_bytes())?;
    }
    Ok(lines)
}

fn say_ending<M: Sink>(messages: &mut M, ending: Ending)
    requires { M.ready messages.old }
    ensures says { Says ending (record {
      told = M.told messages.old;
      new_told = M.told messages.new;
      faults = M.faults messages.old;
      new_faults = M.faults messages.new;
    }) }
    ensures beside { M.beside messages.new ≡ M.beside messages.old }
    ensures ready { M.ready messages.new }
{
    match ending {
        Ending::Done => {}
        _ => say(messages, ending.message(), b""),
    }
}
