ghost use Rattle.std.specs.Prelude.{None, ◌*◌, IfSome, ◌≡◌, ℕ, List, length, sum_by, IfOk, IfErr, MatchResult, ◌≤◌, ◌⊎◌};
ghost use Rattle.std.specs.List.{AllZip};
ghost use Rattle.flow_io.specs.Flow.{Rose};
ghost use Rattle.profile_cli.specs.Input.{AreRead, IsDue, IsInput, IsTextOf, StopsReading, input_of, made_of, origins_of};
ghost use Rattle.profile_cli.specs.Run.{Closes, SourceFaults};
ghost use Rattle.command_words.specs.Usage.{IsWithinLimits, asked_of};
ghost use Rattle.profile_cli.specs.Texts.{input_limit};

use crate::ending::Ending;
use command_words::Options;
use flow_io::{MOST_INPUT, MOST_TEXT, Reading, Source, read_text};
use generated_words::{MOST_BYTES, MOST_GENERATED, generate};
use std::alloc::{AllocError, Global};
use word_text::Text;

// The texts that are made: the generated one, if it is asked for.
fn made_texts(alloc: Global, generated: Option<u64>) -> Result<Vec<Text>, AllocError>
    requires { IfSome generated (λ words. words ≤ MOST_GENERATED) }
    ensures made { IfOk result (λ texts. AllZip (IsTextOf None) (made_of generated) texts.items) }
    ensures small { IfOk result (λ texts.
        sum_by length texts.items ≤ MOST_BYTES * MOST_GENERATED) }
{
    let mut made = Vec::new(alloc);
    if let Some(words) = generated {
        made.push(generate(alloc, words)?)?;
    }
    Ok(made)
}

// How many bytes the texts have together.
fn bytes_in(texts: &[Text]) -> usize
    requires { sum_by length texts.now ≤ input_limit }
    ensures { result ≡ sum_by length texts.now }
{
    texts.iter().map(|text| text.bytes().len()).sum()
}

/// Makes the generated text, if it is asked for, and reads the texts of all FILEs in order.
pub fn read_all<F: Source>(
    alloc: Global,
    files: &mut F,
    options: &Options,
) -> Result<Vec<Text>, Ending>
    requires limits { IsWithinLimits options.now }
    ensures files { F.files files.new ≡ F.files files.old }
    ensures quiet { IfOk result (λ _. F.faults files.new ≡ F.faults files.old) }
    ensures size { IfOk result (λ texts. sum_by length texts.items ≤ input_limit) }
    ensures read { IfOk result (λ texts.
        let input = input_of (origins_of (asked_of options.now)) (F.files files.old) texts.items in
        IsInput input × AreRead input (length input.origins)) }
    ensures unrun { IfErr result (λ ending. Closes ending None) }
    ensures faults { IfErr result (λ ending.
        SourceFaults ending (F.faults files.old) (F.faults files.new)) }
    ensures stopped { IfErr result (λ ending. (texts : List (List ℕ)) × (
        let input = input_of (origins_of (asked_of options.now)) (F.files files.old) texts in
        IsInput input × ((piece : ℕ) → IsDue piece input ending
        ⊎ StopsReading input (Rose (F.faults files.old) (F.faults files.new)) ending))) }
{
    let Ok(mut texts) = made_texts(alloc, options.generate) else {
        return Err(Ending::OutOfMemory);
    };
    let mut total = bytes_in(texts.as_slice());
    for name in &options.files {
        let number = texts.len() as u64;
        let text = match read_text(alloc, files, name.as_str(), MOST_TEXT) {
            Reading::Whole(text) => text,
            Reading::TooLarge(_) => return Err(Ending::TooLarge(number)),
            Reading::Unread => return Err(Ending::Unread(number)),
            Reading::Memory => return Err(Ending::OutOfMemory),
        };
        total += text.len();
        let Ok(()) = texts.push(Text::from_bytes(text)) else {
            return Err(Ending::OutOfMemory);
        };
        if total > MOST_INPUT {
            return Err(Ending::TooMuch);
        }
    }
    Ok(texts)
}
