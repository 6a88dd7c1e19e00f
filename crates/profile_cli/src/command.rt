ghost use Rattle.std.specs.Prelude.{◌≡◌, map, IfOk, MatchResult, Ok, Err};
ghost use Rattle.command_words.specs.Refusals.{IfRefused};
ghost use Rattle.command_words.specs.Texts.{bytes_of};
ghost use Rattle.command_words.specs.Usage.{IsWithinLimits, asked_of, usage};
ghost use Rattle.profile_cli.specs.Input.{made_of, name_of, names_of};

use command_words::{Options, ReadError, read_options};
use std::alloc::{AllocError, Global};

/// What the words of the command ask, and the names of the texts that are asked for, in order.
#[derive(Drop)]
pub struct Command {
    pub options: Options,
    pub names: Vec<String>,
}

// The names of the texts that are made.
fn made_names(alloc: Global, generated: Option<u64>) -> Result<Vec<String>, AllocError>
    ensures { IfOk result (λ names. bytes_of names.items ≡ map name_of (made_of generated)) }
{
    let mut names = Vec::new(alloc);
    if generated.is_some() {
        names.push(String::from_str(alloc, "generated")?)?;
    }
    Ok(names)
}

// The names of the texts: the generated one, if any, comes first.
fn text_names(alloc: Global, options: &Options) -> Result<Vec<String>, AllocError>
    ensures { IfOk result (λ names. bytes_of names.items ≡ names_of (asked_of options.now)) }
{
    let mut names = made_names(alloc, options.generate)?;
    for file in &options.files {
        names.push(String::from_str(alloc, file.as_str())?)?;
    }
    Ok(names)
}

/// Reads the words of the command.
pub fn read_command(alloc: Global, words: &[String]) -> Result<Command, ReadError>
    ensures usage { MatchResult result
        (λ command. usage (bytes_of words.now) ≡ Ok (asked_of command.options))
        (λ error. IfRefused error (λ refusal. usage (bytes_of words.now) ≡ Err refusal)) }
    ensures limits { IfOk result (λ command. IsWithinLimits command.options) }
    ensures names { IfOk result (λ command.
        bytes_of command.names.items ≡ names_of (asked_of command.options)) }
{
    let options = read_options(alloc, words)?;
    let names = text_names(alloc, &options)?;
    Ok(Command { options, names })
}
