//! What the command is asked to do.
ghost use Rattle.std.specs.Prelude.{◌≡◌, ◌≢◌, ◌≤◌, ◌<◌, ◌⊎◌, ◌∷◌, false, Some, None, IfOk, IfErr, Ok, Err, MatchResult, codes, length};
ghost use Rattle.std.specs.Option.{option_copied};
ghost use Rattle.clap.specs.Words.{all_of, app_of, first_of, found_of, rows_of, rule_of};
ghost use Rattle.command_words.specs.Command.{file_rule, flag_rule, option_rule, profile_app, read_line, read_words};
ghost use Rattle.command_words.specs.Refusals.{IfRefused};
ghost use Rattle.command_words.specs.Texts.{bytes_of, texts_of};
ghost use Rattle.command_words.specs.Usage.{IsWithinLimits, asked_by, asked_of, files_in, given_by, is_on, mode_or, some_input, usage};

use crate::numbers::{number_if, number_or};
use crate::refusal::{ReadError, Refusal};
use clap::{Arg, ArgAction, ArgMatches, Command};
use cursor_word::{LEAST_BLOCKS, MOST_BLOCKS, MOST_SIZE};
use generated_words::MOST_GENERATED;
use span_words::MOST_WORKERS;
use std::alloc::{AllocError, Global};

/// A piece of a text is asked to have so many bytes at most.
pub const MOST_PIECE: u64 = 16_777_216;

/// What a full queue does with one more entry.
#[derive(Clone, Copy, Debug, PartialEq, Eq)]
pub enum Mode {
    /// It refuses the entry.
    RetryNew,
    /// The entry overwrites the oldest block.
    DropOld,
}

/// What the command is asked to do.
#[derive(Debug, Drop)]
pub struct Options {
    pub mode: Mode,
    pub workers: u64,
    pub blocks: u64,
    pub size: u64,
    pub piece: usize,
    pub trace: String,
    pub generate: Option<u64>,
    /// The folded times are to be stored too.
    pub fold: bool,
    pub files: Vec<String>,
}

/// The mode of this name, or the default where none is given.
fn mode_or(default: Mode, name: Option<&str>) -> Result<Mode, Refusal>
    ensures { result ≡ mode_or default (option_copied name.entry) }
{
    match name {
        None => Ok(default),
        Some("retry") => Ok(Mode::RetryNew),
        Some("drop") => Ok(Mode::DropOld),
        Some(_) => Err(Refusal::Mode),
    }
}

/// An option that takes one value: `--name value` or `--name=value`.
fn option<'a>(alloc: Global, name: &'a str) -> Arg<'a>
    ensures rule { rule_of result ≡ option_rule name.entry.now }
    ensures local { result.global ≡ false }
{
    Arg::new(alloc, name).long(name)
}

/// A flag, which takes no value: `--name`.
fn flag<'a>(alloc: Global, name: &'a str) -> Arg<'a>
    ensures rule { rule_of result ≡ flag_rule name.entry.now }
    ensures local { result.global ≡ false }
{
    Arg::new(alloc, name).long(name).action(ArgAction::SetTrue)
}

/// The FILEs: a positional that takes any number of values, one at each use.
fn file<'a>(alloc: Global) -> Arg<'a>
    ensures rule { rule_of result ≡ file_rule }
    ensures local { result.global ≡ false }
{
    Arg::new(alloc, "FILE").action(ArgAction::Append)
}

/// The command, as `clap` reads it.
fn profile_command<'a>(alloc: Global) -> Result<Command<'a>, AllocError>
    ensures { IfOk result (λ command. app_of command ≡ profile_app) }
{
    Command::new(alloc, "bbq-profile")
        .arg(option(alloc, "mode"))?
        .arg(option(alloc, "workers"))?
        .arg(option(alloc, "blocks"))?
        .arg(option(alloc, "size"))?
        .arg(option(alloc, "piece"))?
        .arg(option(alloc, "trace"))?
        .arg(option(alloc, "generate"))?
        .arg(flag(alloc, "fold"))?
        .arg(file(alloc))
}

/// The words behind the name of the program.
fn line_of<'a>(alloc: Global, words: &'a [String]) -> Result<Vec<&'a str>, AllocError>
    ensures { IfOk result (λ line. texts_of line.items ≡ codes "bbq-profile" ∷ bytes_of words.now) }
{
    let mut line = Vec::new(alloc);
    line.push("bbq-profile")?;
    for word in words {
        line.push(word.as_str())?;
    }
    Ok(line)
}

/// What `clap` finds in a line.
fn matches_of<'a>(alloc: Global, line: &'a [&'a str]) -> Result<ArgMatches<'a>, ReadError>
    ensures { MatchResult result
        (λ found. read_line (texts_of line.now) ≡ Ok (rows_of (found_of found)))
        (λ error. IfRefused error (λ refusal. read_line (texts_of line.now) ≡ Err refusal)) }
{
    Ok(profile_command(alloc)?.try_get_matches_from(line)?)
}

/// The value of an option, where it is given.
fn value_of<'a>(found: &ArgMatches<'a>, name: &str) -> Option<&'a str>
    ensures { option_copied result ≡ first_of name.now (rows_of (found_of found.now)) }
{
    found.get_str(name)
}

/// The flag is given.
fn is_set(found: &ArgMatches<'_>, name: &str) -> bool
    ensures { result ≡ is_on (first_of name.now (rows_of (found_of found.now))) }
{
    match value_of(found, name) {
        Some(value) => value == "true",
        None => false,
    }
}

/// The same texts, in memory of their own.
fn owned(alloc: Global, texts: &[&str]) -> Result<Vec<String>, AllocError>
    ensures { IfOk result (λ copies. bytes_of copies.items ≡ texts_of texts.now) }
{
    let mut copies = Vec::new(alloc);
    for text in texts {
        copies.push(String::from_str(alloc, text)?)?;
    }
    Ok(copies)
}

/// The FILEs that are given.
fn files_of(alloc: Global, found: &ArgMatches<'_>) -> Result<Vec<String>, AllocError>
    ensures { IfOk result (λ files. bytes_of files.items
        ≡ files_in (rows_of (found_of found.now))) }
{
    match found.get_strs("FILE") {
        Some(files) => owned(alloc, files),
        None => Ok(Vec::new(alloc)),
    }
}

/// The FILEs, where there is something to read.
fn some_input(generate: Option<u64>, files: Vec<String>) -> Result<Vec<String>, Refusal>
    ensures { MatchResult result
        (λ some. some_input generate (bytes_of files.items) ≡ Ok (bytes_of some.items))
        (λ refusal. some_input generate (bytes_of files.items) ≡ Err refusal) }
{
    if generate.is_none() && files.is_empty() {
        return Err(Refusal::Input);
    }
    Ok(files)
}

/// What is asked by what was found, or the first refusal.
fn asked(alloc: Global, found: &ArgMatches<'_>) -> Result<Options, ReadError>
    ensures asked { MatchResult result
        (λ options. asked_by (given_by (rows_of (found_of found.now))) ≡ Ok (asked_of options))
        (λ error. IfRefused error
        (λ refusal. asked_by (given_by (rows_of (found_of found.now))) ≡ Err refusal)) }
    ensures limits { IfOk result IsWithinLimits }
{
    let mode = mode_or(Mode::RetryNew, value_of(found, "mode"))?;
    let workers = value_of(found, "workers");
    let workers = number_or(Refusal::Workers, 4, 1, MOST_WORKERS, workers)?;
    let blocks = value_of(found, "blocks");
    let blocks = number_or(Refusal::Blocks, 8, LEAST_BLOCKS, MOST_BLOCKS, blocks)?;
    let size = number_or(Refusal::Size, 64, 1, MOST_SIZE, value_of(found, "size"))?;
    let piece = value_of(found, "piece");
    let piece = number_or(Refusal::Piece, 65_536, 1, MOST_PIECE, piece)?;
    let generate = value_of(found, "generate");
    let generate = number_if(Refusal::Generate, 1, MOST_GENERATED, generate)?;
    let files = some_input(generate, files_of(alloc, found)?)?;
    let trace = value_of(found, "trace").unwrap_or("trace.json");
    Ok(Options {
        mode,
        workers,
        blocks,
        size,
        piece: piece as usize,
        trace: String::from_str(alloc, trace)?,
        generate,
        fold: is_set(found, "fold"),
        files,
    })
}

/// What the words of the command ask, or how they are refused.
pub fn read_options(alloc: Global, words: &[String]) -> Result<Options, ReadError>
    ensures usage { MatchResult result
        (λ options. usage (bytes_of words.now) ≡ Ok (asked_of options))
        (λ error. IfRefused error (λ refusal. usage (bytes_of words.now) ≡ Err refusal)) }
    ensures limits { IfOk result IsWithinLimits }
{
    let line = line_of(alloc, words)?;
    let found = matches_of(alloc, line.as_slice())?;
    asked(alloc, &found)
}
