//! Lines of the command, by proof.
ghost use Rattle.command_words.specs.Lines.{AreRight, worked_files, worked_options, worked_values, worked_words};
ghost use Rattle.command_words.specs.Uses.{ReadsBehindDashes, ReadsUses};

/// What worked lines ask, or how they are refused.
pub fn worked_lines()
    ensures files { AreRight worked_files }
    ensures options { AreRight worked_options }
    ensures words { AreRight worked_words }
    ensures values { AreRight worked_values }
{}

/// Options, each given once and with its value behind it or joined to it, and FILEs ask what they
/// give, in whatever order they stand.
pub fn uses_in_any_order()
    ensures { ReadsUses }
{}

/// Behind `--` every word is a FILE.
pub fn words_behind_dashes()
    ensures { ReadsBehindDashes }
{}
