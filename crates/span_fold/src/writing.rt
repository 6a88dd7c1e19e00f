ghost use Rattle.std.specs.Prelude.{◌≡◌, ◌++◌, string_bytes, IfOk, OnOk};
ghost use Rattle.span_fold.specs.Folded.{file_text, folded_text, line_text};

use crate::folded::{Folded, Line};
use std::alloc::{AllocError, Global};
use word_text::Text;

/// The lines as text, one `worker TID TIME` or `worker TID;file FILE TIME` each.
pub fn fold_text(alloc: Global, folded: &Folded) -> Result<Text, AllocError>
    ensures { IfOk result (λ text. text ≡ folded_text folded.now) }
{
    let mut text = Vec::new(alloc);
    for line in folded.as_slice() {
        text.extend_from_slice(line_text(alloc, line)?.as_bytes())?;
    }
    Ok(Text::from_bytes(text))
}

fn line_text(alloc: Global, line: &Line) -> Result<String, AllocError>
    ensures { IfOk result (λ text. string_bytes text ≡ line_text line.now) }
{
    let Line { tid, file, time } = *line;
    match file {
        Some(file) => format!(in alloc; "worker {tid};file {file} {time}\n"),
        None => format!(in alloc; "worker {tid} {time}\n"),
    }
}
