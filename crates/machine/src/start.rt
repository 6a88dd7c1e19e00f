//! The words with which a queue starts.
ghost use Rattle.std.specs.Prelude.{◌≡◌, IfOk};
ghost use Rattle.machine.specs.Steps.{start_words};

use cursor_word::{Shape, start_word};
use std::alloc::{AllocError, Global};

/// The words of a queue of this shape in which nothing was put yet.
pub fn start_words(alloc: Global, shape: &Shape) -> Result<Vec<u64>, AllocError>
    ensures { IfOk result (λ words. words.items ≡ start_words shape.now) }
{
    let mut words = Vec::with_capacity(alloc, shape.words() as usize)?;
    for index in 0..shape.words() {
        words.push(start_word(shape, index))?;
    }
    Ok(words)
}
