ghost use Rattle.std.specs.Prelude.{◌≡◌, IfOk};
ghost use Rattle.span_words.specs.Workers.{tids_of};

use crate::SpanEvent;
use std::alloc::{AllocError, Global};
use std::collections::BTreeSet;

/// The numbers of the workers of these spans, each once, in rising order.
pub fn tids_of(alloc: Global, spans: &[SpanEvent]) -> Result<BTreeSet<u64>, AllocError>
    ensures { IfOk result (λ tids. tids.keys ≡ tids_of spans.now) }
{
    let mut tids = BTreeSet::new(alloc);
    for span in spans {
        tids.insert(span.tid)?;
    }
    Ok(tids)
}
