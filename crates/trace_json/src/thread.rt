ghost use Rattle.std.specs.Prelude.{◌≡◌, ◌++◌, codes, decimal, string_bytes, IfOk};
ghost use Rattle.serde_json.specs.View.{view};
ghost use Rattle.trace_json.specs.Trace.{thread_data, text_of_thread};

use serde_json::{Value, json};
use std::alloc::{AllocError, Global};
use word_text::Text;

fn thread_value(alloc: Global, tid: u64) -> Result<Value, AllocError>
    ensures { IfOk result (λ v. view v ≡ thread_data tid) }
{
    let name = thread_name(alloc, tid)?;
    let args = json!(in alloc; {"name": name.as_str()})?;
    json!(in alloc; {"args": args, "name": "thread_name", "ph": "M", "pid": 1u64, "tid": tid})
}

fn thread_name(alloc: Global, tid: u64) -> Result<String, AllocError>
    ensures { IfOk result (λ name. string_bytes name ≡ codes "worker " ++ decimal tid) }
{
    format!(in alloc; "worker {tid}")
}

/// The text of the metadata that names a worker.
pub fn thread_text(alloc: Global, tid: u64) -> Result<Text, AllocError>
    ensures { IfOk result (λ text. text ≡ text_of_thread tid) }
{
    let value = thread_value(alloc, tid)?;
    let text = value.to_string(alloc)?;
    Ok(Text::from_bytes(text.into_bytes()))
}
