ghost use Rattle.std.specs.Prelude.{◌≡◌, option_map};
ghost use Rattle.serde_json.specs.Find.{get};
ghost use Rattle.serde_json.specs.View.{view};
ghost use Rattle.trace_read.specs.Event.{text_at, whole_at, whole_or_absent};

use serde_json::Value;

/// The whole number that is the member of a name.
#[tactic(auto, unfolding(crate::specs::Event::whole_at))]
pub fn whole_at(object: &Value, name: &str) -> Option<u64>
    ensures { result ≡ whole_at name.now (view object.now) }
{
    object.get(name).and_then(Value::as_u64)
}

/// The same, or 0 where there is no member of that name.
#[tactic(auto, unfolding(crate::specs::Event::whole_or_absent))]
pub fn whole_or_absent(object: &Value, name: &str) -> Option<u64>
    ensures { result ≡ whole_or_absent name.now (view object.now) }
{
    match object.get(name) {
        Some(found) => found.as_u64(),
        None => Some(0),
    }
}

/// The text that is the member of a name.
#[tactic(auto, unfolding(crate::specs::Event::text_at))]
pub fn text_at<'v>(object: &'v Value, name: &str) -> Option<&'v str>
    ensures { option_map (λ text. text.now) result ≡ text_at name.now (view object.now) }
{
    object.get(name).and_then(Value::as_str)
}
