ghost use Rattle.std.specs.Prelude.{◌≡◌, ◌<◌, length, IfOk, IsErrOf};
ghost use Rattle.word_text.specs.Pieces.{plan_of};

use std::alloc::Global;
use word_text::{MOST_PIECES, Plan, PlanError, Text, pieces};

/// The pieces of all texts in order, each of at least `k` bytes but for a text's last.
#[tactic(auto, using(crate::proofs::Planned::plan_passes))]
pub fn plan_all(alloc: Global, texts: &[Text], k: usize) -> Result<Plan, PlanError>
    requires { 0 < k }
    ensures ok { IfOk result (λ plan. plan ≡ plan_of texts.now k) }
    ensures too_many { IsErrOf result PlanError.TooMany
        → MOST_PIECES < length (plan_of texts.now k) }
{
    let mut plan = Plan::new(alloc);
    for (file, text) in texts.iter().enumerate() {
        pieces(alloc, text.bytes(), file as u64, k, &mut plan)?;
    }
    Ok(plan)
}
