//! The phases of machines whose queues for one seat answer exactly.
ghost use Rattle.solo_rail.specs.Lone.{AnswersExactly, LoneFacts};

use call_laws::CallPhase;

/// The phases of a machine that answers the calls of one seat exactly.
pub trait LonePhase: CallPhase {
    // What stands of the one seat, and what it is answered.
    ghost lone: { LoneFacts Self };

    /// The law of a seat that is alone. It does nothing when it runs.
    fn answers_exactly()
        ensures { AnswersExactly Self.table Self.Holds lone };
}
