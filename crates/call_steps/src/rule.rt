//! The rule under which calls do a machine's steps, and what each step tells.
ghost use Rattle.machine.specs.declared.event.Start.{Start};
ghost use Rattle.machine.specs.declared.event.Start.TheVariants.{Go};
ghost use Rattle.call_steps.specs.Rule.{DoesStep, Rule, RunsCalls};

use call_laws::CallPhase;
use std::marker::{Brand, PhantomData};
use step_log::{StepFact, StepRule};

/// A rule whose views are the machine's.
pub trait MachineRule<P: CallPhase>: StepRule {
    ghost rule: { Rule P Self.View };

    /// The law of the rule: each step of a call keeps it. It does nothing when it runs.
    fn runs()
        ensures { RunsCalls rule P.table P.drops Self.holds };
}

/// The call that a loop runs. Each caller of the loop picks it.
pub trait Call {
    ghost start: { Start };
}

impl Call for Brand {
    ghost start = { Go };
}

/// What a step of this call tells.
pub struct NextStep<P, E> {
    call: PhantomData<(P, E)>,
}

impl<P: CallPhase, U: MachineRule<P>, E: Call> StepFact<U> for NextStep<P, E> {
    ghost then = { DoesStep U.rule E.start };
}
