//! A slot of a buffer, for one step of a path.

ghost use Rattle.cap_spec.specs.declared.Step.{Step};
ghost use Rattle.std.specs.Prelude.{◌≡◌};

use cap_spec::Step;

/// A slot of a buffer, which holds one step of a path.
pub trait StepSlot: Copy {
    // The slot with this step.
    ghost slot: { Step → Self };

    /// The slot with this step.
    fn of(step: Step) -> Self
        ensures { result ≡ slot step };
}

impl StepSlot for Step {
    ghost slot = { λ step. step };

    #[inline(always)]
    fn of(step: Step) -> Step {
        step
    }
}
