//! Where the steps of a path come from.

ghost use Rattle.cap_path.specs.PathSteps.{AreStepsLeft, text_bytes_left};
ghost use Rattle.cap_spec.specs.declared.Step.{Step};
ghost use Rattle.std.specs.Prelude.{[], ◌∷◌, ◌<◌, ◌≡◌, IfSome, List, None, Some, ℕ};

use cap_path::PathSteps;
use cap_spec::Step;

/// A source of the steps of a path, such as its text.
pub trait StepSource {
    // The source gives these steps, in this order, and no more.
    ghost gives: { Self → List Step → Type 0 };

    // It gives at most this number of steps.
    ghost most: { Self → ℕ };

    /// The next step of the path, and `None` after the last one.
    fn next_step(&mut self) -> Option<Step>
        ensures some { (step : Step) (more : List Step) → gives self.old (step ∷ more) →
            (result ≡ Some step) × gives self.new more }
        ensures none { gives self.old [] → (result ≡ None) × gives self.new [] }
        ensures shorter { IfSome result (λ _. most self.new < most self.old) };
}

impl<'t> StepSource for PathSteps<'t> {
    ghost gives = { λ path steps. AreStepsLeft path steps };

    ghost most = { λ path. text_bytes_left path };

    #[inline(always)]
    fn next_step(&mut self) -> Option<Step> {
        self.next()
    }
}
