//! A message without the forms that common readers reject.

ghost use Rattle.cap_spec.specs.GreatestLimits.{most_depth, most_words};
ghost use Rattle.cap_spec.specs.Strict.{IsStrict};
ghost use Rattle.cap_vet.specs.Vettings.{message_of};
ghost use Rattle.std.specs.Prelude.{◌≡◌, ⊤};

use crate::nodes::vetted::Vetted;
use cap_frame::Segments;
use std::alloc::AllocError;

/// An accepted message of at most 511 segments, without the pointers that common readers reject. So
/// none has a landing pad of one word that is zero or a capability, and none leads to an object in
/// a segment without words (profile).
pub struct Strict<'m, M: Segments> {
    pub(crate) vetted: Vetted<'m, M>,
    ghost strict: { ∥ IsStrict (M.segments (message_of vetted)) most_words most_depth ∥₁ },
}

impl<'m, M: Segments> Clone for Strict<'m, M> {
    ghost is_clone = { λ s r. r ≡ s };

    ghost is_infallible = { λ _. ⊤ };

    fn clone(&self) -> Result<Strict<'m, M>, AllocError> {
        Ok(*self)
    }
}

impl<'m, M: Segments> Copy for Strict<'m, M> {}

impl<'m, M: Segments> Strict<'m, M> {
    ghost use Rattle.cap_vet.specs.Stricts.{vetted_of};

    /// The accepted message, as `vet` gives it.
    pub fn into_vetted(self) -> Vetted<'m, M>
        ensures value { result ≡ vetted_of self.entry }
        ensures strict { IsStrict (M.segments (message_of result)) most_words most_depth }
    {
        self.vetted
    }
}
