//! A message of which no word is used twice.

ghost use Rattle.cap_spec.specs.Occupying.{IsDisjoint};
ghost use Rattle.cap_vet.specs.Vettings.{message_of};
ghost use Rattle.std.specs.Prelude.{◌≡◌, ⊤};

use crate::nodes::vetted::Vetted;
use cap_frame::Segments;
use std::alloc::AllocError;

/// An accepted message of which no word is used twice: the root word, the landing pads of each pointer
/// and the words of each object are all distinct.
pub struct Exclusive<'m, M: Segments> {
    pub(crate) vetted: Vetted<'m, M>,
    ghost disjoint: { ∥ IsDisjoint (M.segments (message_of vetted)) ∥₁ },
}

impl<'m, M: Segments> Clone for Exclusive<'m, M> {
    ghost is_clone = { λ s r. r ≡ s };

    ghost is_infallible = { λ _. ⊤ };

    fn clone(&self) -> Result<Exclusive<'m, M>, AllocError> {
        Ok(*self)
    }
}

impl<'m, M: Segments> Copy for Exclusive<'m, M> {}

impl<'m, M: Segments> Exclusive<'m, M> {
    ghost use Rattle.cap_vet.specs.Exclusives.{vetted_of};

    /// The accepted message, as `vet` gives it.
    pub fn into_vetted(self) -> Vetted<'m, M>
        ensures value { result ≡ vetted_of self.entry }
        ensures disjoint { IsDisjoint (M.segments (message_of result)) }
    {
        self.vetted
    }
}
