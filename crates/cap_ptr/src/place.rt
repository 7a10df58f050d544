//! The words of an object.

ghost use Rattle.std.specs.Prelude.{◌≡◌};

use crate::shapes::Target;

/// The words of an object, or of an element of a list of structs.
#[derive(Clone, Copy, Debug, PartialEq, Eq, Drop)]
pub struct Place {
    /// Its segment, counted from 0.
    pub segment: u32,
    /// Its first word, counted from 0: the tag of a list of structs.
    pub start: u32,
    /// How many words it takes, a tag and surplus words included.
    pub words: u32,
}

impl Place {
    /// That of null and of a capability, which have no words.
    pub const NONE: Place = Place {
        segment: 0,
        start: 0,
        words: 0,
    };

    /// That of a target.
    #[inline(always)]
    pub fn of(target: &Target) -> Place
        ensures { let x = target.now in
            result ≡ record { segment = x.segment; start = x.start; words = x.words } }
    {
        Place {
            segment: target.segment,
            start: target.start,
            words: target.words,
        }
    }
}
